// Solving: the answer to every question of a book, for the facts alive there and those on the structure's stack.
ghost use Rattle.std.specs.Prelude.{◌≡◌, ℕ, ◌+◌, ◌*◌, ◌%◌, ◌^◌, ◌<◌, ◌≤◌, [], ◌++◌, length, drop, IfOk, slice_index};
ghost use Rattle.book.specs.Records.{fact_count, question_count};
ghost use Rattle.book.specs.Spans.{before};
ghost use Rattle.book.specs.View.{records_of};
ghost use Rattle.solver.specs.Laid.{Tabled, laid, spanned};
ghost use Rattle.solver.specs.Nodes.{IsRoot};
ghost use Rattle.solver.specs.Placed.{IsEmpty, placed};
ghost use Rattle.solver.specs.Solving.{Accepted, Sizes, answer_at, answers_for, judge_solve, piece_total, solve_outcome, solve_table, solve_tally};
ghost use Rattle.solver.specs.Tables.{Measures, RoomFor};

use crate::asking::number_questions;
use crate::chains::Chains;
use crate::fitting::first_unfit;
use crate::placing::place_all;
use crate::refusals::{SolveError, SolveRefusal, Solved};
use crate::subtree::{Subtree, TreeNode};
use crate::tables::Tables;
use crate::walking::walk;
use book::Book;
use undoable::Undoable;

// Writes the answer to question q into entry q of `answers`. The tables `spans`, `nodes` and `pieces` are for its own work, and
// what they hold afterwards is free. Each fact is pushed once for each piece of its span, and popped again.
pub fn solve<U: Undoable>(
    structure: &mut U,
    book: &Book,
    answers: &mut [u32],
    spans: &mut [u32],
    nodes: &mut [u32],
    pieces: &mut [u32],
) -> Result<Solved, SolveError>
    ensures result { result ≡ solve_outcome (U.Undoable.kind structure.old) (U.Undoable.stack structure.old) (records_of book.now) (record { answers = length answers.entry.now; spans = length spans.old; nodes = length nodes.old; pieces = length pieces.old }) }
    ensures answers { answers.exit.now ≡ solve_table (U.Undoable.kind structure.old) (U.Undoable.stack structure.old) (records_of book.now) (record { answers = length answers.entry.now; spans = length spans.old; nodes = length nodes.old; pieces = length pieces.old }) answers.entry.now }
    ensures stack { U.Undoable.stack structure.new ≡ U.Undoable.stack structure.old }
    ensures tally { U.Undoable.pushes structure.new ≡ solve_tally (U.Undoable.kind structure.old) (U.Undoable.stack structure.old) (records_of book.now) (record { answers = length answers.entry.now; spans = length spans.old; nodes = length nodes.old; pieces = length pieces.old }) (U.Undoable.pushes structure.old) }
    ensures kind { U.Undoable.kind structure.new ≡ U.Undoable.kind structure.old }
{
    let mut tables = Tables::new(spans, nodes, pieces);
    let additions = judge(structure, book, answers.len(), &mut tables)?;
    let Tables {
        spans,
        nodes,
        pieces,
    } = tables;
    let nodes = &mut nodes[..2 * book.question_count()];
    let mut chains = Chains::new(nodes, &mut pieces[..additions]);
    answer_all(structure, book, answers, spans, &mut chains);
    let summary = book.summary();
    Ok(Solved {
        questions: summary.questions,
        additions,
        deepest: summary.deepest,
    })
}

// Whether the book can be solved, and with how many additions. Then the tables have the spans of its facts.
fn judge<U: Undoable>(
    structure: &U,
    book: &Book,
    answers: usize,
    tables: &mut Tables<'_>,
) -> Result<usize, SolveError>
    ensures result { (z : Sizes) → z.answers ≡ answers → Measures z tables.old → result ≡ judge_solve (U.Undoable.kind structure.now) (U.Undoable.stack structure.now) (records_of book.now) z }
    ensures accepted { IfOk result (λ n. Accepted (U.Undoable.kind structure.now) (U.Undoable.stack structure.now) (records_of book.now) answers × RoomFor (records_of book.now) tables.new × (n ≡ piece_total (records_of book.now)) × (n ≤ 2 ^ 24)) }
{
    if answers < book.question_count() {
        return Err(SolveRefusal::AnswersShort.at(0));
    }
    if let Some(place) = first_unfit(structure, book) {
        return Err(SolveRefusal::NotAdmitted.at(place));
    }
    let additions = tables.prepare(book)?;
    if let Some(place) = book.first_over(structure.height(), structure.capacity()) {
        return Err(SolveRefusal::TooHigh.at(place));
    }
    Ok(additions)
}

// Answers a book that is accepted: places its facts on the chains, and walks through the tree.
fn answer_all<U: Undoable>(
    structure: &mut U,
    book: &Book,
    answers: &mut [u32],
    spans: &[[u32; 2]],
    chains: &mut Chains<'_>,
)
    requires accepted { Accepted (U.Undoable.kind structure.old) (U.Undoable.stack structure.old) (records_of book.now) (length answers.old) }
    requires tabled { (Tabled spans.now (spanned (records_of book.now))) × (fact_count (records_of book.now) ≤ length spans.now) }
    requires nodes { 2 * question_count (records_of book.now) ≤ length chains.old.nodes.now }
    requires pieces { piece_total (records_of book.now) ≤ length chains.old.pieces.now }
    requires empty { IsEmpty chains.old }
    ensures answers { answers.new ≡ answers_for (U.Undoable.kind structure.old) (U.Undoable.stack structure.old) (records_of book.now) ++ drop (question_count (records_of book.now)) answers.old }
    ensures stack { U.Undoable.stack structure.new ≡ U.Undoable.stack structure.old }
    ensures tally { U.Undoable.pushes structure.new ≡ (U.Undoable.pushes structure.old + piece_total (records_of book.now)) % 2 ^ 32 }
    ensures kind { U.Undoable.kind structure.new ≡ U.Undoable.kind structure.old }
{
    if let Some(tree) = Subtree::whole(book.question_count()) {
        let root = TreeNode::root(tree);
        place_all(book, spans, chains, root);
        number_questions(book, answers);
        answer_numbered(structure, book, answers, chains, root);
    }
    // The tally is a 32-bit number, so that its growth is known modulo 2^32.
    let _ = structure.tally();
}

// Walks through the tree. Entry q of `answers` has the record number of question q.
fn answer_numbered<U: Undoable>(
    structure: &mut U,
    book: &Book,
    answers: &mut [u32],
    chains: &Chains<'_>,
    root: TreeNode,
)
    requires root { IsRoot (records_of book.now) root }
    requires accepted { Accepted (U.Undoable.kind structure.old) (U.Undoable.stack structure.old) (records_of book.now) (length answers.old) }
    requires long { 2 * question_count (records_of book.now) ≤ length chains.now.nodes.now }
    requires laid { (m : ℕ) → placed chains.now m ≡ laid (question_count (records_of book.now)) (spanned (records_of book.now)) m }
    requires numbered { (q : ℕ) → q < question_count (records_of book.now) → slice_index answers.old q ≡ length (before q (records_of book.now)) }
    ensures told { (q : ℕ) → q < question_count (records_of book.now) → slice_index answers.new q ≡ answer_at (U.Undoable.kind structure.old) (U.Undoable.stack structure.old) (records_of book.now) q }
    ensures others { (q : ℕ) → question_count (records_of book.now) ≤ q → slice_index answers.new q ≡ slice_index answers.old q }
    ensures stack { U.Undoable.stack structure.new ≡ U.Undoable.stack structure.old }
    ensures tally { U.Undoable.pushes structure.new % 2 ^ 32 ≡ (U.Undoable.pushes structure.old + piece_total (records_of book.now)) % 2 ^ 32 }
    ensures kind { U.Undoable.kind structure.new ≡ U.Undoable.kind structure.old }
{
    structure.order_is_free();
    structure.holds_admitted_facts();
    walk(structure, book, chains, answers, root);
}
