// The walk through the tree: push a node's facts, answer at the leaves, take the facts back.
ghost use Rattle.std.specs.Prelude.{◌≡◌, ℕ, ◌+◌, ◌-◌, ◌*◌, ◌%◌, ◌^◌, ◌<◌, ◌≤◌, ◌⊎◌, map, length, drop, IsSome, slice_index};
ghost use Rattle.std.specs.List.{AllByRecursion};
ghost use Rattle.book.specs.View.{records_of};
ghost use Rattle.solver.specs.Folds.{onto};
ghost use Rattle.solver.specs.Nodes.{stack_from, weight_from};
ghost use Rattle.solver.specs.Placed.{facts_left, placed};
ghost use Rattle.book.specs.Spans.{fact_within};
ghost use Rattle.solver.specs.Walks.{question_within, AsksAdmitted, EntersAdmitted, facts_of, numbered_fact, numbered_question};

use crate::chain::Chain;
use crate::chains::Chains;
use crate::subtree::TreeNode;
use book::Book;
use undoable::{Fact, Question, Undoable, roll_back, take_mark};

// Answers the questions of a node. Entry q of `answers` has the record number of question q, and the answer in its place afterwards.
pub(crate) fn walk<U: Undoable>(
    structure: &mut U,
    book: &Book,
    chains: &Chains<'_>,
    answers: &mut [u32],
    node: TreeNode,
)
    requires within { node.tree.hi ≤ length answers.old }
    requires numbered { node.number + 2 * (node.tree.hi - node.tree.lo) ≤ length chains.now.nodes.now }
    requires admitted { (m : ℕ) → AllByRecursion (EntersAdmitted (U.Undoable.kind structure.old) (records_of book.now)) (placed chains.now m) }
    requires asked { (q : ℕ) → node.tree.lo ≤ q → q < node.tree.hi → AsksAdmitted (U.Undoable.kind structure.old) (records_of book.now) (slice_index answers.old q) }
    requires room { (q : ℕ) → node.tree.lo ≤ q → q < node.tree.hi → length (stack_from (facts_of (records_of book.now) (placed chains.now)) node q (U.Undoable.stack structure.old)) ≤ (U.Undoable.kind structure.old).capacity }
    ensures stack { U.Undoable.stack structure.new ≡ U.Undoable.stack structure.old }
    ensures tally { U.Undoable.pushes structure.new % 2 ^ 32 ≡ (U.Undoable.pushes structure.old + weight_from (facts_of (records_of book.now) (placed chains.now)) node) % 2 ^ 32 }
    ensures kind { U.Undoable.kind structure.new ≡ U.Undoable.kind structure.old }
    ensures told { (q : ℕ) → node.tree.lo ≤ q → q < node.tree.hi → slice_index answers.new q ≡ (U.Undoable.kind structure.old).rule (stack_from (facts_of (records_of book.now) (placed chains.now)) node q (U.Undoable.stack structure.old)) (numbered_question (records_of book.now) (slice_index answers.old q)) }
    ensures others { (q : ℕ) → (q < node.tree.lo) ⊎ (node.tree.hi ≤ q) → slice_index answers.new q ≡ slice_index answers.old q }
{
    let mark = take_mark(structure);
    push_all(structure, book, chains.at(node.number));
    if node.tree.is_leaf() {
        let number = answers[node.tree.lo] as usize;
        answers[node.tree.lo] = answer(structure, book, number);
    } else {
        let (left, right) = node.children();
        walk(structure, book, chains, answers, left);
        walk(structure, book, chains, answers, right);
    }
    let _ = roll_back(structure, mark);
}

// The answer to the question of record number `number`.
fn answer<U: Undoable>(structure: &U, book: &Book, number: usize) -> u32
    requires { AsksAdmitted (U.Undoable.kind structure.now) (records_of book.now) number }
    ensures { result ≡ (U.Undoable.kind structure.now).rule (U.Undoable.stack structure.now) (numbered_question (records_of book.now) number) }
{
    let question = question_numbered(book, number);
    structure.ask(question).unwrap()
}

// Pushes the facts of a chain.
fn push_all<U: Undoable>(structure: &mut U, book: &Book, chain: Chain<'_>)
    requires admitted { AllByRecursion (EntersAdmitted (U.Undoable.kind structure.old) (records_of book.now)) (facts_left chain) }
    requires room { length (U.Undoable.stack structure.old) + length (facts_left chain) ≤ (U.Undoable.kind structure.old).capacity }
    ensures stack { U.Undoable.stack structure.new ≡ onto (map (numbered_fact (records_of book.now)) (facts_left chain.entry)) (U.Undoable.stack structure.old) }
    ensures tally { U.Undoable.pushes structure.new % 2 ^ 32 ≡ (U.Undoable.pushes structure.old + length (facts_left chain.entry)) % 2 ^ 32 }
    ensures kind { U.Undoable.kind structure.new ≡ U.Undoable.kind structure.old }
{
    for number in chain {
        let fact = fact_numbered(book, number);
        let _ = structure.push(fact);
    }
}

// The fact that record number `number` enters.
fn fact_numbered(book: &Book, number: usize) -> Fact
    requires { IsSome (fact_within (drop number (records_of book.now))) }
    ensures { result ≡ numbered_fact (records_of book.now) number }
{
    book.read(number).unwrap().item.fact().unwrap()
}

// The question of record number `number`.
fn question_numbered(book: &Book, number: usize) -> Question
    requires { IsSome (question_within (drop number (records_of book.now))) }
    ensures { result ≡ numbered_question (records_of book.now) number }
{
    book.read(number).unwrap().item.question().unwrap()
}
