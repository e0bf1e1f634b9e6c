// Placing: each fact goes on the chains of its span's pieces.
ghost use Rattle.std.specs.Prelude.{◌≡◌, ℕ, ◌*◌, ◌<◌, ◌≤◌, length, drop, is_some};
ghost use Rattle.book.specs.Records.{fact_count, question_count};
ghost use Rattle.book.specs.Spans.{fact_within};
ghost use Rattle.book.specs.View.{records_of};
ghost use Rattle.solver.specs.Laid.{Tabled, laid, spanned};
ghost use Rattle.solver.specs.Nodes.{IsRoot};
ghost use Rattle.solver.specs.Placed.{IsEmpty, placed};
ghost use Rattle.solver.specs.Solving.{piece_total};

use crate::chains::Chains;
use crate::span::Span;
use crate::subtree::TreeNode;
use book::Book;

// Places every fact of a book, in the tree with this root over its questions; `spans` has the spans of its facts.
pub(crate) fn place_all(book: &Book, spans: &[[u32; 2]], chains: &mut Chains<'_>, root: TreeNode)
    requires root { IsRoot (records_of book.now) root }
    requires tabled { (Tabled spans.now (spanned (records_of book.now))) × (fact_count (records_of book.now) ≤ length spans.now) }
    requires nodes { 2 * question_count (records_of book.now) ≤ length chains.old.nodes.now }
    requires pieces { piece_total (records_of book.now) ≤ length chains.old.pieces.now }
    requires empty { IsEmpty chains.old }
    ensures nodes { length chains.new.nodes.now ≡ length chains.old.nodes.now }
    ensures laid { (m : ℕ) → placed chains.new m ≡ laid (question_count (records_of book.now)) (spanned (records_of book.now)) m }
{
    let facts = book
        .records()
        .enumerate()
        .filter(|(_, item)| item.fact().is_some());
    for ((number, _), span) in facts.zip(spans) {
        chains.place(number as u32, Span::from(*span), root);
    }
}
