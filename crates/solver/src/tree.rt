// The time tree: the node (0, t) over all t questions is the root, and a node (lo, hi) of two questions and more has the children
// (lo, mid) and (mid, hi), where mid = lo + (hi - lo) / 2. The pieces of a span are the largest nodes inside it.
ghost use Rattle.std.specs.Prelude.{◌≡◌, ℕ, length};
ghost use Rattle.solver.specs.Folds.{numbers_of};
ghost use Rattle.solver.specs.Tree.{pieces_of, PiecesPartition, PiecesFew, WorkedPieces};

use crate::span::{Overlap, Span};
use crate::subtree::Subtree;

// How many pieces the span (s, e) has in the tree over `t` questions. It takes about one step for each level of the tree.
pub fn piece_count(t: usize, s: usize, e: usize) -> usize
    ensures result { result ≡ length (pieces_of t (s, e)) }
    ensures partition { PiecesPartition }
    ensures few { PiecesFew }
    ensures worked { WorkedPieces }
{
    match Subtree::whole(t) {
        Some(tree) => count_below(tree, Span { start: s, end: e }),
        None => 0,
    }
}

// How many pieces there are among a node, whose parent is not inside the span, and those below it.
fn count_below(tree: Subtree, span: Span) -> usize
    ensures { (m : ℕ) → result ≡ length (numbers_of (span.start, span.end) m tree.lo tree.hi) }
{
    match tree.overlap(span) {
        Overlap::Apart => 0,
        Overlap::Inside => 1,
        Overlap::Across => {
            let (left, right) = tree.halves();
            count_below(left, span) + count_below(right, span)
        }
    }
}
