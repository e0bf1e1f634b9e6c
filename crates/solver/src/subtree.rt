// The shape of the time tree: a node over two questions and more has two children, its halves.
ghost use Rattle.std.specs.Prelude.{◌≡◌, ◌+◌, ◌-◌, ◌*◌, ◌^◌, ◌<◌, ◌≤◌, MatchBool, MatchOption};
ghost use Rattle.solver.specs.Tree.{middle};

use crate::span::{Overlap, Span};

// The node over the questions from `lo` on and before `hi`, at least one, and the nodes below it.
#[derive(Clone, Copy, PartialEq, Eq, Debug)]
pub(crate) struct Subtree {
    pub(crate) lo: usize,
    pub(crate) hi: usize,
    ghost some: { lo < hi },
}

impl Subtree {
    ghost use Rattle.solver.specs.Overlaps.{Lies};

    // The tree over all questions, if there are any.
    pub(crate) fn whole(questions: usize) -> Option<Subtree>
        ensures { MatchOption result (questions ≡ 0) (λ tree. (tree.lo ≡ 0) × (tree.hi ≡ questions)) }
    {
        if questions == 0 {
            return None;
        }
        Some(Subtree {
            lo: 0,
            hi: questions,
        })
    }

    // One question has no halves.
    pub(crate) fn is_leaf(self) -> bool
        ensures { MatchBool result (self.hi - self.lo < 2) (2 ≤ self.hi - self.lo) }
    {
        self.hi - self.lo < 2
    }

    // The two halves; the first is the smaller one, if they differ.
    pub(crate) fn halves(self) -> (Subtree, Subtree)
        requires { 2 ≤ self.hi - self.lo }
        ensures first { (result.0.lo ≡ self.lo) × (result.0.hi ≡ middle self.lo self.hi) }
        ensures second { (result.1.lo ≡ middle self.lo self.hi) × (result.1.hi ≡ self.hi) }
    {
        let middle = self.lo + (self.hi - self.lo) / 2;
        let first = Subtree {
            lo: self.lo,
            hi: middle,
        };
        let second = Subtree {
            lo: middle,
            hi: self.hi,
        };
        (first, second)
    }

    // How the node lies to a span.
    pub(crate) fn overlap(self, span: Span) -> Overlap
        ensures { Lies result (span.start, span.end) self.lo self.hi }
    {
        if span.end <= self.lo || self.hi <= span.start {
            Overlap::Apart
        } else if span.start <= self.lo && self.hi <= span.end {
            Overlap::Inside
        } else {
            Overlap::Across
        }
    }
}

// A node by its number: the root has number 0, a node's first child the next number, and its second child the one after all below
// the first.
#[derive(Clone, Copy, PartialEq, Eq, Debug)]
pub(crate) struct TreeNode {
    pub(crate) number: usize,
    pub(crate) tree: Subtree,
    ghost fits: { number + 2 * (tree.hi - tree.lo) ≤ 2 ^ 64 },
}

impl TreeNode {
    ghost use Rattle.solver.specs.Nodes.{AreChildren};

    // The root of a tree.
    pub(crate) fn root(tree: Subtree) -> TreeNode
        requires { 2 * (tree.hi - tree.lo) ≤ 2 ^ 64 }
        ensures number { result.number ≡ 0 }
        ensures tree { result.tree ≡ tree }
    {
        TreeNode { number: 0, tree }
    }

    // The two children. A subtree over k questions has 2 * k - 1 nodes.
    pub(crate) fn children(self) -> (TreeNode, TreeNode)
        requires { 2 ≤ self.tree.hi - self.tree.lo }
        ensures { AreChildren self result.0 result.1 }
    {
        let (first, second) = self.tree.halves();
        let left = TreeNode {
            number: self.number + 1,
            tree: first,
        };
        let right = TreeNode {
            number: self.number + 2 * (first.hi - first.lo),
            tree: second,
        };
        (left, right)
    }
}
