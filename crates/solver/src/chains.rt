// Chains of facts, one at each node of the tree.
ghost use Rattle.std.specs.Prelude.{◌≡◌, ℕ, ◌+◌, ◌-◌, ◌*◌, ◌^◌, ◌<◌, ◌≤◌, [], ◌∷◌, length};
ghost use Rattle.solver.specs.Chains.{Added, link_after, link_of};

use crate::chain::Chain;
use crate::span::{Overlap, Span};
use crate::subtree::TreeNode;

// Pair k of `pieces` is entry k: a fact, by the number of its record, and the link to the next entry of its chain. The first word of
// pair m of `nodes` links to the first entry at node number m, the second is spare. A link to entry k is k + 1, and 0 is none. The
// first `used` entries are in use, and links lead to earlier ones.
#[derive(Drop)]
pub(crate) struct Chains<'a> {
    pub(crate) nodes: &'a mut [[u32; 2]],
    pub(crate) pieces: &'a mut [[u32; 2]],
    pub(crate) used: usize,
    ghost heads: { (m : ℕ) → link_of nodes.now m ≤ used },
    ghost nexts: { (k : ℕ) → k < used → link_after pieces.now k ≤ k },
    ghost within: { used ≤ length pieces.now },
    ghost few: { length pieces.now < 2 ^ 32 },
}

impl<'a> Chains<'a> {
    ghost use Rattle.solver.specs.Nodes.{pieces_under};
    ghost use Rattle.solver.specs.Placed.{IsEmpty, facts_left, placed};

    // Chains with no entry.
    pub(crate) fn new(nodes: &'a mut [[u32; 2]], pieces: &'a mut [[u32; 2]]) -> Chains<'a>
        requires { length pieces.old < 2 ^ 32 }
        ensures empty { IsEmpty result }
        ensures nodes { length result.nodes.now ≡ length nodes.old }
        ensures pieces { length result.pieces.now ≡ length pieces.old }
    {
        nodes.fill([0; 2]);
        Chains {
            nodes,
            pieces,
            used: 0,
        }
    }

    // Puts the fact on the chain of node number `number`.
    fn put(&mut self, fact: u32, number: usize)
        requires numbered { number < length self.old.nodes.now }
        requires room { self.old.used < length self.old.pieces.now }
        ensures used { self.new.used ≡ self.old.used + 1 }
        ensures facts { Added fact (number ∷ []) (placed self.old) (placed self.new) }
        ensures nodes { length self.new.nodes.now ≡ length self.old.nodes.now }
        ensures pieces { length self.new.pieces.now ≡ length self.old.pieces.now }
    {
        let [next, _] = self.nodes[number];
        let entry = self.used;
        self.pieces[entry] = [fact, next];
        self.used = entry + 1;
        self.nodes[number] = [self.used as u32, 0];
    }

    // Puts the fact on the chains of the pieces of the span among the node and those below it.
    pub(crate) fn place(&mut self, fact: u32, span: Span, node: TreeNode)
        requires numbered { node.number + 2 * (node.tree.hi - node.tree.lo) ≤ length self.old.nodes.now }
        requires room { self.old.used + length (pieces_under node span) ≤ length self.old.pieces.now }
        ensures used { self.new.used ≡ self.old.used + length (pieces_under node span) }
        ensures facts { Added fact (pieces_under node span) (placed self.old) (placed self.new) }
        ensures nodes { length self.new.nodes.now ≡ length self.old.nodes.now }
        ensures pieces { length self.new.pieces.now ≡ length self.old.pieces.now }
    {
        match node.tree.overlap(span) {
            Overlap::Apart => {}
            Overlap::Inside => self.put(fact, node.number),
            Overlap::Across => {
                let (left, right) = node.children();
                self.place(fact, span, left);
                self.place(fact, span, right);
            }
        }
    }

    // The chain of node number `number`.
    pub(crate) fn at(&self, number: usize) -> Chain<'_>
        requires { number < length self.now.nodes.now }
        ensures { facts_left result ≡ placed self.now number }
    {
        let [link, _] = self.nodes[number];
        Chain {
            pieces: &*self.pieces,
            link: link as usize,
        }
    }
}
