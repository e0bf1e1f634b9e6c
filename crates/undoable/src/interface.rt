// The interface that every structure of the solver meets, and what it means.
ghost use Rattle.std.specs.Prelude.{◌≡◌, ℕ, List, length};
ghost use Rattle.undoable.specs.declared.facts.Fact.{Fact};
ghost use Rattle.undoable.specs.Calls.{push_result, push_stack, push_tally, pop_result, pop_stack, ask_result};
ghost use Rattle.undoable.specs.Kinds.{Kind, Admitted, OrderBlind};

use crate::facts::{Fact, Question};
use crate::refusals::{AskRefusal, PopRefusal, PushRefusal};

pub trait Undoable {
    // what never changes in the structure's life
    ghost kind: { Self → Kind };

    // the facts that it holds, the newest first
    ghost stack: { Self → List Fact };

    // how many pushes it has accepted, modulo 2^32
    ghost pushes: { Self → ℕ };

    // Puts a fact on top.
    fn push(&mut self, fact: Fact) -> Result<(), PushRefusal>
        ensures result { result ≡ push_result (kind self.old) (stack self.old) fact }
        ensures stack { stack self.new ≡ push_stack (kind self.old) (stack self.old) fact }
        ensures tally { pushes self.new ≡ push_tally (kind self.old) (stack self.old) fact (pushes self.old) }
        ensures kind { kind self.new ≡ kind self.old };

    // Takes the newest fact away and returns it.
    fn pop(&mut self) -> Result<Fact, PopRefusal>
        ensures result { result ≡ pop_result (stack self.old) }
        ensures stack { stack self.new ≡ pop_stack (stack self.old) }
        ensures tally { pushes self.new ≡ pushes self.old }
        ensures kind { kind self.new ≡ kind self.old };

    // The answer to a question for the whole stack.
    fn ask(&self, question: Question) -> Result<u32, AskRefusal>
        ensures { result ≡ ask_result (kind self.now) (stack self.now) question };

    fn height(&self) -> usize
        ensures { result ≡ length (stack self.now) };

    fn capacity(&self) -> usize
        ensures { result ≡ (kind self.now).capacity };

    fn tally(&self) -> u32
        ensures { result ≡ pushes self.now };

    fn admits_fact(&self, fact: Fact) -> bool
        ensures { result ≡ (kind self.now).admits fact };

    fn admits_question(&self, question: Question) -> bool
        ensures { result ≡ (kind self.now).asks question };

    // Does nothing: its contract is the law that the order of the facts does not matter.
    fn order_is_free(&self)
        ensures { OrderBlind (kind self.now) };

    // Does nothing: its contract is that every fact held is admitted.
    fn holds_admitted_facts(&self)
        ensures { Admitted (kind self.now) (stack self.now) };
}
