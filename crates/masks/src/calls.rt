// What a masks structure does.
ghost use Rattle.std.specs.Prelude.{◌≡◌, [], length};
ghost use Rattle.masks.specs.Meaning.{capacity_of, stack_of, kind_of};
ghost use Rattle.masks.specs.Rule.{SumsOfSelections, ZeroIsSum, WorkedMasks};

use crate::basis::Basis;
use crate::lines::MaskStep;
use crate::mask::Mask;
use crate::structure::Masks;
use undoable::{AskRefusal, Fact, History, PopRefusal, PushRefusal, Question, Undoable};

impl<'a> Masks<'a> {
    // An empty structure. It can hold as many masks as there are records.
    pub fn new(records: &'a mut [MaskStep]) -> Masks<'a>
        ensures stack { stack_of result ≡ [] }
        ensures capacity { capacity_of result ≡ length records.old }
        ensures tally { result.history.pushes ≡ 0 }
        ensures sums { SumsOfSelections }
        ensures zero { ZeroIsSum }
        ensures worked { WorkedMasks }
    {
        let most = records.len();
        Masks {
            history: History::new(records, most),
            basis: Basis::new(),
        }
    }
}

impl<'a> Undoable for Masks<'a> {
    ghost kind = { kind_of };

    ghost stack = { stack_of };

    ghost pushes = { λ p. p.history.pushes };

    // A push is recorded also if it adds nothing to the basis.
    fn push(&mut self, fact: Fact) -> Result<(), PushRefusal> {
        let mask = Mask::new(fact.first, fact.second).ok_or(PushRefusal::NotAdmitted)?;
        if self.history.is_full() {
            return Err(PushRefusal::Full);
        }
        let slot = self.basis.add(mask);
        self.history.push(MaskStep {
            mask: mask.bits,
            slot,
        })
    }

    // The newest mask goes with what it added to the basis.
    fn pop(&mut self) -> Result<Fact, PopRefusal> {
        let step = self.history.pop()?;
        self.basis.clear(step.slot);
        Ok(Fact::from(Mask { bits: step.mask }))
    }

    fn ask(&self, question: Question) -> Result<u32, AskRefusal> {
        let mask = Mask::new(question.first, question.second).ok_or(AskRefusal::NotAdmitted)?;
        Ok(u32::from(self.basis.spans(mask)))
    }

    fn height(&self) -> usize {
        self.history.height()
    }

    fn capacity(&self) -> usize {
        self.history.capacity()
    }

    fn tally(&self) -> u32 {
        self.history.tally()
    }

    fn admits_fact(&self, fact: Fact) -> bool {
        Mask::new(fact.first, fact.second).is_some()
    }

    fn admits_question(&self, question: Question) -> bool {
        Mask::new(question.first, question.second).is_some()
    }

    fn order_is_free(&self) {}

    fn holds_admitted_facts(&self) {}
}
