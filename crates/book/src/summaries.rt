// Counts over a whole book.
ghost use Rattle.std.specs.Prelude.{◌≡◌};
ghost use Rattle.book.specs.Records.{fact_count, withdrawal_count, question_count};
ghost use Rattle.book.specs.Spans.{deepest_of};
ghost use Rattle.book.specs.View.{records_of};

use crate::records::Record;
use crate::state::Book;

// `deepest` is the greatest number of facts alive at one question, 0 without questions.
#[derive(Clone, Copy, PartialEq, Eq, Debug, Default)]
pub struct Summary {
    pub facts: usize,
    pub withdrawals: usize,
    pub questions: usize,
    pub deepest: usize,
}

impl Book {
    // Each withdrawal ends one fact, so one pass counts those alive.
    #[tactic(auto, using(crate::proofs::Passes::sound_lasts, crate::proofs::Passes::deepest_is))]
    pub fn summary(&self) -> Summary
        ensures facts { result.facts ≡ fact_count (records_of self.now) }
        ensures withdrawals { result.withdrawals ≡ withdrawal_count (records_of self.now) }
        ensures questions { result.questions ≡ question_count (records_of self.now) }
        ensures deepest { result.deepest ≡ deepest_of (records_of self.now) }
    {
        let mut counts = Summary::default();
        let mut alive = 0;
        for item in self.records() {
            match item {
                Record::Fact(_) => {
                    counts.facts += 1;
                    alive += 1;
                }
                Record::Withdrawal(_) => {
                    counts.withdrawals += 1;
                    alive -= 1;
                }
                Record::Question(_) => {
                    counts.questions += 1;
                    counts.deepest = counts.deepest.max(alive);
                }
            }
        }
        counts
    }
}
