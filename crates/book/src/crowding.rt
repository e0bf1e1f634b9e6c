// Where more facts are alive than there is room for.
ghost use Rattle.std.specs.Prelude.{◌≡◌, ◌+◌, nat_lt};
ghost use Rattle.book.specs.Spans.{first_crowded};
ghost use Rattle.book.specs.View.{records_of};

use crate::records::Record;
use crate::state::Book;

impl Book {
    // The first question at which `others` and the facts alive there are more than `limit`.
    #[tactic(auto, using(crate::proofs::Passes::sound_lasts, crate::proofs::Passes::crowded_is))]
    pub fn first_over(&self, others: usize, limit: usize) -> Option<usize>
        ensures { result ≡ first_crowded (records_of self.now) others limit }
    {
        let mut alive = 0;
        let mut questions = 0;
        for item in self.records() {
            match item {
                Record::Fact(_) => alive += 1,
                Record::Withdrawal(_) => alive -= 1,
                Record::Question(_) => {
                    if exceeds(others, alive, limit) {
                        return Some(questions);
                    }
                    questions += 1;
                }
            }
        }
        None
    }
}

// `others + alive` is above `limit`, also where the sum does not fit.
fn exceeds(others: usize, alive: usize, limit: usize) -> bool
    ensures { result ≡ nat_lt limit (others + alive) }
{
    others > limit || alive > limit - others
}
