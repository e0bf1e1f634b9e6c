// What a prizes structure does.
ghost use Rattle.std.specs.Prelude.{◌≡◌, ◌/◌, min, [], length};
ghost use Rattle.prizes.specs.Meaning.{capacity_of, stack_of, kind_of};
ghost use Rattle.prizes.specs.Rule.{admits_prize, asks_payout, FewestPrizes, WorkedPrizes};

use crate::lines::{MOST, Prize};
use crate::rows::Rows;
use crate::structure::Prizes;
use undoable::{AskRefusal, Fact, History, PopRefusal, PushRefusal, Question, Undoable};

impl<'a, 'b> Prizes<'a, 'b> {
    // An empty structure. It can hold as many prizes as there are records, and no more than whole rows of 1,001 entries.
    pub fn new(records: &'a mut [Prize], rows: &'b mut [u16]) -> Prizes<'a, 'b>
        ensures stack { stack_of result ≡ [] }
        ensures capacity { capacity_of result ≡ min (length records.old) (length rows.old / 1001) }
        ensures tally { result.history.pushes ≡ 0 }
        ensures least { FewestPrizes }
        ensures worked { WorkedPrizes }
    {
        let rows = Rows::new(rows);
        let most = rows.room();
        let history = History::new(records, most);
        Prizes { history, rows }
    }
}

impl<'a, 'b> Undoable for Prizes<'a, 'b> {
    ghost kind = { kind_of };

    ghost stack = { stack_of };

    ghost pushes = { λ p. p.history.pushes };

    fn push(&mut self, fact: Fact) -> Result<(), PushRefusal> {
        if !is_prize(fact) {
            return Err(PushRefusal::NotAdmitted);
        }
        let prize = Prize::from(fact);
        let at = self.history.height();
        self.history.push(prize)?;
        self.rows.add(at, prize);
        Ok(())
    }

    fn pop(&mut self) -> Result<Fact, PopRefusal> {
        let prize = self.history.pop()?;
        let at = self.history.height();
        self.rows.restore(at);
        Ok(Fact::from(prize))
    }

    fn ask(&self, question: Question) -> Result<u32, AskRefusal> {
        if !is_payout(question) {
            return Err(AskRefusal::NotAdmitted);
        }
        Ok(self.rows.answer(question.first))
    }

    fn height(&self) -> usize {
        self.history.height()
    }

    fn capacity(&self) -> usize {
        self.history.capacity()
    }

    fn tally(&self) -> u32 {
        self.history.tally()
    }

    fn admits_fact(&self, fact: Fact) -> bool {
        is_prize(fact)
    }

    fn admits_question(&self, question: Question) -> bool {
        is_payout(question)
    }

    fn order_is_free(&self) {}

    fn holds_admitted_facts(&self) {}
}

// An amount from 1 to 1,000, and 1 to 1,000 copies.
fn is_prize(fact: Fact) -> bool
    ensures { result ≡ admits_prize fact }
{
    (1..=MOST).contains(&fact.first) && (1..=MOST).contains(&fact.second)
}

// A payout from 0 to 1,000.
fn is_payout(question: Question) -> bool
    ensures { result ≡ asks_payout question }
{
    question.first <= MOST && question.second == 0
}
