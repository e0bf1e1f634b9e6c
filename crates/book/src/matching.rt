// The lifetime matcher: from which question to which a fact is alive.
ghost use Rattle.std.specs.Prelude.{◌≡◌};
ghost use Rattle.book.specs.Spans.{span_at};
ghost use Rattle.book.specs.Theorems.{AliveBySpans, AliveByCounts, WorkedBook};
ghost use Rattle.book.specs.View.{records_of};

use crate::scans::questions_until;
use crate::state::Book;

impl Book {
    // The span (s, e) of the fact that record number `number` enters: the fact is alive at question q exactly if
    // s <= q < e. None if the book has no such record, or if it is no fact.
    pub fn span(&self, number: usize) -> Option<(usize, usize)>
        ensures result { result ≡ span_at (records_of self.now) number }
        ensures alive { AliveBySpans }
        ensures counts { AliveByCounts }
        ensures worked { WorkedBook }
    {
        let mut others = self.records_from(number);
        let fact = others.next()?.fact()?;
        // Equal facts that are alive before this one are ended before it.
        let before = self.front(number, fact);
        let after = questions_until(others, fact, before.equal);
        Some((before.questions, before.questions + after))
    }
}
