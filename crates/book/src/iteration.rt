// The records of a book, one after the other, out of the book's own words.
ghost use Rattle.std.specs.Prelude.{◌≡◌, ◌≤◌, length, take, drop};
ghost use Rattle.book.specs.Words.{reads};

use crate::records::Record;
use crate::state::Book;
use crate::words::record_of;

// The records that some words stand for, two words for each.
#[derive(Clone, Copy)]
pub struct Records<'b> {
    words: &'b [u32],
    ghost few: { length (reads words.now) ≤ 4096 },
}

impl<'b> Iterator for Records<'b> {
    ghost use Rattle.std.specs.Iterator.{YieldsFirst, item_count};
    ghost use Rattle.book.specs.Listed.{listed};

    type Item = Record;

    ghost next_gives = { YieldsFirst listed };

    ghost remaining = { item_count listed };

    fn next(&mut self) -> Option<Record> {
        let [head, second, others @ ..] = self.words else {
            return None;
        };
        self.words = others;
        Some(record_of(*head, *second))
    }
}

impl Book {
    ghost use Rattle.book.specs.Listed.{listed};
    ghost use Rattle.book.specs.View.{records_of};

    // The records, the earliest entered first.
    pub fn records(&self) -> Records<'_>
        ensures gives { listed result ≡ records_of self.now }
        ensures few { length (listed result) ≤ 4096 }
    {
        Records {
            words: self.words(),
        }
    }

    // The first `number` records.
    pub(crate) fn records_before(&self, number: usize) -> Records<'_>
        ensures { listed result ≡ take number (records_of self.now) }
    {
        let end = 2 * number.min(self.records);
        Records {
            words: &self.words()[..end],
        }
    }

    // The records from number `number` on.
    pub(crate) fn records_from(&self, number: usize) -> Records<'_>
        ensures { listed result ≡ drop number (records_of self.now) }
    {
        let start = 2 * number.min(self.records);
        Records {
            words: &self.words()[start..],
        }
    }
}
