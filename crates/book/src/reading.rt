// Reading a book: one record, all its words, and how many records there are.
ghost use Rattle.std.specs.Prelude.{◌≡◌, length};
ghost use Rattle.book.specs.Reading.{shown_at};
ghost use Rattle.book.specs.Records.{question_count};
ghost use Rattle.book.specs.View.{records_of};
ghost use Rattle.book.specs.Words.{writes};

use crate::records::Record;
use crate::refusals::ReadRefusal;
use crate::state::Book;

// A record and the place of its head word among the book's words.
#[derive(Clone, Copy, PartialEq, Eq, Debug)]
pub struct Shown {
    pub item: Record,
    pub place: usize,
}

impl Book {
    // Record number `number`, out of the book's own words.
    pub fn read(&self, number: usize) -> Result<Shown, ReadRefusal>
        ensures { result ≡ shown_at (records_of self.now) number }
    {
        let Some(item) = self.records_from(number).next() else {
            return Err(ReadRefusal::NoSuchRecord);
        };
        let place = 2 * number;
        Ok(Shown { item, place })
    }

    // All the words in use, two for each record.
    pub fn words(&self) -> &[u32]
        ensures { result.now ≡ writes (records_of self.now) }
    {
        let end = 2 * self.records;
        &self.words[..end]
    }

    pub fn record_count(&self) -> usize
        ensures { result ≡ length (records_of self.now) }
    {
        self.records
    }

    pub fn question_count(&self) -> usize
        ensures { result ≡ question_count (records_of self.now) }
    {
        self.questions
    }
}
