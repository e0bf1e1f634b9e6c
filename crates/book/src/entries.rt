// Entering records: each call appends one record or refuses and changes nothing.
ghost use Rattle.std.specs.Prelude.{◌≡◌, [], ◌∷◌, ◌++◌, Ok};
ghost use Rattle.book.specs.Rules.{judge, judge_kind, after_entry};
ghost use Rattle.book.specs.View.{records_of};

use crate::records::Record;
use crate::refusals::Refusal;
use crate::state::Book;
use undoable::{Fact, Question};

const RECORD_LIMIT: usize = 4096;

const QUESTION_LIMIT: usize = 1024;

impl Book {
    // A book with no records.
    pub fn new() -> Book
        ensures { records_of result ≡ [] }
    {
        Book {
            words: [0; 8192],
            records: 0,
            questions: 0,
        }
    }

    // Enters a fact.
    pub fn enter_fact(&mut self, fact: Fact) -> Result<(), Refusal>
        ensures result { result ≡ judge (records_of self.old) (Record.Fact fact) }
        ensures after { records_of self.new ≡ after_entry (records_of self.old) (Record.Fact fact) }
    {
        self.enter(Record::Fact(fact))
    }

    // Withdraws a fact: ends the earliest entered of the equal facts still alive.
    pub fn enter_withdrawal(&mut self, fact: Fact) -> Result<(), Refusal>
        ensures result { result ≡ judge (records_of self.old) (Record.Withdrawal fact) }
        ensures after { records_of self.new ≡ after_entry (records_of self.old) (Record.Withdrawal fact) }
    {
        self.enter(Record::Withdrawal(fact))
    }

    // Enters a question.
    pub fn enter_question(&mut self, question: Question) -> Result<(), Refusal>
        ensures result { result ≡ judge (records_of self.old) (Record.Question question) }
        ensures after { records_of self.new ≡ after_entry (records_of self.old) (Record.Question question) }
    {
        self.enter(Record::Question(question))
    }

    // Appends a record of any kind, or says why not.
    pub fn enter(&mut self, item: Record) -> Result<(), Refusal>
        ensures result { result ≡ judge (records_of self.old) item }
        ensures after { records_of self.new ≡ after_entry (records_of self.old) item }
    {
        self.judged(item)?;
        self.append(item);
        Ok(())
    }

    // What would come of entering the record.
    fn judged(&self, item: Record) -> Result<(), Refusal>
        ensures { result ≡ judge (records_of self.now) item }
    {
        if !item.fits() {
            return Err(Refusal::FieldTooLarge);
        }
        if self.record_count() >= RECORD_LIMIT {
            return Err(Refusal::BookFull);
        }
        self.judged_kind(item)
    }

    // The part of the judgement that differs from kind to kind.
    fn judged_kind(&self, item: Record) -> Result<(), Refusal>
        ensures { result ≡ judge_kind (records_of self.now) item }
    {
        match item {
            Record::Withdrawal(fact) if self.front(self.record_count(), fact).equal == 0 => {
                Err(Refusal::NothingAlive)
            }
            Record::Question(_) if self.question_count() >= QUESTION_LIMIT => {
                Err(Refusal::TooManyQuestions)
            }
            _ => Ok(()),
        }
    }

    // Writes an accepted record behind the others.
    fn append(&mut self, item: Record)
        requires { judge (records_of self.old) item ≡ Ok tt }
        ensures { records_of self.new ≡ records_of self.old ++ item ∷ [] }
    {
        let at = 2 * self.records;
        let (head, second) = item.words();
        self.words[at] = head;
        self.words[at + 1] = second;
        self.records += 1;
        self.questions += usize::from(item.question().is_some());
    }
}
