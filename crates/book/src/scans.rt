// Passes over the records of a book for one fact.
ghost use Rattle.std.specs.Prelude.{◌≡◌, ◌≤◌, take};
ghost use Rattle.book.specs.Alive.{alive, equal_to};
ghost use Rattle.book.specs.Listed.{listed};
ghost use Rattle.book.specs.Records.{question_count};
ghost use Rattle.book.specs.Spans.{until};
ghost use Rattle.book.specs.View.{records_of};

use crate::iteration::Records;
use crate::records::Record;
use crate::state::Book;
use undoable::Fact;

// How many facts equal to a given one are alive after the first records of a book, and how many of these are questions.
#[derive(Clone, Copy)]
pub(crate) struct Front {
    pub(crate) equal: usize,
    pub(crate) questions: usize,
}

impl Book {
    // Each withdrawal ends one of the equal facts alive, so those are as many as were entered less those withdrawn. The fields are
    // compared whatever the kind, so that the pass has no branch for a record; with such branches it took up to twice the time.
    pub(crate) fn front(&self, number: usize, fact: Fact) -> Front
        ensures equal { result.equal ≡ equal_to fact (alive (take number (records_of self.now))) }
        ensures questions { result.questions ≡ question_count (take number (records_of self.now)) }
        ensures few { result.questions ≤ 4096 }
    {
        let mut entered = 0;
        let mut withdrawn = 0;
        let mut questions = 0;
        for item in self.records_before(number) {
            let (first, second) = item.fields();
            let equal = first == fact.first && second == fact.second;
            entered += usize::from(equal && item.fact().is_some());
            withdrawn += usize::from(equal && matches!(item, Record::Withdrawal(_)));
            questions += usize::from(item.question().is_some());
        }
        Front {
            equal: entered - withdrawn,
            questions,
        }
    }
}

// How many of the records are questions before the withdrawal of `fact` that comes after `equal` others.
pub(crate) fn questions_until(records: Records<'_>, fact: Fact, equal: usize) -> usize
    ensures until { result ≡ until fact equal (listed records.entry) }
    ensures few { result ≤ 4096 }
{
    let mut left = equal;
    let mut questions = 0;
    for item in records {
        if item == Record::Withdrawal(fact) {
            if left == 0 {
                return questions;
            }
            left -= 1;
        } else if let Record::Question(_) = item {
            questions += 1;
        }
    }
    questions
}
