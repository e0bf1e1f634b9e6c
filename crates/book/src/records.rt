// One record of a book.
ghost use Rattle.std.specs.Prelude.{◌≡◌};
ghost use Rattle.book.specs.Records.{fact_in, question_in};
ghost use Rattle.book.specs.Rules.{fits};
ghost use Rattle.book.specs.WordKinds.{kind_number};
ghost use Rattle.book.specs.Words.{tag_of, first_of, second_of};

use crate::kinds::WordKind;
use undoable::{Fact, Question};

// The greatest field that a word can carry.
pub(crate) const FIELD_LIMIT: u32 = 536_870_911;

// A withdrawal ends one fact that is equal to its own.
#[derive(Clone, Copy, PartialEq, Eq, Debug)]
pub enum Record {
    Fact(Fact),
    Withdrawal(Fact),
    Question(Question),
}

impl Record {
    // The fact that the record enters.
    pub fn fact(self) -> Option<Fact>
        ensures { result ≡ fact_in self }
    {
        match self {
            Record::Fact(fact) => Some(fact),
            _ => None,
        }
    }

    // The question that the record asks.
    pub fn question(self) -> Option<Question>
        ensures { result ≡ question_in self }
    {
        match self {
            Record::Question(question) => Some(question),
            _ => None,
        }
    }

    // The kind of the record's head word.
    pub(crate) fn kind(self) -> WordKind
        ensures { kind_number result ≡ tag_of self }
    {
        match self {
            Record::Fact(_) => WordKind::Fact,
            Record::Withdrawal(_) => WordKind::Withdrawal,
            Record::Question(_) => WordKind::Question,
        }
    }

    pub(crate) fn fields(self) -> (u32, u32)
        ensures { result ≡ (first_of self, second_of self) }
    {
        match self {
            Record::Fact(fact) | Record::Withdrawal(fact) => (fact.first, fact.second),
            Record::Question(question) => (question.first, question.second),
        }
    }

    // Whether both fields can be written into a word.
    pub(crate) fn fits(self) -> bool
        ensures { result ≡ fits self }
    {
        let (first, second) = self.fields();
        first <= FIELD_LIMIT && second <= FIELD_LIMIT
    }
}
