// The words of a record: bits 31 to 29 are a word's kind, bits 28 to 0 its payload.
ghost use Rattle.std.specs.Prelude.{◌≡◌, true};
ghost use Rattle.book.specs.Rules.{fits, record_words};
ghost use Rattle.book.specs.Words.{payload_in, head_word_of, second_word_of, record_in};

use crate::kinds::WordKind;
use crate::records::{FIELD_LIMIT, Record};
use crate::refusals::Refusal;
use undoable::{Fact, Question};

// The two words that a record is written as, for programs that make books out of other formats.
pub fn words_of_record(item: Record) -> Result<(u32, u32), Refusal>
    ensures { result ≡ record_words item }
{
    if !item.fits() {
        return Err(Refusal::FieldTooLarge);
    }
    Ok(item.words())
}

impl Record {
    // The head word and the second word.
    pub(crate) fn words(self) -> (u32, u32)
        requires { fits self ≡ true }
        ensures { result ≡ (head_word_of self, second_word_of self) }
    {
        let (first, second) = self.fields();
        let head = self.kind().word(first);
        (head, WordKind::Second.word(second))
    }
}

fn payload_of(word: u32) -> u32
    ensures { result ≡ payload_in word }
{
    word & FIELD_LIMIT
}

// The record that a head word and a second word stand for.
pub(crate) fn record_of(head: u32, second: u32) -> Record
    ensures { result ≡ record_in head second }
{
    let first = payload_of(head);
    let second = payload_of(second);
    match WordKind::of(head) {
        Some(WordKind::Fact) => Record::Fact(Fact { first, second }),
        Some(WordKind::Withdrawal) => Record::Withdrawal(Fact { first, second }),
        _ => Record::Question(Question { first, second }),
    }
}
