// Loading: a whole book from a list of words, through the same code as single entries.
ghost use Rattle.std.specs.Prelude.{◌≡◌, ℕ, ◌+◌, List, ◌∷◌, IfOk, Ok, Err, MatchResult};
ghost use Rattle.book.specs.Loads.{loads, load_result, after_load, entry_at};
ghost use Rattle.book.specs.Pending.{Waits, ahead};
ghost use Rattle.book.specs.Rules.{after_entry, judge};
ghost use Rattle.book.specs.Theorems.{LoadsBack, LoadsOnlyBooks, LoadRefuses};
ghost use Rattle.book.specs.View.{records_of};

use crate::kinds::WordKind;
use crate::records::Record;
use crate::refusals::{EntryError, LoadError, WordError, WordFault};
use crate::state::Book;
use crate::words::record_of;

impl Book {
    // Replaces the whole book by the records of `words`. A refused load leaves the old book.
    pub fn load(&mut self, words: &[u32]) -> Result<(), LoadError>
        ensures result { result ≡ load_result (loads words.now) }
        ensures after { records_of self.new ≡ after_load (records_of self.old) (loads words.now) }
        ensures back { LoadsBack }
        ensures only { LoadsOnlyBooks }
        ensures refused { LoadRefuses }
    {
        let fresh = book_of(words)?;
        *self = fresh;
        Ok(())
    }

    // Takes word number `at`, where `head` is the head word that waits for its second word. Returns what waits then.
    fn take_word(
        &mut self,
        head: Option<u32>,
        word: u32,
        at: usize,
    ) -> Result<Option<u32>, LoadError>
        requires { Waits at head }
        ensures waits { IfOk result (λ next. Waits (at + 1) next) }
        ensures ahead { MatchResult result (λ next. (ws : List ℕ) → ahead at (records_of self.old) head (word ∷ ws) ≡ ahead (at + 1) (records_of self.new) next ws) (λ e. (ws : List ℕ) → ahead at (records_of self.old) head (word ∷ ws) ≡ Err e) }
    {
        match (head, WordKind::of(word)) {
            (None, Some(WordKind::Fact | WordKind::Withdrawal | WordKind::Question)) => {
                Ok(Some(word))
            }
            (Some(head), Some(WordKind::Second)) => {
                self.enter_at(record_of(head, word), at - 1)?;
                Ok(None)
            }
            _ => Err(LoadError::Words(WordError {
                fault: WordFault::WrongKind,
                place: at,
            })),
        }
    }

    // Enters a record whose head is word number `place` of a list.
    fn enter_at(&mut self, item: Record, place: usize) -> Result<(), EntryError>
        ensures result { result ≡ entry_at (judge (records_of self.old) item) place }
        ensures after { records_of self.new ≡ after_entry (records_of self.old) item }
    {
        self.enter(item)
            .map_err(|refusal| EntryError { refusal, place })
    }
}

// A new book with the records of `words`.
fn book_of(words: &[u32]) -> Result<Book, LoadError>
    ensures { MatchResult result (λ b. loads words.now ≡ Ok (records_of b)) (λ e. loads words.now ≡ Err e) }
{
    let mut fresh = Book::new();
    let mut head = None;
    for (at, word) in words.iter().enumerate() {
        head = fresh.take_word(head, *word, at)?;
    }
    if head.is_some() {
        return Err(LoadError::Words(WordError {
            fault: WordFault::HeadAtEnd,
            place: words.len(),
        }));
    }
    Ok(fresh)
}
