// What the program `bookspans` answers to its input.
ghost use Rattle.std.specs.Prelude.{◌≡◌, take, IfOk, string_bytes};
ghost use Rattle.book.specs.Bytes.{words_in};
ghost use Rattle.book.specs.Loads.{loads};
ghost use Rattle.listing.specs.Lines.{refusal_in, report_of};

use crate::spans::{refusal_line, span_listing};
use book::input::words_of;
use book::{Book, LoadError};
use prizes::Prizes;
use session::{Call, Outcome, run};
use std::alloc::{AllocError, Global};

// The listing of the book that the first 8,194 words of the bytes load to, or the line of the refusal.
pub fn book_report(heap: Global, bytes: &[u8]) -> Result<String, AllocError>
    ensures { IfOk result (λ t. string_bytes t ≡ report_of (loads (take 8194 (words_in bytes.now)))) }
{
    let words = words_of(heap, bytes)?;
    report(heap, words)
}

#[tactic(auto, using(crate::proofs::Loadings::refusal_told, crate::proofs::Loadings::listing_told))]
fn report(heap: Global, words: Vec<u32>) -> Result<String, AllocError>
    ensures { IfOk result (λ t. string_bytes t ≡ report_of (loads words.items)) }
{
    let mut book = Book::new();
    // A load does not touch the structure, so one without room serves.
    let mut structure = Prizes::new(&mut [], &mut []);
    let calls = vec![in heap; Call::Load(words)]?;
    let log = run(heap, &mut structure, &mut book, calls)?;
    match refusal_in(&log.outcomes) {
        Some(error) => refusal_line(heap, &error),
        None => span_listing(heap, &book),
    }
}

// The refusal of a load, if a load was the one call.
fn refusal_in(outcomes: &[Outcome]) -> Option<LoadError>
    ensures { result ≡ refusal_in outcomes.now }
{
    match outcomes {
        [Outcome::Loaded(Err(error))] => Some(*error),
        _ => None,
    }
}
