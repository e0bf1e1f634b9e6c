// The listing of a book: a line for each fact, from which question to which it is alive, and four lines of counts.
ghost use Rattle.std.specs.Prelude.{◌≡◌, IfOk, Some, string_bytes};
ghost use Rattle.book.specs.View.{records_of};
ghost use Rattle.listing.specs.Lines.{line_of_span, text_of_counts, listing_of_spans, refused_line};

use crate::lines::Line;
use book::summaries::Summary;
use book::{Book, LoadError};
use std::alloc::{AllocError, Global};
use std::fmt;
use undoable::Fact;

// The whole listing of a book's spans. It and the text of a line are compiled apart, since the matching that is inlined here is
// slower in one function with the load or with the formatting.
#[tactic(auto, using(crate::proofs::Spanning::spanning))]
#[inline(never)]
pub fn span_listing(heap: Global, book: &Book) -> Result<String, AllocError>
    ensures { IfOk result (λ t. string_bytes t ≡ listing_of_spans (records_of book.now)) }
{
    let mut text = String::new(heap);
    for (number, item) in book.records().enumerate() {
        if let Some(fact) = item.fact()
            && let Some(alive) = book.span(number)
        {
            let line = SpanLine {
                number,
                fact,
                alive,
            };
            write!(text, "{line}")?;
        }
    }
    let counts = Counts(book.summary());
    write!(text, "{counts}")?;
    Ok(text)
}

// The line for a book that is not loaded.
pub fn refusal_line(heap: Global, error: &LoadError) -> Result<String, AllocError>
    ensures { IfOk result (λ t. string_bytes t ≡ refused_line error.now) }
{
    Line::refusal(error.number(), error.place()).to_string(heap)
}

// The line of a fact: the number of its record, its fields and its span.
#[derive(Clone, Copy)]
struct SpanLine {
    number: usize,
    fact: Fact,
    alive: (usize, usize),
}

impl fmt::Display for SpanLine {
    ghost output = { λ l. Some (line_of_span l.number l.fact l.alive) };

    #[inline(never)]
    fn fmt<W: fmt::Write>(&self, f: &mut fmt::Formatter<W>) -> fmt::Result {
        let SpanLine {
            number,
            fact: Fact { first, second },
            alive: (start, end),
        } = *self;
        writeln!(
            f,
            "record {number} fact {first} {second} span {start} {end}"
        )
    }
}

#[derive(Clone, Copy)]
struct Counts(Summary);

impl fmt::Display for Counts {
    ghost output = { λ c. Some (text_of_counts c.0.facts c.0.withdrawals c.0.questions c.0.deepest) };

    fn fmt<W: fmt::Write>(&self, f: &mut fmt::Formatter<W>) -> fmt::Result {
        let Summary {
            facts,
            withdrawals,
            questions,
            deepest,
        } = self.0;
        writeln!(
            f,
            "facts {facts}\nwithdrawals {withdrawals}\nquestions {questions}\ndeepest {deepest}"
        )
    }
}
