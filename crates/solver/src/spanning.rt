// The spans of a book's facts, written into a table, and how many pieces they have together.
ghost use Rattle.std.specs.Prelude.{◌≡◌, ℕ, ◌^◌, ◌≤◌, length};
ghost use Rattle.book.specs.Records.{fact_count};
ghost use Rattle.book.specs.View.{records_of};
ghost use Rattle.solver.specs.Laid.{Tabled, spanned};
ghost use Rattle.solver.specs.Solving.{piece_total};

use crate::tree::piece_count;
use book::Book;

// Writes the span of each fact, and returns how many pieces there are in all.
pub(crate) fn write_spans(book: &Book, spans: &mut [[u32; 2]]) -> usize
    requires { fact_count (records_of book.now) ≤ length spans.old }
    ensures total { result ≡ piece_total (records_of book.now) }
    ensures few { result ≤ 2 ^ 24 }
    ensures tabled { Tabled spans.new (spanned (records_of book.now)) }
{
    let questions = book.question_count();
    let facts = book
        .records()
        .enumerate()
        .filter_map(|(number, _)| book.span(number));
    let mut total = 0;
    for (fact, (start, end)) in facts.enumerate() {
        spans[fact] = [start as u32, end as u32];
        total += piece_count(questions, start, end);
    }
    total
}
