// The questions of a book by their record numbers.
ghost use Rattle.std.specs.Prelude.{◌≡◌, ℕ, ◌<◌, ◌≤◌, length, slice_index};
ghost use Rattle.book.specs.Records.{question_count};
ghost use Rattle.book.specs.Spans.{before};
ghost use Rattle.book.specs.View.{records_of};

use book::Book;

// Writes the record number of each question into its entry.
pub(crate) fn number_questions(book: &Book, answers: &mut [u32])
    requires { question_count (records_of book.now) ≤ length answers.old }
    ensures numbers { (q : ℕ) → q < question_count (records_of book.now) → slice_index answers.new q ≡ length (before q (records_of book.now)) }
    ensures others { (q : ℕ) → question_count (records_of book.now) ≤ q → slice_index answers.new q ≡ slice_index answers.old q }
{
    let asked = book
        .records()
        .enumerate()
        .filter(|(_, item)| item.question().is_some());
    for (question, (number, _)) in asked.enumerate() {
        answers[question] = number as u32;
    }
}
