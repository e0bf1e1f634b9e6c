// The listing of the answers to a book's questions, and the line of a refusal, written into a table of bytes that is lent.
ghost use Rattle.std.specs.Prelude.{◌≡◌, ◌≤◌, ◌++◌, length, nat_le};
ghost use Rattle.listing.specs.Answers.{lines_from, answer_lines, refused_text, room_left, written_at, written_result, written_table};

use crate::lines::Line;

// Why a text is not written: the table has fewer bytes than the text.
#[derive(Clone, Copy, PartialEq, Eq, Debug)]
pub enum ListingRefusal {
    TooShort = 16,
}

// A line for each answer, in the order of the questions, then the number of additions and the greatest number of facts alive
// at one question. Returns the length of the text; a table that is too short stays as it is.
#[tactic(auto, using(crate::proofs::Writes::writing))]
pub fn answer_listing(
    answers: &[u32],
    additions: usize,
    deepest: usize,
    out: &mut [u8],
) -> Result<usize, ListingRefusal>
    ensures result { result ≡ written_result (answer_lines answers.now additions deepest) out.old }
    ensures table { out.new ≡ written_table (answer_lines answers.now additions deepest) out.old }
{
    let tally = Line::tally(additions, deepest);
    if !listing_fits(answers, &tally, out.len()) {
        return Err(ListingRefusal::TooShort);
    }
    let at = put_answers(out, answers);
    Ok(tally.put(out, at))
}

// The line for a book that is refused: the number of the refusal and the place that it names.
#[tactic(auto, using(crate::proofs::Writes::writing))]
pub fn refusal_listing(number: u32, place: usize, out: &mut [u8]) -> Result<usize, ListingRefusal>
    ensures result { result ≡ written_result (refused_text number place) out.old }
    ensures table { out.new ≡ written_table (refused_text number place) out.old }
{
    let line = Line::refusal(number, place);
    if out.len() < line.len() {
        return Err(ListingRefusal::TooShort);
    }
    Ok(line.put(out, 0))
}

// Whether the whole listing has room. The bytes are counted down from the room, since their sum could pass 64 bits.
fn listing_fits(answers: &[u32], tally: &Line, room: usize) -> bool
    ensures { result ≡ nat_le (length (lines_from 0 answers.now ++ tally.now)) room }
{
    room_after(answers, room).is_some_and(|left| tally.len() <= left)
}

// What the lines of the answers leave of the room.
#[tactic(auto, using(crate::proofs::Ahead::ahead))]
fn room_after(answers: &[u32], room: usize) -> Option<usize>
    ensures { result ≡ room_left (lines_from 0 answers.now) room }
{
    let mut left = room;
    for (question, answer) in answers.iter().enumerate() {
        left = left.checked_sub(Line::answer(question, *answer).len())?;
    }
    Some(left)
}

// Writes the lines of the answers from the start of the table, and returns the place behind them.
#[tactic(auto, using(crate::proofs::Writes::writing, crate::proofs::Ahead::ahead))]
fn put_answers(out: &mut [u8], answers: &[u32]) -> usize
    requires { length (lines_from 0 answers.now) ≤ length out.old }
    ensures end { result ≡ length (lines_from 0 answers.now) }
    ensures table { out.new ≡ written_at 0 (lines_from 0 answers.now) out.old }
{
    let mut at = 0;
    for (question, answer) in answers.iter().enumerate() {
        at = Line::answer(question, *answer).put(out, at);
    }
    at
}
