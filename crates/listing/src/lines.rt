// A line with two numbers, each behind a text. The tally of the answers is one, too, with an end of a line in its second text.
ghost use Rattle.std.specs.Prelude.{◌≡◌, ◌+◌, ◌≤◌, length};
ghost use Rattle.listing.specs.Answers.{answer_line, tally_lines, refused_text, written_at};

use crate::bytes::{digits, put_number, put_text};
use std::fmt;
use std::marker::Model;

#[derive(Drop)]
pub(crate) struct Line {
    before: &'static str,
    first: u64,
    between: &'static str,
    second: u64,
}

impl Model for Line {
    ghost use Rattle.std.specs.Prelude.{List, ℕ, ◌≤◌, length};
    ghost use Rattle.listing.specs.Answers.{two_numbers};

    ghost Value = { List ℕ };

    ghost view = { λ l. two_numbers l.before.now l.first l.between.now l.second };

    // So that the length of a line is a number of the machine.
    ghost invariant = { λ l. (length l.before.now ≤ 16) × (length l.between.now ≤ 16) };
}

impl Line {
    pub(crate) fn answer(question: usize, answer: u32) -> Line
        ensures { result ≡ answer_line question answer }
    {
        Line {
            before: "",
            first: question as u64,
            between: " ",
            second: u64::from(answer),
        }
    }

    // How many facts were added, and how many were alive at once.
    pub(crate) fn tally(additions: usize, deepest: usize) -> Line
        ensures { result ≡ tally_lines additions deepest }
    {
        Line {
            before: "additions ",
            first: additions as u64,
            between: "\ndeepest ",
            second: deepest as u64,
        }
    }

    pub(crate) fn refusal(number: u32, place: usize) -> Line
        ensures { result ≡ refused_text number place }
    {
        Line {
            before: "refused ",
            first: u64::from(number),
            between: " at ",
            second: place as u64,
        }
    }

    pub(crate) fn len(&self) -> usize
        ensures { result ≡ length self.now }
    {
        self.before.len() + digits(self.first) + self.between.len() + digits(self.second) + 1
    }

    // Writes the line into a table that has room for it, and returns the place behind it. Among its callers' code the two texts are
    // known, so that few bytes are not copied by a call.
    #[tactic(auto, using(crate::proofs::Writes::writing))]
    #[inline(always)]
    pub(crate) fn put(&self, out: &mut [u8], at: usize) -> usize
        requires { at + length self.now ≤ length out.old }
        ensures end { result ≡ at + length self.now }
        ensures table { out.new ≡ written_at at self.now out.old }
    {
        let at = put_text(out, at, self.before.as_bytes());
        let at = put_number(out, at, self.first);
        let at = put_text(out, at, self.between.as_bytes());
        let at = put_number(out, at, self.second);
        put_text(out, at, b"\n")
    }
}

impl fmt::Display for Line {
    ghost use Rattle.std.specs.Prelude.{Some};

    ghost output = { λ l. Some l };

    fn fmt<W: fmt::Write>(&self, f: &mut fmt::Formatter<W>) -> fmt::Result {
        writeln!(
            f,
            "{}{}{}{}",
            self.before, self.first, self.between, self.second
        )
    }
}
