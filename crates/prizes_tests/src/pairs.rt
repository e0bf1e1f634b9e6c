// The facts and questions of the tests, written out, so that the tests don't rest on the conversions of prize lines.
use undoable::{Fact, Question};

pub(crate) fn line(amount: u32, copies: u32) -> Fact {
    Fact {
        first: amount,
        second: copies,
    }
}

pub(crate) fn payout(v: u32) -> Question {
    Question {
        first: v,
        second: 0,
    }
}
