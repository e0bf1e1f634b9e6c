// What a line of the input asks for: `amount copies` to enable a prize line, `undo` to take the newest one back, or `payout`, one
// number, for the least number of prizes that sum to it.
use crate::complaints::Complaint;
use std::str::FromStr;
use undoable::{Fact, Question};

#[derive(Clone, Copy, PartialEq, Eq, Debug)]
pub enum Command {
    Enable(Fact),
    Undo,
    Ask(Question),
}

impl FromStr for Command {
    type Err = Complaint;

    fn from_str(text: &str) -> Result<Command, Complaint> {
        let mut words = text.split_whitespace();
        match (words.next(), words.next(), words.next()) {
            (Some("undo"), None, None) => Ok(Command::Undo),
            (Some(payout), None, None) => Ok(Command::Ask(Question {
                first: payout.parse()?,
                second: 0,
            })),
            (Some(amount), Some(copies), None) => Ok(Command::Enable(Fact {
                first: amount.parse()?,
                second: copies.parse()?,
            })),
            _ => Err(Complaint::Unreadable),
        }
    }
}
