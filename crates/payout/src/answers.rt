// Carrying out a command, and the line that it is answered by.
use crate::commands::Command;
use crate::complaints::Complaint;
use prizes::NO_SELECTION;
use std::fmt;
use undoable::Undoable;

// The least number of prizes that sum to a payout.
#[derive(Clone, Copy, PartialEq, Eq, Debug)]
pub struct Answer {
    payout: u32,
    least: u32,
}

impl fmt::Display for Answer {
    fn fmt<W: fmt::Write>(&self, f: &mut fmt::Formatter<W>) -> fmt::Result {
        let payout = self.payout;
        match self.least {
            NO_SELECTION => write!(f, "{payout} none"),
            least => write!(f, "{payout} {least}"),
        }
    }
}

// Only a payout has an answer; a blank line asks for nothing.
pub fn perform<U: Undoable>(structure: &mut U, text: &str) -> Result<Option<Answer>, Complaint> {
    if text.trim().is_empty() {
        return Ok(None);
    }
    match text.parse()? {
        Command::Enable(fact) => structure.push(fact)?,
        Command::Undo => {
            structure.pop()?;
        }
        Command::Ask(question) => {
            let least = structure.ask(question)?;
            return Ok(Some(Answer {
                payout: question.first,
                least,
            }));
        }
    }
    Ok(None)
}
