// Why a command is not carried out.
use crate::LINES;
use std::num::ParseIntError;
use thiserror::Error;
use undoable::{AskRefusal, PopRefusal, PushRefusal};

#[derive(Clone, Copy, PartialEq, Eq, Debug, Error)]
pub enum Complaint {
    #[error("neither `amount copies` nor `payout` nor `undo`")]
    Unreadable,
    #[error("amount and copies are from 1 to 1000")]
    NoPrizeLine,
    #[error("no more than {most} prize lines", most = LINES)]
    TooManyLines,
    #[error("no prize line to take back")]
    NothingToUndo,
    #[error("a payout is from 0 to 1000")]
    NoPayout,
}

impl From<ParseIntError> for Complaint {
    fn from(_error: ParseIntError) -> Complaint {
        Complaint::Unreadable
    }
}

impl From<PushRefusal> for Complaint {
    fn from(refusal: PushRefusal) -> Complaint {
        match refusal {
            PushRefusal::NotAdmitted => Complaint::NoPrizeLine,
            PushRefusal::Full => Complaint::TooManyLines,
        }
    }
}

impl From<PopRefusal> for Complaint {
    fn from(_refusal: PopRefusal) -> Complaint {
        Complaint::NothingToUndo
    }
}

impl From<AskRefusal> for Complaint {
    fn from(_refusal: AskRefusal) -> Complaint {
        Complaint::NoPayout
    }
}
