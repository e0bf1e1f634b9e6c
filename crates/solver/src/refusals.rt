// What comes of solving a book, and why it is refused. The number of each case is the one that programs print.
ghost use Rattle.std.specs.Prelude.{◌≡◌};
ghost use Rattle.solver.specs.Solving.{refusal_number};

// Why a book is not solved.
#[derive(Clone, Copy, PartialEq, Eq, Debug)]
pub enum SolveRefusal {
    AnswersShort = 11,
    NotAdmitted = 12,
    TableShort = 13,
    TooHigh = 14,
}

// The place is the record that is not admitted, the work table that is too short (spans 0, nodes 1, pieces 2), or the question
// at which there are too many facts; 0 if the answers table is too short.
#[derive(Clone, Copy, PartialEq, Eq, Debug)]
pub struct SolveError {
    pub refusal: SolveRefusal,
    pub place: usize,
}

// A book that was solved. `additions` is the number of pieces of all its spans, each of which was pushed once; `deepest` the
// greatest number of facts alive at one question, 0 without questions.
#[derive(Clone, Copy, PartialEq, Eq, Debug)]
pub struct Solved {
    pub questions: usize,
    pub additions: usize,
    pub deepest: usize,
}

impl SolveRefusal {
    // The error of a refusal at a place.
    pub(crate) fn at(self, place: usize) -> SolveError
        ensures { result ≡ record { refusal = self; place = place } }
    {
        SolveError {
            refusal: self,
            place,
        }
    }
}

impl SolveError {
    // The refusal's number.
    pub fn number(&self) -> u32
        ensures { result ≡ refusal_number self.now.refusal }
    {
        self.refusal as u32
    }
}
