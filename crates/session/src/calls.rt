// What can be asked of a book and a structure, and what comes of it.
use book::{LoadError, Refusal};
use undoable::{AskRefusal, Fact, PopRefusal, PushRefusal, Question};

// A load brings its own words. A roll back and a keep name a mark by its number among the marks taken in the list.
#[derive(PartialEq, Eq, Debug, Drop)]
pub enum Call {
    Fact(Fact),
    Withdrawal(Fact),
    Question(Question),
    Load(Vec<u32>),
    Push(Fact),
    Pop,
    Ask(Question),
    Mark,
    RollBack(usize),
    Keep(usize),
}

// `Marked` has the mark's number, `RolledBack` how many facts were popped. `NoSuchMark`: the named mark was never taken in the
// list, or is given back already; the call changes nothing.
#[derive(Clone, Copy, PartialEq, Eq, Debug)]
pub enum Outcome {
    Entered(Result<(), Refusal>),
    Loaded(Result<(), LoadError>),
    Pushed(Result<(), PushRefusal>),
    Popped(Result<Fact, PopRefusal>),
    Answered(Result<u32, AskRefusal>),
    Marked(usize),
    RolledBack(usize),
    Kept,
    NoSuchMark,
}

// What came of a list of calls: the outcomes in order, and the heights of the marks that were not given back, in the order
// in which they were taken.
#[derive(PartialEq, Eq, Debug, Drop)]
pub struct Log {
    pub outcomes: Vec<Outcome>,
    pub marks: Vec<usize>,
}
