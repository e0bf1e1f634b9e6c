// Why a structure refuses a call. The number of each case is the one that programs print.

#[derive(Clone, Copy, PartialEq, Eq, Debug)]
pub enum PushRefusal {
    NotAdmitted = 7,
    Full = 8,
}

#[derive(Clone, Copy, PartialEq, Eq, Debug)]
pub enum PopRefusal {
    Empty = 9,
}

#[derive(Clone, Copy, PartialEq, Eq, Debug)]
pub enum AskRefusal {
    NotAdmitted = 10,
}
