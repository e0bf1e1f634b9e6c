// Lists of calls on one book and one structure, performed one by one: the place where the library's promises meet.
#![tactic(auto)]

pub mod calls;
mod held;
mod performing;
pub mod running;

pub use calls::{Call, Log, Outcome};
pub use running::run;
