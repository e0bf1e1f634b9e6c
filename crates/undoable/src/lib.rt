// Structures that can be told facts and can forget the newest ones again: what they owe, and what they share.
#![tactic(auto)]

pub mod facts;
pub mod history;
pub mod interface;
pub mod marks;
pub mod refusals;
pub mod rollback;
pub mod trial;

pub use facts::{Fact, Question};
pub use history::History;
pub use interface::Undoable;
pub use marks::{Mark, keep, roll_back, take_mark};
pub use refusals::{AskRefusal, PopRefusal, PushRefusal};
pub use rollback::Stack;
pub use trial::ask_with;
