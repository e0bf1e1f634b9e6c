// Prizes: which payouts the enabled prize lines can make, and with how few prizes.
#![tactic(auto)]

pub mod calls;
pub mod lines;
mod rows;
pub mod structure;

pub use lines::Prize;
pub use rows::{NO_SELECTION, ROW_ENTRIES};
pub use structure::Prizes;
