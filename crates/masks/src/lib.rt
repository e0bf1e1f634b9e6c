// Masks: which masks are the exclusive or of some of the entries.
#![tactic(auto)]

mod basis;
pub mod calls;
pub mod lines;
mod mask;
pub mod structure;

pub use lines::MaskStep;
pub use structure::Masks;
