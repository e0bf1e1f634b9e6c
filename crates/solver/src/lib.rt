// Solving a book over a tree of its questions.
#![tactic(auto)]

mod asking;
mod chain;
mod chains;
mod fitting;
mod placing;
mod refusals;
// `solve` is not called from outside yet: a list of calls has to have it, and the main theorem to speak of it, at the same time.
mod solving;
mod span;
mod spanning;
mod subtree;
mod tables;
pub mod tree;
mod walking;

pub use tree::piece_count;
