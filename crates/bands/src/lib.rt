// Bands: which bands are equal, mirrored or both, by facts that can be taken back.
#![tactic(auto)]

mod band;
pub mod calls;
pub mod relations;
pub mod steps;
pub mod structure;
mod table;

pub use relations::{Depth, Relation};
pub use steps::BandStep;
pub use structure::Bands;
