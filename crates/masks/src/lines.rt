// A push, as the structure saves it.

// The mask that was pushed, and the slot of the basis that it filled, if any.
#[derive(Clone, Copy, PartialEq, Eq, Debug, Default)]
pub struct MaskStep {
    pub mask: u64,
    pub slot: Option<usize>,
}
