// Spans of questions, and the ways in which a node of the tree can lie to one.

// The questions from `start` on and before `end`.
#[derive(Clone, Copy, PartialEq, Eq, Debug)]
pub(crate) struct Span {
    pub(crate) start: usize,
    pub(crate) end: usize,
}

// A span as the table of spans has it.
impl From<[u32; 2]> for Span {
    ghost use Rattle.std.specs.Prelude.{◌≡◌, slice_index};

    ghost from_gives = { λ x y. y ≡ record { start = slice_index x 0; end = slice_index x 1 } };

    fn from([start, end]: [u32; 2]) -> Span {
        Span {
            start: start as usize,
            end: end as usize,
        }
    }
}

// A node has no question of the span, has only questions of it, or has others too.
#[derive(Clone, Copy, PartialEq, Eq, Debug)]
pub(crate) enum Overlap {
    Apart,
    Inside,
    Across,
}
