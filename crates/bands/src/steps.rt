// What the table is made of, and what a push saves of it.
ghost use Rattle.std.specs.Prelude.{◌≡◌, ◌+◌, ◌<◌};
ghost use Rattle.bands.specs.Rows.{fact_of, closed_row, low_row, high_row};

use undoable::Fact;

// A band's row: its parent, or None at the root of a group, and the parity of the way there. At a root, how many bands the
// group has, and whether it has an odd closed walk; below the root both stay as they were when the link was made.
#[derive(Clone, Copy, PartialEq, Eq, Debug)]
pub struct Row {
    pub parent: Option<u16>,
    pub turned: bool,
    pub size: u16,
    pub odd: bool,
}

// Where a climb from a band ends, the parity of the way there, and how many links it has.
#[derive(Clone, Copy)]
pub(crate) struct Place {
    pub(crate) root: u16,
    pub(crate) odd: bool,
    pub(crate) links: u32,
}

// A band step: the fact, the root that it puts below another, that other root, the parity between the two, and both rows as
// they were before. Where the fact joins nothing, both roots are the one of its group.
#[derive(Clone, Copy, PartialEq, Eq, Debug)]
pub struct BandStep {
    pub first: u32,
    pub second: u32,
    pub low: u16,
    pub high: u16,
    pub turned: bool,
    pub below: Row,
    pub above: Row,
}

impl Row {
    // A band that is alone.
    pub const ALONE: Row = Row {
        parent: None,
        turned: false,
        size: 1,
        odd: false,
    };
}

impl BandStep {
    // What stands in memory that is lent and not yet used.
    pub const BLANK: BandStep = BandStep {
        first: 0,
        second: 0,
        low: 0,
        high: 0,
        turned: false,
        below: Row::ALONE,
        above: Row::ALONE,
    };

    // The row of the one root, whose group the fact closes a walk in.
    pub(crate) fn closed(self) -> Row
        ensures { result ≡ closed_row self }
    {
        Row {
            odd: self.above.odd | self.turned,
            ..self.above
        }
    }

    // The row of the root that goes below.
    pub(crate) fn linked(self) -> Row
        ensures { result ≡ low_row self }
    {
        Row {
            parent: Some(self.high),
            turned: self.turned,
            ..self.below
        }
    }

    // The row of the root that stays.
    pub(crate) fn grown(self) -> Row
        requires { self.above.size + self.below.size < 65536 }
        ensures { result ≡ high_row self }
    {
        Row {
            size: self.above.size + self.below.size,
            odd: self.above.odd | self.below.odd,
            ..self.above
        }
    }
}

// The fact that was pushed.
impl From<BandStep> for Fact {
    ghost from_gives = { λ s f. f ≡ fact_of s };

    fn from(step: BandStep) -> Fact {
        Fact {
            first: step.first,
            second: step.second,
        }
    }
}
