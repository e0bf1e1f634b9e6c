// What a structure can say of bands.
ghost use Rattle.std.specs.Prelude.{◌≡◌};
ghost use Rattle.bands.specs.Rule.{number};

// How two bands are related, with the numbers that answers have.
#[derive(Clone, Copy, PartialEq, Eq, Debug)]
pub enum Relation {
    Apart = 0,
    Equal = 1,
    Mirrored = 2,
    Both = 3,
}

impl Relation {
    // The number that programs print.
    pub fn number(self) -> u32
        ensures { result ≡ number self }
    {
        self as u32
    }
}

// How many links a band is below the root of its group, and how many bands the group has.
#[derive(Clone, Copy, PartialEq, Eq, Debug)]
pub struct Depth {
    pub links: u32,
    pub bands: u32,
}
