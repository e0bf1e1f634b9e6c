// A mask and its two fields: the mask is first × 2^29 + second, each field below 2^29.
ghost use Rattle.std.specs.Prelude.{◌≡◌, ◌+◌, ◌*◌, ◌^◌, ◌<◌, ◌&&◌, IfSome, is_some, nat_lt};
ghost use Rattle.masks.specs.Saved.{fact_of};

use undoable::Fact;

// 2^29, which no field reaches.
const FIELD: u32 = 536_870_912;

#[derive(Clone, Copy)]
pub(crate) struct Mask {
    pub(crate) bits: u64,
    ghost low: { bits < 2 ^ 58 },
}

impl Mask {
    // The mask with these fields, or None if one of them is out of range.
    pub(crate) fn new(first: u32, second: u32) -> Option<Mask>
        ensures in_range { is_some result ≡ (nat_lt first (2 ^ 29) && nat_lt second (2 ^ 29)) }
        ensures bits { IfSome result (λ m. m.bits ≡ first * 2 ^ 29 + second) }
    {
        if first < FIELD && second < FIELD {
            let bits = u64::from(first) * u64::from(FIELD) + u64::from(second);
            Some(Mask { bits })
        } else {
            None
        }
    }
}

// The two fields of a mask.
impl From<Mask> for Fact {
    ghost from_gives = { λ m f. f ≡ fact_of m.bits };

    fn from(mask: Mask) -> Fact {
        Fact {
            first: (mask.bits / u64::from(FIELD)) as u32,
            second: (mask.bits % u64::from(FIELD)) as u32,
        }
    }
}
