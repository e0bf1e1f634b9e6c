// A band, by its number.
ghost use Rattle.std.specs.Prelude.{◌≡◌, ◌<◌, IfSome, is_some, nat_lt};

pub(crate) const BANDS: u32 = 1024;

#[derive(Clone, Copy)]
pub(crate) struct Band {
    pub(crate) index: u16,
    ghost within: { index < 1024 },
}

impl Band {
    // The band with a number, or None if there is none.
    pub(crate) fn new(number: u32) -> Option<Band>
        ensures within { is_some result ≡ nat_lt number 1024 }
        ensures index { IfSome result (λ b. b.index ≡ number) }
    {
        if number < BANDS {
            let index = number as u16;
            Some(Band { index })
        } else {
            None
        }
    }
}
