// A prize line, as the structure saves it.
ghost use Rattle.std.specs.Prelude.{◌≡◌};
ghost use Rattle.prizes.specs.Saved.{prize_of, fact_of};

use undoable::Fact;

// The greatest amount, the greatest number of copies and the greatest payout.
pub(crate) const MOST: u32 = 1000;

// Each of `copies` prizes pays `amount`.
#[derive(Clone, Copy, PartialEq, Eq, Debug, Default)]
pub struct Prize {
    pub amount: u32,
    pub copies: u32,
}

impl From<Fact> for Prize {
    ghost from_gives = { λ fact prize. prize ≡ prize_of fact };

    fn from(fact: Fact) -> Prize {
        Prize {
            amount: fact.first,
            copies: fact.second,
        }
    }
}

impl From<Prize> for Fact {
    ghost from_gives = { λ prize fact. fact ≡ fact_of prize };

    fn from(prize: Prize) -> Fact {
        Fact {
            first: prize.amount,
            second: prize.copies,
        }
    }
}
