// Rows of answers: the present one, and those saved in memory that is lent.
ghost use Rattle.std.specs.Prelude.{◌≡◌, ◌/◌, ◌<◌, [], length, slice_index, slice_index_or, slice_set};
ghost use Rattle.prizes.specs.Rule.{with_most};
ghost use Rattle.prizes.specs.Saved.{row_of, row_with};

use crate::lines::{MOST, Prize};
use std::array;

// The answer where no selection sums to the payout.
pub const NO_SELECTION: u32 = MOST + 1;

// How many entries of memory a saved row takes: it has an answer for each payout.
pub const ROW_ENTRIES: usize = MOST as usize + 1;

type Row = [u16; ROW_ENTRIES];

#[derive(Drop)]
pub(crate) struct Rows<'b> {
    pub(crate) saved: &'b mut [Row],
    pub(crate) row: Row,
}

impl<'b> Rows<'b> {
    // The answers without prizes; nothing is saved yet.
    pub(crate) fn new(saved: &'b mut [u16]) -> Rows<'b>
        ensures row { result.row ≡ row_of [] }
        ensures saved { length result.saved.now ≡ length saved.old / 1001 }
    {
        let (saved, _) = saved.as_chunks_mut();
        let mut row = [NO_SELECTION as u16; ROW_ENTRIES];
        row[0] = 0;
        Rows { saved, row }
    }

    // Saves the present row as row number `at`, and works out the row with one prize line more.
    pub(crate) fn add(&mut self, at: usize, prize: Prize)
        requires { at < length self.old.saved.now }
        ensures row { self.new.row ≡ row_with prize self.old.row }
        ensures saved { self.new.saved.now ≡ slice_set self.old.saved.now at self.old.row }
        ensures lent { self.new.saved.ghost_name ≡ self.old.saved.ghost_name }
    {
        let row = row_with_line(&self.row, prize);
        self.saved[at] = self.row;
        self.row = row;
    }

    // Brings row number `at` back.
    pub(crate) fn restore(&mut self, at: usize)
        requires { at < length self.old.saved.now }
        ensures row { self.new.row ≡ slice_index_or self.old.saved.now at [] }
        ensures saved { self.new.saved.now ≡ self.old.saved.now }
        ensures lent { self.new.saved.ghost_name ≡ self.old.saved.ghost_name }
    {
        self.row = self.saved[at];
    }

    // The answer for a payout.
    pub(crate) fn answer(&self, payout: u32) -> u32
        requires { payout < 1001 }
        ensures { result ≡ slice_index self.now.row payout }
    {
        u32::from(self.row[payout as usize])
    }

    // How many rows can be saved.
    pub(crate) fn room(&self) -> usize
        ensures { result ≡ length self.now.saved.now }
    {
        self.saved.len()
    }
}

// The row with one prize line more than `base` has. It stays a function of its own when it is compiled, since the loop over the
// copies came out slower among its callers' code.
#[inline(never)]
fn row_with_line(base: &Row, prize: Prize) -> Row
    ensures { result ≡ row_with prize base.now }
{
    array::from_fn(|payout| least(base, prize, payout))
}

// The least number of prizes for a payout, where `base` has the answers without this prize line.
fn least(base: &Row, prize: Prize, payout: usize) -> u16
    requires { payout < 1001 }
    ensures { result ≡ with_most prize.amount (λ w. slice_index base.now w) payout prize.copies }
{
    let amount = prize.amount as usize;
    let mut best = NO_SELECTION as usize;
    for k in 0..=prize.copies as usize {
        let used = k * amount;
        if used > payout {
            break;
        }
        best = best.min(k + usize::from(base[payout - used]));
    }
    best as u16
}
