// A basis: masks with different highest bits, each in the slot of its highest bit. A slot that holds 0 is empty.
ghost use Rattle.std.specs.Prelude.{◌≡◌, ◌^◌, ◌<◌, [], ◌==◌, IfSome, slice_set};
ghost use Rattle.masks.specs.Reducing.{reduced, left_of, slot_for, added, cleared, basis_of, Shaped};

use crate::mask::Mask;

#[derive(Drop)]
pub(crate) struct Basis {
    slots: [u64; 58],
    ghost shaped: { Shaped slots },
}

impl Basis {
    pub(crate) fn new() -> Basis
        ensures { result.slots ≡ basis_of [] }
    {
        Basis { slots: [0; 58] }
    }

    // Whether a mask is the exclusive or of some of the basis.
    pub(crate) fn spans(&self, mask: Mask) -> bool
        ensures { result ≡ (reduced self.now.slots 58 mask.bits == 0) }
    {
        self.reduce(mask).is_none()
    }

    // Adds what is left of a mask, if anything is, and says in which slot.
    pub(crate) fn add(&mut self, mask: Mask) -> Option<usize>
        ensures slot { result ≡ slot_for self.old.slots mask.bits }
        ensures slots { self.new.slots ≡ added self.old.slots mask.bits }
    {
        let (slot, rest) = self.reduce(mask)?;
        self.slots[slot] = rest;
        Some(slot)
    }

    // Empties the slot that a push filled.
    pub(crate) fn clear(&mut self, slot: Option<usize>)
        requires { IfSome slot (λ k. k < 58) }
        ensures { self.new.slots ≡ cleared self.old.slots slot }
    {
        if let Some(at) = slot {
            self.slots[at] = 0;
        }
    }

    // What is left of a mask, with the slot of its highest bit, or None if nothing is: while that slot is full, the exclusive or
    // with what is there. Each turn leaves a lower highest bit, so there are at most 58.
    fn reduce(&self, mask: Mask) -> Option<(usize, u64)>
        ensures left { result ≡ left_of self.now.slots mask.bits }
        ensures within { IfSome result (λ p. p.0 < 58) }
        ensures fits { IfSome result (λ p. Shaped (slice_set self.now.slots p.0 p.1)) }
    {
        let mut rest = mask.bits;
        while let Some(bit) = rest.checked_ilog2() {
            let slot = bit as usize;
            match self.slots[slot] {
                0 => return Some((slot, rest)),
                entry => rest ^= entry,
            }
        }
        None
    }
}
