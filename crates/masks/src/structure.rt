// The structure and what is true of it.
ghost use Rattle.std.specs.Prelude.{◌≡◌, true};
ghost use Rattle.undoable.specs.Stacks.{held, room};
ghost use Rattle.masks.specs.Reducing.{basis_of, small};
ghost use Rattle.masks.specs.Saved.{masks_of, steps_of};

use crate::basis::Basis;
use crate::lines::MaskStep;
use undoable::History;

// The basis is the one that the masks on the stack make, and each of them stands there with the slot that it filled.
#[derive(Drop)]
pub struct Masks<'a> {
    pub(crate) history: History<'a, MaskStep>,
    pub(crate) basis: Basis,
    ghost limited: { history.limit ≡ room history.stack },
    ghost masks: { small (masks_of (held history.stack)) ≡ true },
    ghost steps: { held history.stack ≡ steps_of (masks_of (held history.stack)) },
    ghost made: { basis.slots ≡ basis_of (masks_of (held history.stack)) },
}
