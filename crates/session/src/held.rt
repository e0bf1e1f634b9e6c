// The marks of a session that are not given back, each at its number.
ghost use Rattle.std.specs.Prelude.{◌≡◌, ◌+◌, ◌-◌, ◌<◌, ◌≤◌, [], ◌∷◌, ◌++◌, length, map, IfOk};
ghost use Rattle.session.specs.Model.{height_of, given_back};
ghost use Rattle.session.specs.Held.{height_in};

use std::alloc::{AllocError, Global};
use std::marker::Model;
use undoable::{Mark, Undoable, keep, take_mark};

// `held` has a place for each mark taken, and a mark's number is its place: `None` where it is given back, so that no number is
// used twice. `heights` is reserved for the end, when the marks that are left go, so that this cannot fail for want of memory.
pub(crate) struct Marks {
    held: Vec<Option<Mark>>,
    heights: Vec<usize>,
}

impl Model for Marks {
    ghost use Rattle.session.specs.Held.{Notes};

    ghost Value = { Notes };

    ghost use Rattle.session.specs.Held.{notes_of, HeightsReserved};

    ghost view = { notes_of };

    ghost invariant = { HeightsReserved };
}

#[tactic(auto, using(crate::proofs::Noting::noting))]
impl Marks {
    // No mark is taken yet; there is room for so many.
    pub(crate) fn with_capacity(heap: Global, room: usize) -> Result<Marks, AllocError>
        ensures { IfOk result (λ marks. marks ≡ record { taken = 0; noted = []; room = room }) }
    {
        let heights = Vec::with_capacity(heap, room)?;
        let held = Vec::with_capacity(heap, room)?;
        Ok(Marks { held, heights })
    }

    // Takes a mark and returns its number.
    pub(crate) fn take<U: Undoable>(&mut self, structure: &U) -> usize
        requires { 0 < self.old.room }
        ensures number { result ≡ self.old.taken }
        ensures after { self.new ≡ record { taken = self.old.taken + 1; noted = self.old.noted ++ record { number = self.old.taken; height = length (U.Undoable.stack structure.now) } ∷ []; room = self.old.room - 1 } }
    {
        let number = self.held.len();
        self.held.push_reserved(Some(take_mark(structure)));
        number
    }

    // Gives a mark back, if it is held.
    pub(crate) fn give_back(&mut self, number: usize) -> Option<Mark>
        ensures found { height_in result ≡ height_of number self.old.noted }
        ensures after { self.new ≡ record self.old { noted = given_back number self.old.noted } }
    {
        self.held.get_mut(number)?.take()
    }

    // The heights of the marks that are left. A mark is not `Drop`, so each is given back, in the way that changes nothing.
    pub(crate) fn into_heights(self) -> Vec<usize>
        ensures { result.items ≡ map (λ m. m.height) self.noted }
    {
        let Marks { held, mut heights } = self;
        let mut held = held.into_iter();
        while let Some(entry) = held.next() {
            if let Some(mark) = entry {
                heights.push_reserved(mark.height());
                keep(mark);
            }
        }
        held.destroy_empty();
        heights
    }
}
