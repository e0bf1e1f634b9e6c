// Marks: tokens for a height of a structure's stack to go back to.
ghost use Rattle.std.specs.Prelude.{◌≡◌, ◌-◌, length};
ghost use Rattle.undoable.specs.Calls.{cut_to};

use crate::interface::Undoable;

// It stands beside the structure and borrows nothing. It is not `Drop`, so the language itself asks that every mark is given
// back once, to `roll_back` or to `keep`.
pub struct Mark {
    height: usize,
}

impl Mark {
    // The height at which it was taken.
    pub fn height(&self) -> usize
        ensures { result ≡ self.now.height }
    {
        self.height
    }
}

// A mark at the present height.
pub fn take_mark<U: Undoable>(structure: &U) -> Mark
    ensures { result.height ≡ length (U.Undoable.stack structure.now) }
{
    Mark {
        height: structure.height(),
    }
}

// Pops until the height is at most the mark's, and says how many facts that took.
pub fn roll_back<U: Undoable>(structure: &mut U, mark: Mark) -> usize
    ensures result { result ≡ length (U.Undoable.stack structure.old) - mark.height }
    ensures stack { U.Undoable.stack structure.new ≡ cut_to mark.height (U.Undoable.stack structure.old) }
    ensures tally { U.Undoable.pushes structure.new ≡ U.Undoable.pushes structure.old }
    ensures kind { U.Undoable.kind structure.new ≡ U.Undoable.kind structure.old }
{
    let Mark { height } = mark;
    let above = structure.height().saturating_sub(height);
    for _ in 0..above {
        let _ = structure.pop();
    }
    above
}

// Gives a mark back and pops nothing.
pub fn keep(mark: Mark) {
    let Mark { height: _ } = mark;
}
