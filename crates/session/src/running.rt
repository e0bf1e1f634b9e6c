// Performing a list of calls.
ghost use Rattle.std.specs.Prelude.{◌≡◌, MatchResult};
ghost use Rattle.book.specs.View.{records_of};
ghost use Rattle.session.specs.Theorems.{Plays, RollBackRestores};

use crate::calls::{Call, Log};
use crate::held::Marks;
use crate::performing::Session;
use book::Book;
use std::alloc::{AllocError, Global};
use undoable::Undoable;

// Performs the calls in order on one book and one structure. The memory for the outcomes and the marks is reserved first: if it
// is wanting, no call is made.
#[tactic(auto, using(crate::proofs::Undoing::roll_back_restores))]
pub fn run<U: Undoable>(
    heap: Global,
    structure: &mut U,
    book: &mut Book,
    calls: Vec<Call>,
) -> Result<Log, AllocError>
    ensures plays { MatchResult result (λ log. Plays (U.Undoable.kind structure.old) (records_of book.old) (U.Undoable.stack structure.old) (U.Undoable.pushes structure.old) calls.items log.outcomes.items log.marks.items (records_of book.new) (U.Undoable.stack structure.new) (U.Undoable.pushes structure.new)) (λ _. (records_of book.new ≡ records_of book.old) × (U.Undoable.stack structure.new ≡ U.Undoable.stack structure.old) × (U.Undoable.pushes structure.new ≡ U.Undoable.pushes structure.old)) }
    ensures kind { U.Undoable.kind structure.new ≡ U.Undoable.kind structure.old }
    ensures undone { RollBackRestores }
{
    let mut outcomes = Vec::with_capacity(heap, calls.len())?;
    let mut marks = Marks::with_capacity(heap, calls.len())?;
    let mut session = Session {
        structure,
        book,
        marks: &mut marks,
    };
    for call in calls {
        outcomes.push_reserved(session.perform(call));
    }
    Ok(Log {
        outcomes,
        marks: marks.into_heights(),
    })
}
