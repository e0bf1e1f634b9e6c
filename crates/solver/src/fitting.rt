// Whether a structure admits all that a book asks of it.
ghost use Rattle.std.specs.Prelude.{◌≡◌};
ghost use Rattle.book.specs.View.{records_of};
ghost use Rattle.solver.specs.Solving.{suits, first_unsuited};

use book::{Book, Record};
use undoable::Undoable;

// The first record whose fact or question the structure does not admit.
pub(crate) fn first_unfit<U: Undoable>(structure: &U, book: &Book) -> Option<usize>
    ensures { result ≡ first_unsuited (U.Undoable.kind structure.now) (records_of book.now) }
{
    book.records().position(|item| !item_suits(structure, item))
}

fn item_suits<U: Undoable>(structure: &U, item: Record) -> bool
    ensures { result ≡ suits (U.Undoable.kind structure.now) item }
{
    match item {
        Record::Fact(f) => structure.admits_fact(f),
        Record::Withdrawal(_) => true,
        Record::Question(q) => structure.admits_question(q),
    }
}
