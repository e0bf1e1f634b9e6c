// The structure and what is true of it.
ghost use Rattle.std.specs.Prelude.{◌≡◌, true};
ghost use Rattle.undoable.specs.Stacks.{held, room};
ghost use Rattle.bands.specs.Rows.{rows_of, steps_of, facts_of, all_admitted};

use crate::steps::BandStep;
use crate::table::Table;
use undoable::History;

// The table has the rows that the facts on the stack make, and each step on the stack is the one that its fact made.
#[derive(Drop)]
pub struct Bands<'a> {
    pub(crate) history: History<'a, BandStep>,
    pub(crate) table: Table,
    ghost limited: { history.limit ≡ room history.stack },
    ghost admitted: { all_admitted (facts_of (held history.stack)) ≡ true },
    ghost present: { table.rows ≡ rows_of (facts_of (held history.stack)) },
    ghost steps: { held history.stack ≡ steps_of (facts_of (held history.stack)) },
}
