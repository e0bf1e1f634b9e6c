// The structure and what is true of it.
ghost use Rattle.std.specs.Prelude.{◌≡◌, min, true, length};
ghost use Rattle.undoable.specs.Kinds.{admits_all};
ghost use Rattle.undoable.specs.Stacks.{held, room};
ghost use Rattle.prizes.specs.Rule.{admits_prize};
ghost use Rattle.prizes.specs.Saved.{row_of, facts_of, AreSaved};

use crate::lines::Prize;
use crate::rows::Rows;
use undoable::History;

// The present row has the answers for the prizes of the history, and row number i of those saved the answers for the i oldest.
#[derive(Drop)]
pub struct Prizes<'a, 'b> {
    pub(crate) history: History<'a, Prize>,
    pub(crate) rows: Rows<'b>,
    ghost admitted: { admits_all admits_prize (facts_of (held history.stack)) ≡ true },
    ghost limited: { history.limit ≡ min (room history.stack) (length rows.saved.now) },
    ghost present: { rows.row ≡ row_of (facts_of (held history.stack)) },
    ghost before: { AreSaved (facts_of (held history.stack)) rows.saved.now },
}
