// The work tables that are lent to solve, seen as pairs of words.
ghost use Rattle.std.specs.Prelude.{◌≡◌, ℕ, ◌+◌, ◌*◌, ◌/◌, ◌^◌, ◌≤◌, length, None, Some, IfOk, IfErr};
ghost use Rattle.book.specs.View.{records_of};
ghost use Rattle.solver.specs.Solving.{Sizes, piece_total, table_too_short};

use crate::refusals::{SolveError, SolveRefusal};
use crate::spanning::write_spans;
use book::Book;

// Each is named by the number that an error gives for its place.
#[derive(Clone, Copy, PartialEq, Eq, Debug)]
pub(crate) enum WorkTable {
    Spans = 0,
    Nodes = 1,
    Pieces = 2,
}

// The table is too short.
impl From<WorkTable> for SolveError {
    ghost use Rattle.solver.specs.Tables.{table_number};
    ghost use Rattle.solver.specs.declared.refusals.SolveRefusal.TheVariants.{TableShort};

    ghost from_gives = { λ table e. e ≡ record { refusal = TableShort; place = table_number table } };

    fn from(table: WorkTable) -> SolveError {
        SolveRefusal::TableShort.at(table as usize)
    }
}

// The ends of the facts' spans, and the tables of the chains.
#[derive(Drop)]
pub(crate) struct Tables<'a> {
    pub(crate) spans: &'a mut [[u32; 2]],
    pub(crate) nodes: &'a mut [[u32; 2]],
    pub(crate) pieces: &'a mut [[u32; 2]],
}

impl<'a> Tables<'a> {
    ghost use Rattle.solver.specs.Tables.{Measures, RoomFor, table_number};

    // What is left of a table of an odd number of words is not used.
    pub(crate) fn new(
        spans: &'a mut [u32],
        nodes: &'a mut [u32],
        pieces: &'a mut [u32],
    ) -> Tables<'a>
        ensures spans { length result.spans.now ≡ length spans.old / 2 }
        ensures nodes { length result.nodes.now ≡ length nodes.old / 2 }
        ensures pieces { length result.pieces.now ≡ length pieces.old / 2 }
    {
        let (spans, _) = spans.as_chunks_mut();
        let (nodes, _) = nodes.as_chunks_mut();
        let (pieces, _) = pieces.as_chunks_mut();
        Tables {
            spans,
            nodes,
            pieces,
        }
    }

    // Writes the spans of the book's facts, and returns how many pieces they have; or the first table that is too short.
    pub(crate) fn prepare(&mut self, book: &Book) -> Result<usize, WorkTable>
        ensures refused { IfErr result (λ table. (z : Sizes) → Measures z self.old → table_too_short (records_of book.now) z ≡ Some (table_number table)) }
        ensures ready { IfOk result (λ n. RoomFor (records_of book.now) self.new × (n ≡ piece_total (records_of book.now)) × (n ≤ 2 ^ 24) × ((z : Sizes) → Measures z self.old → table_too_short (records_of book.now) z ≡ None)) }
        ensures spans { length self.new.spans.now ≡ length self.old.spans.now }
        ensures nodes { length self.new.nodes.now ≡ length self.old.nodes.now }
        ensures pieces { length self.new.pieces.now ≡ length self.old.pieces.now }
    {
        let summary = book.summary();
        if self.spans.len() < summary.facts {
            return Err(WorkTable::Spans);
        }
        if self.nodes.len() / 2 < summary.questions {
            return Err(WorkTable::Nodes);
        }
        let total = write_spans(book, self.spans);
        if self.pieces.len() < total {
            return Err(WorkTable::Pieces);
        }
        Ok(total)
    }
}
