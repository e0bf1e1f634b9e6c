// What a bands structure does.
ghost use Rattle.std.specs.Prelude.{◌≡◌, ◌^◌, ◌<◌, ◌≤◌, [], length, IfSome, is_some, MatchOption};
ghost use Rattle.bands.specs.Meaning.{capacity_of, stack_of, relation_result, kind_of};
ghost use Rattle.bands.specs.Rows.{TakenBack, FewLinks, depth_of};
ghost use Rattle.bands.specs.Rule.{admits_band, asks_bands, ByWalks, WorkedBands};

use crate::band::{BANDS, Band};
use crate::relations::{Depth, Relation};
use crate::steps::BandStep;
use crate::structure::Bands;
use crate::table::Table;
use undoable::{AskRefusal, Fact, History, PopRefusal, PushRefusal, Question, Undoable};

impl<'a> Bands<'a> {
    // An empty structure, each of the 1,024 bands alone. It can hold as many facts as there are records.
    pub fn new(records: &'a mut [BandStep]) -> Bands<'a>
        ensures stack { stack_of result ≡ [] }
        ensures capacity { capacity_of result ≡ length records.old }
        ensures tally { result.history.pushes ≡ 0 }
        ensures walks { ByWalks }
        ensures worked { WorkedBands }
        ensures links { FewLinks }
        ensures undone { TakenBack }
    {
        let most = records.len();
        Bands {
            history: History::new(records, most),
            table: Table::new(),
        }
    }

    // How the two bands of a question are related.
    pub fn relation(&self, question: Question) -> Result<Relation, AskRefusal>
        ensures { result ≡ relation_result (stack_of self.now) question }
    {
        let (a, b) = bands_of(question).ok_or(AskRefusal::NotAdmitted)?;
        Ok(self.table.relation(a, b))
    }

    // How deep a band is, or None for a number that is no band: at most ⌊log2 n⌋ links, in a group of n bands.
    pub fn depth(&self, band: u32) -> Option<Depth>
        ensures result { result ≡ depth_of (stack_of self.now) band }
        ensures shallow { MatchOption result (1024 ≤ band) (λ d. 2 ^ d.links ≤ d.bands) }
    {
        let band = Band::new(band)?;
        Some(self.table.depth(band))
    }
}

impl<'a> Undoable for Bands<'a> {
    ghost kind = { kind_of };

    ghost stack = { stack_of };

    ghost pushes = { λ b. b.history.pushes };

    fn push(&mut self, fact: Fact) -> Result<(), PushRefusal> {
        if !is_fact(fact) {
            return Err(PushRefusal::NotAdmitted);
        }
        let step = self.table.step(fact);
        self.history.push(step)?;
        self.table.apply(step);
        Ok(())
    }

    fn pop(&mut self) -> Result<Fact, PopRefusal> {
        let step = self.history.pop()?;
        self.table.undo(step);
        Ok(Fact::from(step))
    }

    fn ask(&self, question: Question) -> Result<u32, AskRefusal> {
        let relation = self.relation(question)?;
        Ok(relation.number())
    }

    fn height(&self) -> usize {
        self.history.height()
    }

    fn capacity(&self) -> usize {
        self.history.capacity()
    }

    fn tally(&self) -> u32 {
        self.history.tally()
    }

    fn admits_fact(&self, fact: Fact) -> bool {
        is_fact(fact)
    }

    fn admits_question(&self, question: Question) -> bool {
        bands_of(question).is_some()
    }

    fn order_is_free(&self) {}

    fn holds_admitted_facts(&self) {}
}

// A band, and a band or a band plus 1,024.
fn is_fact(fact: Fact) -> bool
    ensures { result ≡ admits_band fact }
{
    fact.first < BANDS && fact.second < 2 * BANDS
}

// The two bands of a question, or None if one of them is none.
fn bands_of(question: Question) -> Option<(Band, Band)>
    ensures asked { is_some result ≡ asks_bands question }
    ensures bands { IfSome result (λ p. (p.0.index ≡ question.first) × (p.1.index ≡ question.second)) }
{
    Some((Band::new(question.first)?, Band::new(question.second)?))
}
