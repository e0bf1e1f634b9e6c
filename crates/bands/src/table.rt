// The table of rows: union by size, without path compression, so that a step can be taken back.
ghost use Rattle.std.specs.Prelude.{◌≡◌, ◌+◌, ◌^◌, ◌<◌, ◌≤◌, true, replicate, None};
ghost use Rattle.bands.specs.Rows.{fresh, row_at, place_of, Sound, step_of, after, undone, related};
ghost use Rattle.bands.specs.Rule.{admits_band};

use crate::band::{BANDS, Band};
use crate::relations::{Depth, Relation};
use crate::steps::{BandStep, Place, Row};
use undoable::Fact;

#[derive(Drop)]
pub(crate) struct Table {
    pub(crate) rows: [Row; 1024],
}

impl Table {
    // Each band alone.
    pub(crate) fn new() -> Table
        ensures { result.rows ≡ replicate 1024 fresh }
    {
        Table {
            rows: [Row::ALONE; 1024],
        }
    }

    // The step of a fact: the smaller root goes below the larger, and at equal sizes the root of `first` stays.
    pub(crate) fn step(&self, fact: Fact) -> BandStep
        requires sound { Sound self.now.rows }
        requires admitted { admits_band fact ≡ true }
        ensures { result ≡ step_of self.now.rows fact }
    {
        let one = self.climb(Band {
            index: fact.first as u16,
        });
        let two = self.climb(Band {
            index: (fact.second % BANDS) as u16,
        });
        let smaller = self.rows[one.root as usize].size < self.rows[two.root as usize].size;
        let (low, high) = if smaller {
            (one.root, two.root)
        } else {
            (two.root, one.root)
        };
        BandStep {
            first: fact.first,
            second: fact.second,
            low,
            high,
            turned: one.odd ^ two.odd ^ (fact.second >= BANDS),
            below: self.rows[low as usize],
            above: self.rows[high as usize],
        }
    }

    // Joins the two groups of a step, or marks its one group where the fact closes an odd walk.
    pub(crate) fn apply(&mut self, step: BandStep)
        requires low { step.low < 1024 }
        requires high { step.high < 1024 }
        requires fits { step.above.size + step.below.size < 65536 }
        ensures { self.new.rows ≡ after step self.old.rows }
    {
        if step.low == step.high {
            self.rows[step.high as usize] = step.closed();
        } else {
            self.rows[step.low as usize] = step.linked();
            self.rows[step.high as usize] = step.grown();
        }
    }

    // Takes a step back.
    pub(crate) fn undo(&mut self, step: BandStep)
        requires low { step.low < 1024 }
        requires high { step.high < 1024 }
        ensures { self.new.rows ≡ undone step self.old.rows }
    {
        self.rows[step.low as usize] = step.below;
        self.rows[step.high as usize] = step.above;
    }

    // How two bands are related.
    pub(crate) fn relation(&self, a: Band, b: Band) -> Relation
        requires { Sound self.now.rows }
        ensures { result ≡ related self.now.rows a.index b.index }
    {
        let one = self.climb(a);
        let two = self.climb(b);
        if one.root != two.root {
            Relation::Apart
        } else if self.rows[one.root as usize].odd {
            Relation::Both
        } else if one.odd != two.odd {
            Relation::Mirrored
        } else {
            Relation::Equal
        }
    }

    // How deep a band is.
    pub(crate) fn depth(&self, band: Band) -> Depth
        requires { Sound self.now.rows }
        ensures links { result.links ≡ (place_of self.now.rows band.index).links }
        ensures bands { result.bands ≡ (row_at self.now.rows (place_of self.now.rows band.index).root).size }
        ensures shallow { 2 ^ result.links ≤ result.bands }
    {
        let place = self.climb(band);
        Depth {
            links: place.links,
            bands: u32::from(self.rows[place.root as usize].size),
        }
    }

    // Climbs from a band to the root of its group.
    fn climb(&self, band: Band) -> Place
        requires { Sound self.now.rows }
        ensures place { result ≡ place_of self.now.rows band.index }
        ensures top { (row_at self.now.rows result.root).parent ≡ None }
        ensures inside { result.root < 1024 }
        ensures shallow { 2 ^ result.links ≤ (row_at self.now.rows result.root).size }
    {
        let mut root = band.index;
        let mut odd = false;
        let mut links = 0;
        while let Some(parent) = self.rows[root as usize].parent {
            odd ^= self.rows[root as usize].turned;
            root = parent;
            links += 1;
        }
        Place { root, odd, links }
    }
}
