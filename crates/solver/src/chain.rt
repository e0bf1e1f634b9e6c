// One chain of facts.
ghost use Rattle.std.specs.Prelude.{ℕ, ◌<◌, ◌≤◌, length};
ghost use Rattle.solver.specs.Chains.{link_after};

// It gives the facts by the numbers of their records. `link` leads to the first entry that is left, and each entry to an earlier one.
#[derive(Drop)]
pub(crate) struct Chain<'a> {
    pub(crate) pieces: &'a [[u32; 2]],
    pub(crate) link: usize,
    ghost nexts: { (k : ℕ) → k < link → link_after pieces.now k ≤ k },
    ghost within: { link ≤ length pieces.now },
}

impl<'a> Iterator for Chain<'a> {
    ghost use Rattle.std.specs.Iterator.{YieldsFirst, item_count};
    ghost use Rattle.solver.specs.Placed.{facts_left};

    type Item = usize;

    ghost next_gives = { YieldsFirst facts_left };

    ghost remaining = { item_count facts_left };

    fn next(&mut self) -> Option<usize> {
        let entry = self.link.checked_sub(1)?;
        let [fact, next] = self.pieces[entry];
        self.link = next as usize;
        Some(fact as usize)
    }
}
