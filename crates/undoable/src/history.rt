// The records of a structure's pushes, with the height, the capacity and the tally that it is asked for.
ghost use Rattle.std.specs.Prelude.{◌≡◌, ◌+◌, ◌%◌, ◌^◌, ◌≤◌, min, [], length, cond, is_ok, nat_le};
ghost use Rattle.undoable.specs.Stacks.{held, room, put_result, put_after, take_result, take_after};

use crate::refusals::{PopRefusal, PushRefusal};
use crate::rollback::Stack;

// The calls of the stack borrow it for writing, so a history keeps the height and the capacity beside it.
#[derive(Drop)]
pub struct History<'a, T> {
    stack: Stack<'a, T>,
    height: usize,
    limit: usize,
    pushes: u32,
    ghost high: { height ≡ length (held stack) },
    ghost few: { height ≤ limit },
    ghost limited: { limit ≤ room stack },
}

impl<'a, T: Copy> History<'a, T> {
    // No records yet, and room for at most `most` of them in the memory of `cells`.
    pub fn new(cells: &'a mut [T], most: usize) -> History<'a, T>
        ensures held { held result.stack ≡ [] }
        ensures limit { result.limit ≡ min most (length cells.old) }
        ensures room { room result.stack ≡ length cells.old }
        ensures tally { result.pushes ≡ 0 }
    {
        let limit = most.min(cells.len());
        History {
            stack: Stack::new(cells),
            height: 0,
            limit,
            pushes: 0,
        }
    }

    // Puts a record on top, which counts as a push.
    pub fn push(&mut self, item: T) -> Result<(), PushRefusal>
        ensures result { result ≡ put_result self.old.limit (held self.old.stack) }
        ensures held { held self.new.stack ≡ put_after self.old.limit (held self.old.stack) item }
        ensures limit { self.new.limit ≡ self.old.limit }
        ensures room { room self.new.stack ≡ room self.old.stack }
        ensures tally { self.new.pushes ≡ cond (is_ok (put_result self.old.limit (held self.old.stack))) ((self.old.pushes + 1) % 2 ^ 32) self.old.pushes }
        ensures lent { self.new.stack.cells.ghost_name ≡ self.old.stack.cells.ghost_name }
    {
        if self.is_full() {
            return Err(PushRefusal::Full);
        }
        self.stack.push(item)?;
        self.height += 1;
        self.pushes = self.pushes.wrapping_add(1);
        Ok(())
    }

    // Takes the newest record away and returns it.
    pub fn pop(&mut self) -> Result<T, PopRefusal>
        ensures result { result ≡ take_result (held self.old.stack) }
        ensures held { held self.new.stack ≡ take_after (held self.old.stack) }
        ensures limit { self.new.limit ≡ self.old.limit }
        ensures room { room self.new.stack ≡ room self.old.stack }
        ensures tally { self.new.pushes ≡ self.old.pushes }
        ensures lent { self.new.stack.cells.ghost_name ≡ self.old.stack.cells.ghost_name }
    {
        let item = self.stack.pop()?;
        self.height -= 1;
        Ok(item)
    }

    // Whether it can hold no record more.
    pub fn is_full(&self) -> bool
        ensures { result ≡ nat_le self.now.limit (length (held self.now.stack)) }
    {
        self.limit <= self.height
    }

    // How many records it holds.
    pub fn height(&self) -> usize
        ensures { result ≡ length (held self.now.stack) }
    {
        self.height
    }

    // How many it can hold.
    pub fn capacity(&self) -> usize
        ensures { result ≡ self.now.limit }
    {
        self.limit
    }

    // How many pushes it has accepted, modulo 2^32.
    pub fn tally(&self) -> u32
        ensures { result ≡ self.now.pushes }
    {
        self.pushes
    }
}
