// The rollback stack: saved records in memory that is lent to it, written once for every type of record. All its calls take it
// for writing, and say what stays.
ghost use Rattle.std.specs.Prelude.{◌≡◌, ◌≤◌, [], length};

use crate::refusals::{PopRefusal, PushRefusal};

// What lies at `height` and above is free.
#[derive(Drop)]
pub struct Stack<'a, T> {
    cells: &'a mut [T],
    height: usize,
    ghost within: { height ≤ length cells.now },
}

impl<'a, T: Copy> Stack<'a, T> {
    ghost use Rattle.undoable.specs.Stacks.{held, room, put_result, put_after, take_result, take_after};

    // An empty stack over `cells`.
    pub fn new(cells: &'a mut [T]) -> Stack<'a, T>
        ensures held { held result ≡ [] }
        ensures room { room result ≡ length cells.old }
    {
        Stack { cells, height: 0 }
    }

    // Puts a record on top.
    pub fn push(&mut self, item: T) -> Result<(), PushRefusal>
        ensures result { result ≡ put_result (room self.old) (held self.old) }
        ensures held { held self.new ≡ put_after (room self.old) (held self.old) item }
        ensures room { room self.new ≡ room self.old }
        ensures lent { self.new.cells.ghost_name ≡ self.old.cells.ghost_name }
    {
        if self.height == self.cells.len() {
            return Err(PushRefusal::Full);
        }
        self.cells[self.height] = item;
        self.height += 1;
        Ok(())
    }

    // Takes the newest record away and returns it.
    pub fn pop(&mut self) -> Result<T, PopRefusal>
        ensures result { result ≡ take_result (held self.old) }
        ensures held { held self.new ≡ take_after (held self.old) }
        ensures room { room self.new ≡ room self.old }
        ensures lent { self.new.cells.ghost_name ≡ self.old.cells.ghost_name }
    {
        if self.height == 0 {
            return Err(PopRefusal::Empty);
        }
        self.height -= 1;
        Ok(self.cells[self.height])
    }

    // How many records it holds.
    pub fn height(&mut self) -> usize
        ensures result { result ≡ length (held self.old) }
        ensures held { held self.new ≡ held self.old }
        ensures room { room self.new ≡ room self.old }
        ensures lent { self.new.cells.ghost_name ≡ self.old.cells.ghost_name }
    {
        self.height
    }

    // How many it can hold.
    pub fn capacity(&mut self) -> usize
        ensures result { result ≡ room self.old }
        ensures held { held self.new ≡ held self.old }
        ensures room { room self.new ≡ room self.old }
        ensures lent { self.new.cells.ghost_name ≡ self.old.cells.ghost_name }
    {
        self.cells.len()
    }
}
