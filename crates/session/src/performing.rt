// A session: one book and one structure, on which calls are performed, and the marks taken since it began.
ghost use Rattle.std.specs.Prelude.{◌≡◌, ◌+◌, ◌<◌, ◌≤◌};
ghost use Rattle.session.specs.Model.{outcome, next};
ghost use Rattle.session.specs.Sessions.{state_of};

use crate::calls::{Call, Outcome};
use crate::held::Marks;
use book::Book;
use undoable::{Undoable, keep, roll_back};

#[derive(Drop)]
pub(crate) struct Session<'a, 'b, 'c, U> {
    pub(crate) structure: &'a mut U,
    pub(crate) book: &'b mut Book,
    pub(crate) marks: &'c mut Marks,
}

impl<U: Undoable> Session<'_, '_, '_, U> {
    // Performs one call. There is room for one mark more, so that none fails for want of memory.
    pub(crate) fn perform(&mut self, call: Call) -> Outcome
        requires { 0 < self.old.marks.now.room }
        ensures result { result ≡ outcome (U.Undoable.kind self.old.structure.now) (state_of U.Undoable.stack U.Undoable.pushes self.old) call }
        ensures after { state_of U.Undoable.stack U.Undoable.pushes self.new ≡ next (U.Undoable.kind self.old.structure.now) (state_of U.Undoable.stack U.Undoable.pushes self.old) call }
        ensures kind { U.Undoable.kind self.new.structure.now ≡ U.Undoable.kind self.old.structure.now }
        ensures room { self.old.marks.now.room ≤ self.new.marks.now.room + 1 }
        ensures same_structure { self.new.structure.ghost_name ≡ self.old.structure.ghost_name }
        ensures same_book { self.new.book.ghost_name ≡ self.old.book.ghost_name }
        ensures same_marks { self.new.marks.ghost_name ≡ self.old.marks.ghost_name }
    {
        match call {
            Call::Fact(f) => Outcome::Entered(self.book.enter_fact(f)),
            Call::Withdrawal(f) => Outcome::Entered(self.book.enter_withdrawal(f)),
            Call::Question(q) => Outcome::Entered(self.book.enter_question(q)),
            Call::Load(words) => Outcome::Loaded(self.book.load(&words)),
            Call::Push(f) => Outcome::Pushed(self.structure.push(f)),
            Call::Pop => Outcome::Popped(self.structure.pop()),
            Call::Ask(q) => Outcome::Answered(self.structure.ask(q)),
            Call::Mark => Outcome::Marked(self.marks.take(self.structure)),
            Call::RollBack(number) => match self.marks.give_back(number) {
                Some(mark) => Outcome::RolledBack(roll_back(self.structure, mark)),
                None => Outcome::NoSuchMark,
            },
            Call::Keep(number) => match self.marks.give_back(number) {
                Some(mark) => {
                    keep(mark);
                    Outcome::Kept
                }
                None => Outcome::NoSuchMark,
            },
        }
    }
}
