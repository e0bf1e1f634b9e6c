// An example of marks: an answer with one fact more, without keeping it.
ghost use Rattle.std.specs.Prelude.{◌≡◌};
ghost use Rattle.undoable.specs.Calls.{trial_answer};

use crate::facts::{Fact, Question};
use crate::interface::Undoable;
use crate::marks::{keep, roll_back, take_mark};

// What the structure would answer with one fact more, or None if it refuses the fact or the question. The fact is taken back.
pub fn ask_with<U: Undoable>(structure: &mut U, fact: Fact, question: Question) -> Option<u32>
    ensures result { result ≡ trial_answer (U.Undoable.kind structure.old) (U.Undoable.stack structure.old) fact question }
    ensures stack { U.Undoable.stack structure.new ≡ U.Undoable.stack structure.old }
    ensures kind { U.Undoable.kind structure.new ≡ U.Undoable.kind structure.old }
{
    let mark = take_mark(structure);
    if structure.push(fact).is_err() {
        keep(mark);
        return None;
    }
    let answer = structure.ask(question);
    let _ = roll_back(structure, mark);
    answer.ok()
}
