// The kinds of a word: bits 31 to 29. A head word has the kind of its record.
ghost use Rattle.std.specs.Prelude.{◌≡◌, ◌+◌, ◌*◌, ◌^◌, ◌<◌};
ghost use Rattle.book.specs.WordKinds.{kind_number, kind_numbered};
ghost use Rattle.book.specs.Words.{kind_of};

#[derive(Clone, Copy)]
pub(crate) enum WordKind {
    Fact = 1,
    Withdrawal = 2,
    Question = 3,
    Second = 4,
}

impl WordKind {
    // The kind of a word, if it has one.
    pub(crate) fn of(word: u32) -> Option<WordKind>
        ensures { result ≡ kind_numbered (kind_of word) }
    {
        match word >> 29 {
            1 => Some(WordKind::Fact),
            2 => Some(WordKind::Withdrawal),
            3 => Some(WordKind::Question),
            4 => Some(WordKind::Second),
            _ => None,
        }
    }

    // The word of this kind that carries a field.
    pub(crate) fn word(self, field: u32) -> u32
        requires { field < 2 ^ 29 }
        ensures { result ≡ kind_number self * 2 ^ 29 + field }
    {
        ((self as u32) << 29) + field
    }
}
