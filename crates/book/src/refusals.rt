// Why a book refuses: an entry, a list of words, or a question about a record that is not there.
// The number of each case is the one that programs print.
ghost use Rattle.std.specs.Prelude.{◌≡◌};
ghost use Rattle.book.specs.Numbers.{number_of, place_of};
ghost use Rattle.book.specs.declared.refusals.LoadError.TheVariants.{Words, Book};

// Why a record is not entered.
#[derive(Clone, Copy, PartialEq, Eq, Debug)]
pub enum Refusal {
    FieldTooLarge = 1,
    BookFull = 2,
    NothingAlive = 3,
    TooManyQuestions = 4,
}

// Why a list of words is no list of records.
#[derive(Clone, Copy, PartialEq, Eq, Debug)]
pub enum WordFault {
    WrongKind = 5,
    HeadAtEnd = 6,
}

// The place of a wrong kind is the word's index, that of a head at the end the number of words.
#[derive(Clone, Copy, PartialEq, Eq, Debug)]
pub struct WordError {
    pub fault: WordFault,
    pub place: usize,
}

// The place of a refused record is the index of its head word.
#[derive(Clone, Copy, PartialEq, Eq, Debug)]
pub struct EntryError {
    pub refusal: Refusal,
    pub place: usize,
}

// Why a list of words is not loaded: the words are at fault, or the book refuses a record of them.
#[derive(Clone, Copy, PartialEq, Eq, Debug)]
pub enum LoadError {
    Words(WordError),
    Book(EntryError),
}

impl From<WordError> for LoadError {
    ghost from_gives = { λ x y. y ≡ Words x };

    fn from(value: WordError) -> LoadError {
        LoadError::Words(value)
    }
}

impl From<EntryError> for LoadError {
    ghost from_gives = { λ x y. y ≡ Book x };

    fn from(value: EntryError) -> LoadError {
        LoadError::Book(value)
    }
}

impl LoadError {
    // The refusal's number.
    pub fn number(&self) -> u32
        ensures { result ≡ number_of self.now }
    {
        match self {
            LoadError::Words(e) => e.fault as u32,
            LoadError::Book(e) => e.refusal as u32,
        }
    }

    // The place that the refusal names.
    pub fn place(&self) -> usize
        ensures { result ≡ place_of self.now }
    {
        match self {
            LoadError::Words(e) => e.place,
            LoadError::Book(e) => e.place,
        }
    }
}

// Why a record is not shown.
#[derive(Clone, Copy, PartialEq, Eq, Debug)]
pub enum ReadRefusal {
    NoSuchRecord = 15,
}
