// The book and what is true of every book.
ghost use Rattle.std.specs.Prelude.{◌≡◌, ◌*◌, ◌≤◌, true, take};
ghost use Rattle.book.specs.Records.{question_count};
ghost use Rattle.book.specs.Words.{reads, writes};
ghost use Rattle.book.specs.Rules.{sound};

// The first `2 * records` words are those that a sound list of records writes.
#[derive(Drop)]
pub struct Book {
    pub(crate) words: [u32; 8192],
    pub(crate) records: usize,
    pub(crate) questions: usize,
    ghost number: { records ≤ 4096 },
    ghost written: { writes (reads (take (2 * records) words)) ≡ take (2 * records) words },
    ghost counted: { questions ≡ question_count (reads (take (2 * records) words)) },
    ghost lawful: { sound (reads (take (2 * records) words)) ≡ true },
}
