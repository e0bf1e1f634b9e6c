// The records and the book that several tests use.
use book::{Book, Record, Refusal};
use undoable::{Fact, Question};

pub(crate) fn fact(first: u32, second: u32) -> Fact {
    Fact { first, second }
}

pub(crate) fn question(first: u32) -> Question {
    Question { first, second: 0 }
}

// A book in which one fact is entered twice and withdrawn once.
pub(crate) fn example_book() -> Result<Book, Refusal> {
    let mut book = Book::new();
    let items = [
        Record::Fact(fact(10, 1)),
        Record::Question(question(10)),
        Record::Fact(fact(20, 1)),
        Record::Question(question(30)),
        Record::Fact(fact(10, 1)),
        Record::Question(question(20)),
        Record::Withdrawal(fact(10, 1)),
        Record::Question(question(30)),
        Record::Question(question(40)),
        Record::Withdrawal(fact(20, 1)),
        Record::Question(question(20)),
    ];
    for item in items {
        book.enter(item)?;
    }
    Ok(book)
}
