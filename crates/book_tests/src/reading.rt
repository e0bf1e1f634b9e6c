// Reading single records back.
use crate::examples::{example_book, fact, question};
use book::{ReadRefusal, Record, Shown};
use std::test::Fail;

#[test]
fn record_is_shown_with_its_place(rt: HostRuntime) -> Result<(), Fail> {
    let book = example_book()?;
    assert_eq!(rt;
        book.read(2)?,
        Shown {
            item: Record::Fact(fact(20, 1)),
            place: 4,
        }
    );
    assert_eq!(rt;
        book.read(6)?,
        Shown {
            item: Record::Withdrawal(fact(10, 1)),
            place: 12,
        }
    );
    assert_eq!(rt;
        book.read(10)?,
        Shown {
            item: Record::Question(question(20)),
            place: 20,
        }
    );
    Ok(())
}

#[test]
fn no_record_is_shown_past_the_end(rt: HostRuntime) -> Result<(), Fail> {
    let book = example_book()?;
    assert_eq!(rt; book.read(11), Err(ReadRefusal::NoSuchRecord));
    Ok(())
}

#[test]
fn read_refusal_has_its_number(rt: HostRuntime) {
    assert_eq!(rt; ReadRefusal::NoSuchRecord as u32, 15);
}
