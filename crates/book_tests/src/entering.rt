// What a book accepts and refuses, and that a refusal changes nothing.
use crate::examples::{fact, question};
use book::{Book, Refusal};
use std::process::Abort;
use std::test::Fail;
use undoable::Question;

const LARGEST_FIELD: u32 = 536_870_911;

const RECORD_LIMIT: u32 = 4096;

const QUESTION_LIMIT: u32 = 1024;

// Each of the three kinds is refused with these fields.
fn too_large(rt: &impl Abort, first: u32, second: u32) {
    let mut book = Book::new();
    assert_eq!(rt;
        book.enter_fact(fact(first, second)),
        Err(Refusal::FieldTooLarge)
    );
    assert_eq!(rt;
        book.enter_withdrawal(fact(first, second)),
        Err(Refusal::FieldTooLarge)
    );
    assert_eq!(rt;
        book.enter_question(Question { first, second }),
        Err(Refusal::FieldTooLarge)
    );
    assert_eq!(rt; book.record_count(), 0);
}

// The facts (0, 1), (1, 1) and so on.
fn enter_facts(book: &mut Book, count: u32) -> Result<(), Refusal> {
    for i in 0..count {
        book.enter_fact(fact(i, 1))?;
    }
    Ok(())
}

fn enter_questions(book: &mut Book, count: u32) -> Result<(), Refusal> {
    for i in 0..count {
        book.enter_question(question(i))?;
    }
    Ok(())
}

#[test]
fn largest_fields_enter(rt: HostRuntime) -> Result<(), Fail> {
    let mut book = Book::new();
    book.enter_fact(fact(LARGEST_FIELD, LARGEST_FIELD))?;
    book.enter_withdrawal(fact(LARGEST_FIELD, LARGEST_FIELD))?;
    book.enter_question(Question {
        first: LARGEST_FIELD,
        second: LARGEST_FIELD,
    })?;
    assert_eq!(rt; book.record_count(), 3);
    Ok(())
}

#[test]
fn larger_fields_are_refused(rt: HostRuntime) {
    too_large(&rt, LARGEST_FIELD + 1, 0);
    too_large(&rt, 0, LARGEST_FIELD + 1);
}

#[test]
fn refusals_have_their_numbers(rt: HostRuntime) {
    assert_eq!(rt; Refusal::FieldTooLarge as u32, 1);
    assert_eq!(rt; Refusal::BookFull as u32, 2);
    assert_eq!(rt; Refusal::NothingAlive as u32, 3);
    assert_eq!(rt; Refusal::TooManyQuestions as u32, 4);
}

#[test]
fn full_book_takes_no_record(rt: HostRuntime) -> Result<(), Fail> {
    let mut book = Book::new();
    enter_facts(&mut book, RECORD_LIMIT - 1)?;
    assert_eq!(rt; book.record_count(), 4095);
    book.enter_fact(fact(10, 1))?;
    assert_eq!(rt; book.enter_fact(fact(10, 1)), Err(Refusal::BookFull));
    assert_eq!(rt;
        book.enter_withdrawal(fact(10, 2)),
        Err(Refusal::BookFull),
        "fullness is judged before life"
    );
    assert_eq!(rt;
        book.enter_fact(fact(LARGEST_FIELD + 1, 1)),
        Err(Refusal::FieldTooLarge),
        "fields are judged first"
    );
    assert_eq!(rt; book.record_count(), 4096);
    Ok(())
}

#[test]
fn questions_are_limited(rt: HostRuntime) -> Result<(), Fail> {
    let mut book = Book::new();
    enter_questions(&mut book, QUESTION_LIMIT)?;
    assert_eq!(rt;
        book.enter_question(question(10)),
        Err(Refusal::TooManyQuestions)
    );
    book.enter_fact(fact(10, 1))?;
    assert_eq!(rt; book.question_count(), 1024);
    assert_eq!(rt; book.record_count(), 1025);
    Ok(())
}

#[test]
fn fullness_is_judged_before_the_number_of_questions(rt: HostRuntime) -> Result<(), Fail> {
    let mut book = Book::new();
    enter_questions(&mut book, QUESTION_LIMIT)?;
    enter_facts(&mut book, RECORD_LIMIT - QUESTION_LIMIT)?;
    assert_eq!(rt; book.record_count(), 4096);
    assert_eq!(rt; book.enter_question(question(10)), Err(Refusal::BookFull));
    Ok(())
}

#[test]
fn withdrawal_needs_an_equal_fact_alive(rt: HostRuntime) -> Result<(), Fail> {
    let mut book = Book::new();
    assert_eq!(rt;
        book.enter_withdrawal(fact(10, 1)),
        Err(Refusal::NothingAlive)
    );
    book.enter_fact(fact(10, 1))?;
    assert_eq!(rt;
        book.enter_withdrawal(fact(10, 2)),
        Err(Refusal::NothingAlive)
    );
    assert_eq!(rt;
        book.enter_withdrawal(fact(11, 1)),
        Err(Refusal::NothingAlive)
    );
    assert_eq!(rt; book.record_count(), 1);
    Ok(())
}

#[test]
fn fact_is_withdrawn_once(rt: HostRuntime) -> Result<(), Fail> {
    let mut book = Book::new();
    book.enter_fact(fact(10, 1))?;
    book.enter_withdrawal(fact(10, 1))?;
    assert_eq!(rt;
        book.enter_withdrawal(fact(10, 1)),
        Err(Refusal::NothingAlive)
    );
    assert_eq!(rt; book.record_count(), 2);
    Ok(())
}
