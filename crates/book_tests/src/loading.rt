// Loading: what a list of words comes to, and the place of each fault.
use crate::examples::{example_book, fact};
use book::{Book, EntryError, LoadError, Refusal, WordError, WordFault};
use std::process::Abort;
use std::test::Fail;

// The words of fact (10, 1).
const HEAD: u32 = 0x2000_000A;

const SECOND: u32 = 0x8000_0001;

fn bad_words(fault: WordFault, place: usize) -> LoadError {
    LoadError::Words(WordError { fault, place })
}

fn bad_record(refusal: Refusal, place: usize) -> LoadError {
    LoadError::Book(EntryError { refusal, place })
}

// A book that refuses to load the words, and is what it was before.
fn refuses(rt: &impl Abort, words: &[u32], error: LoadError) -> Result<(), Fail> {
    let mut book = Book::new();
    book.enter_fact(fact(10, 1))?;
    assert_eq!(rt; book.load(words), Err(error));
    assert_eq!(rt; book.record_count(), 1);
    assert_eq!(rt; book.words(), [HEAD, SECOND].as_slice());
    Ok(())
}

// Makes every second word, from the first on, the head of a record.
fn put_heads(words: &mut [u32], head: u32) {
    let (records, _) = words.as_chunks_mut::<2>();
    for record in records {
        record[0] = head;
    }
}

#[test]
fn record_is_written_as_two_words(rt: HostRuntime) -> Result<(), Fail> {
    let mut book = Book::new();
    book.enter_fact(fact(10, 1))?;
    assert_eq!(rt; book.words(), [0x2000_000A, 0x8000_0001].as_slice());
    Ok(())
}

#[test]
fn own_words_load_back(rt: HostRuntime) -> Result<(), Fail> {
    let written = example_book()?;
    let mut loaded = Book::new();
    loaded.load(written.words())?;
    assert_eq!(rt; loaded.words(), written.words());
    assert_eq!(rt; loaded.question_count(), 6);
    Ok(())
}

#[test]
fn load_replaces_the_old_book(rt: HostRuntime) -> Result<(), Fail> {
    let mut book = example_book()?;
    book.load(&[HEAD, SECOND])?;
    assert_eq!(rt; book.record_count(), 1);
    assert_eq!(rt; book.question_count(), 0);
    Ok(())
}

#[test]
fn wrong_kinds_are_placed_at_their_words(rt: HostRuntime) -> Result<(), Fail> {
    refuses(&rt, &[SECOND, SECOND], bad_words(WordFault::WrongKind, 0))?;
    refuses(
        &rt,
        &[HEAD, SECOND, 0x0000_000A, SECOND],
        bad_words(WordFault::WrongKind, 2),
    )?;
    refuses(
        &rt,
        &[HEAD, SECOND, HEAD, HEAD],
        bad_words(WordFault::WrongKind, 3),
    )
}

#[test]
fn head_at_the_end_is_placed_behind_the_words(rt: HostRuntime) -> Result<(), Fail> {
    refuses(&rt, &[HEAD], bad_words(WordFault::HeadAtEnd, 1))?;
    refuses(
        &rt,
        &[HEAD, SECOND, HEAD],
        bad_words(WordFault::HeadAtEnd, 3),
    )
}

#[test]
fn word_faults_have_their_numbers(rt: HostRuntime) {
    assert_eq!(rt; WordFault::WrongKind as u32, 5);
    assert_eq!(rt; WordFault::HeadAtEnd as u32, 6);
}

#[test]
fn one_record_too_many_is_placed_at_its_head(rt: HostRuntime) -> Result<(), Fail> {
    let mut words = [SECOND; 8194];
    put_heads(&mut words, HEAD);
    refuses(&rt, &words, bad_record(Refusal::BookFull, 8192))
}

#[test]
fn withdrawal_of_nothing_is_placed_at_its_head(rt: HostRuntime) -> Result<(), Fail> {
    refuses(
        &rt,
        &[HEAD, SECOND, 0x4000_0014, SECOND],
        bad_record(Refusal::NothingAlive, 2),
    )
}

#[test]
fn one_question_too_many_is_placed_at_its_head(rt: HostRuntime) -> Result<(), Fail> {
    let mut words = [SECOND; 2050];
    put_heads(&mut words, 0x6000_000A);
    refuses(&rt, &words, bad_record(Refusal::TooManyQuestions, 2048))
}
