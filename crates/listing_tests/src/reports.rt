// What `bookspans` answers to small and damaged inputs.
use listing::book_report;
use std::process::Abort;
use std::test::Fail;

// Fact (10, 1) and a question.
const BOOK: [u8; 16] = [10, 0, 0, 0x20, 1, 0, 0, 0x80, 7, 0, 0, 0x60, 0, 0, 0, 0x80];

fn answers(rt: &(impl Abort + AllocGlobal), bytes: &[u8], text: &str) -> Result<(), Fail> {
    let report = book_report(rt.alloc(), bytes)?;
    assert!(rt; report.as_str() == text);
    Ok(())
}

#[test]
fn empty_input(rt: HostRuntime) -> Result<(), Fail> {
    answers(&rt, &[], "facts 0\nwithdrawals 0\nquestions 0\ndeepest 0\n")
}

#[test]
fn one_fact(rt: HostRuntime) -> Result<(), Fail> {
    answers(
        &rt,
        &BOOK,
        "record 0 fact 10 1 span 0 1\nfacts 1\nwithdrawals 0\nquestions 1\ndeepest 1\n",
    )
}

#[test]
fn head_at_the_end(rt: HostRuntime) -> Result<(), Fail> {
    answers(&rt, &BOOK[0..12], "refused 6 at 3\n")
}

#[test]
fn three_stray_bytes(rt: HostRuntime) -> Result<(), Fail> {
    answers(
        &rt,
        &BOOK[0..11],
        "record 0 fact 10 1 span 0 0\nfacts 1\nwithdrawals 0\nquestions 0\ndeepest 0\n",
    )
}

#[test]
fn second_word_first(rt: HostRuntime) -> Result<(), Fail> {
    answers(&rt, &BOOK[4..16], "refused 5 at 0\n")
}
