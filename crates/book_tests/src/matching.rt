// The spans of the example book, worked by hand.
use crate::examples::example_book;
use book::Summary;
use std::test::Fail;

#[test]
fn facts_have_spans(rt: HostRuntime) -> Result<(), Fail> {
    let book = example_book()?;
    assert_eq!(rt; book.span(0), Some((0, 3)));
    assert_eq!(rt; book.span(2), Some((1, 5)));
    assert_eq!(rt; book.span(4), Some((2, 6)));
    Ok(())
}

#[test]
fn other_records_have_none(rt: HostRuntime) -> Result<(), Fail> {
    let book = example_book()?;
    for number in [1, 3, 5, 6, 7, 8, 9, 10, 11] {
        assert_eq!(rt; book.span(number), None);
    }
    Ok(())
}

#[test]
fn summary_counts_the_kinds_and_the_depth(rt: HostRuntime) -> Result<(), Fail> {
    assert_eq!(rt;
        example_book()?.summary(),
        Summary {
            facts: 3,
            withdrawals: 2,
            questions: 6,
            deepest: 3,
        }
    );
    Ok(())
}
