// The listing of answers and the line of a refusal, in tables with room and without. What no text reaches is full stops.
use listing::{ListingRefusal, answer_listing, refusal_listing};

// The answers to the example book, whose listing has 52 bytes.
const ANSWERS: [u32; 6] = [1, 2, 1, 2, 1001, 1001];

#[test]
fn example_listing(rt: HostRuntime) {
    let mut table = [b'.'; 52];
    assert_eq!(rt; answer_listing(&ANSWERS, 6, 3, &mut table), Ok(52));
    assert_eq!(rt;
        &table,
        b"0 1\n1 2\n2 1\n3 2\n4 1001\n5 1001\nadditions 6\ndeepest 3\n"
    );
}

#[test]
fn later_bytes_stay(rt: HostRuntime) {
    let mut table = [b'.'; 55];
    assert_eq!(rt; answer_listing(&ANSWERS, 6, 3, &mut table), Ok(52));
    assert_eq!(rt;
        &table,
        b"0 1\n1 2\n2 1\n3 2\n4 1001\n5 1001\nadditions 6\ndeepest 3\n..."
    );
}

#[test]
fn one_byte_too_short(rt: HostRuntime) {
    let mut table = [b'.'; 51];
    let result = answer_listing(&ANSWERS, 6, 3, &mut table);
    assert_eq!(rt; result, Err(ListingRefusal::TooShort));
    assert_eq!(rt;
        &table,
        b"..................................................."
    );
}

// The lines of the answers have 30 bytes, so that here even they have no room.
#[test]
fn too_short_for_the_answers(rt: HostRuntime) {
    let mut table = [b'.'; 29];
    let result = answer_listing(&ANSWERS, 6, 3, &mut table);
    assert_eq!(rt; result, Err(ListingRefusal::TooShort));
    assert_eq!(rt; &table, b".............................");
}

#[test]
fn no_answers(rt: HostRuntime) {
    let mut table = [b'.'; 23];
    assert_eq!(rt; answer_listing(&[], 0, 0, &mut table), Ok(22));
    assert_eq!(rt; &table, b"additions 0\ndeepest 0\n.");
}

#[test]
fn greatest_numbers(rt: HostRuntime) {
    let mut table = [b'.'; 53];
    let result = answer_listing(&[4294967295], 4294967295, 4294967295, &mut table);
    assert_eq!(rt; result, Ok(53));
    assert_eq!(rt;
        &table,
        b"0 4294967295\nadditions 4294967295\ndeepest 4294967295\n"
    );
}

#[test]
fn eleventh_answer(rt: HostRuntime) {
    let mut table = [b'.'; 72];
    let answers = [0, 10, 99, 100, 0, 0, 0, 0, 0, 0, 7];
    assert_eq!(rt; answer_listing(&answers, 10, 9, &mut table), Ok(72));
    assert_eq!(rt;
        &table,
        b"0 0\n1 10\n2 99\n3 100\n4 0\n5 0\n6 0\n7 0\n8 0\n9 0\n10 7\nadditions 10\ndeepest 9\n"
    );
}

#[test]
fn refused_line(rt: HostRuntime) {
    let mut table = [b'.'; 20];
    assert_eq!(rt; refusal_listing(2, 8192, &mut table), Ok(18));
    assert_eq!(rt; &table, b"refused 2 at 8192\n..");
}

#[test]
fn greatest_refusal(rt: HostRuntime) {
    let mut table = [b'.'; 43];
    let result = refusal_listing(4294967295, 18446744073709551615, &mut table);
    assert_eq!(rt; result, Ok(43));
    assert_eq!(rt; &table, b"refused 4294967295 at 18446744073709551615\n");
}

#[test]
fn refusal_too_short(rt: HostRuntime) {
    let mut table = [b'.'; 14];
    let result = refusal_listing(14, 0, &mut table);
    assert_eq!(rt; result, Err(ListingRefusal::TooShort));
    assert_eq!(rt; &table, b"..............");
}

#[test]
fn no_table(rt: HostRuntime) {
    assert_eq!(rt;
        refusal_listing(5, 0, &mut []),
        Err(ListingRefusal::TooShort)
    );
    let result = answer_listing(&[], 0, 0, &mut []);
    assert_eq!(rt; result, Err(ListingRefusal::TooShort));
}

#[test]
fn number_of_the_refusal(rt: HostRuntime) {
    assert_eq!(rt; ListingRefusal::TooShort as u32, 16);
}
