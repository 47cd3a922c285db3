use super::*;

// The hand in after 999,999 is counted, and the one after 1,000,000 is not.
#[test]
fn limit(rt: HostRuntime) {
    let mut book = Book {
        tally: Tally {
            handed_in: 999_999,
            refused: 999_999,
            ..Tally::default()
        },
        ..Book::default()
    };
    assert!(rt; book.has_room());
    book.note(0, Err(Refusal::Docket(DocketFault::NoRule)));
    assert_eq!(rt; book.tally.handed_in, 1_000_000);
    assert_eq!(rt; book.tally.refused, 1_000_000);
    assert!(rt; !book.has_room());
}
