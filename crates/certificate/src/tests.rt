use super::*;

// Every kind with its whole body.
static BYTES: [u8; 36] = [
    1, 3, 0, 16, 0, 0, 2, 4, 3, 2, 1, 3, 4, 5, 7, 0, 0, 0, 6, 1, 0, 0, 0, 2, 0, 0, 0, 18, 0, 0, 0,
    7, 8, 1, 9, 10,
];

static RECORDS: [Record; 10] = [
    Record::Claim {
        claim: 3,
        size: 4096,
    },
    Record::Literal(0x01020304),
    Record::ClauseEnd,
    Record::FrameEnd,
    Record::Take(7),
    Record::Resolve {
        left: 1,
        right: 2,
        pivot: 18,
    },
    Record::RefutationEnd,
    Record::Bit(1),
    Record::RowEnd,
    Record::End,
];

#[test]
fn each_kind(rt: HostRuntime) {
    let mut cursor = Cursor::new(&BYTES);
    for record in &RECORDS {
        assert!(rt; !cursor.at_end());
        assert_eq!(rt; cursor.next(), Some(*record));
    }
    assert_eq!(rt; cursor.offset(), 36);
    assert!(rt; cursor.at_end());
}

// A cut body, a kind 0 or 11, or no byte: no record, and nothing is taken.
#[test]
fn no_record(rt: HostRuntime) {
    let cut: [&[u8]; 4] = [&[1, 3, 0, 16, 0], &[0, 1, 2, 3, 4, 5], &[11], &[]];
    for bytes in &cut {
        let mut cursor = Cursor::new(bytes);
        assert_eq!(rt; cursor.next(), None);
        assert_eq!(rt; cursor.offset(), 0);
    }
}
