// Refutations of a variable and its denial, above one literal that stays.
use super::*;
use refusal::RefutationFault;
use resolution::ClauseTable;

// Both clauses are taken and resolved; after the end of the refutation the certificate ends.
static BYTES: [u8; 25] = [
    5, 0, 0, 0, 0, 5, 1, 0, 0, 0, 6, 0, 0, 0, 0, 1, 0, 0, 0, 0, 0, 0, 0, 7, 10,
];

// The answer to question 3, and how many bytes were taken.
fn answer(bytes: &[u8], literals: &mut [u32]) -> (Result<usize, CertificateRefusal>, usize) {
    let clauses = [0u32, 1];
    let places = [
        Span {
            start: 0,
            length: 1,
        },
        Span {
            start: 1,
            length: 1,
        },
    ];
    let Some(table) = ClauseTable::new(&clauses, &places) else {
        return (Ok(0), 0);
    };
    let mut spans = [Span::default(); 3];
    let below = Below {
        literals: Stack { used: 1 },
        spans: Stack::default(),
    };
    let mut cursor = Cursor::new(bytes);
    let result = refute_from(&table, &mut cursor, 3, below, literals, &mut spans);
    (result, cursor.offset())
}

#[test]
fn refuted(rt: HostRuntime) {
    let mut literals = [9u32, 0, 0];
    let (result, taken) = answer(&BYTES, &mut literals);
    assert_eq!(rt; result, Ok(4));
    assert_eq!(rt; taken, 24);
    assert_eq!(rt; literals, [9, 0, 1]);
}

#[test]
fn not_refuted(rt: HostRuntime) {
    let mut literals = [9u32, 0, 0];
    let (cut, taken) = answer(&BYTES[..10], &mut literals);
    assert_eq!(rt; cut, Err(CertificateFault::NoRecord.at(10, 3)));
    assert_eq!(rt; taken, 10);
    let (misplaced, taken) = answer(&[5, 0, 0, 0, 0, 10], &mut literals);
    assert_eq!(rt; misplaced, Err(CertificateFault::OutOfPlace.at(5, 3)));
    assert_eq!(rt; taken, 6);
    let (early, _) = answer(&[5, 0, 0, 0, 0, 7], &mut literals);
    assert_eq!(rt;
        early,
        Err(CertificateFault::Refutation(RefutationFault::NotRefuted).at(5, 3))
    );
    let (short, _) = answer(&BYTES, &mut [9, 0]);
    assert_eq!(rt;
        short,
        Err(CertificateFault::Refutation(RefutationFault::Full).at(5, 3))
    );
}
