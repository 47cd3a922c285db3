use crate::worked::{AREA, HEADER};
use certificate::Cursor;
use circuit::smallest;
use opening::open;
use stack::Span;

// A trace of two frames: {5}; {4, 7} and the empty clause.
static TRACE: [u8; 25] = [
    1, 1, 1, 0, 0, 0, 2, 5, 0, 0, 0, 3, 4, 2, 4, 0, 0, 0, 2, 7, 0, 0, 0, 3, 3,
];

// How many records an opening has, or the number of a refusal and its offset.
fn answer(bytes: &[u8], literals: &mut [u32], spans: &mut [Span]) -> Result<usize, (u32, usize)> {
    let mut circuit = smallest();
    circuit
        .set(HEADER, &AREA)
        .map_err(|refusal| (refusal.fault.number(), refusal.offset))?;
    let mut cursor = Cursor::new(bytes);
    open(&circuit, &mut cursor, literals, spans)
        .map(|opening| opening.records)
        .map_err(|refusal| (refusal.fault.number(), refusal.offset))
}

// The trace, which ends with byte 4; an induction; a counterexample: each read to its end, whatever follows.
#[test]
fn openings_are_read(rt: HostRuntime) {
    let mut whole = [10; 27];
    whole[0..25].copy_from_slice(&TRACE);
    whole[25] = 4;
    assert_eq!(rt;
        answer(&whole, &mut [0; 3], &mut [Span::default(); 3]),
        Ok(9)
    );
    let induction = [1, 2, 64, 0, 0, 0];
    assert_eq!(rt; answer(&induction, &mut [], &mut []), Ok(1));
    let counterexample = [1, 3, 0, 16, 0, 0, 8, 1];
    assert_eq!(rt; answer(&counterexample, &mut [], &mut []), Ok(1));
}

// No record where the trace is cut; no place for a frame's end in a clause, nor for another first record.
#[test]
fn form_is_refused(rt: HostRuntime) {
    assert_eq!(rt;
        answer(&TRACE, &mut [0; 3], &mut [Span::default(); 3]),
        Err((23, 25))
    );
    let within = [1, 1, 1, 0, 0, 0, 2, 5, 0, 0, 0, 4];
    assert_eq!(rt;
        answer(&within, &mut [0; 3], &mut [Span::default(); 3]),
        Err((24, 11))
    );
    assert_eq!(rt;
        answer(&[4], &mut [0; 3], &mut [Span::default(); 3]),
        Err((24, 0))
    );
}

// An induction over 65 rows, a literal of no state bit, a literal twice.
#[test]
fn numbers_are_refused(rt: HostRuntime) {
    let large = [1, 2, 65, 0, 0, 0];
    assert_eq!(rt; answer(&large, &mut [], &mut []), Err((25, 0)));
    let other = [1, 1, 1, 0, 0, 0, 2, 8, 0, 0, 0];
    assert_eq!(rt;
        answer(&other, &mut [0; 3], &mut [Span::default(); 3]),
        Err((25, 6))
    );
    let twice = [1, 1, 1, 0, 0, 0, 2, 5, 0, 0, 0, 2, 5, 0, 0, 0];
    assert_eq!(rt;
        answer(&twice, &mut [0; 3], &mut [Span::default(); 3]),
        Err((25, 11))
    );
}

// Two literals at most, one clause at most; a first frame that the start is not in.
#[test]
fn room_and_start_are_asked(rt: HostRuntime) {
    assert_eq!(rt;
        answer(&TRACE, &mut [0; 2], &mut [Span::default(); 3]),
        Err((27, 18))
    );
    assert_eq!(rt;
        answer(&TRACE, &mut [0; 3], &mut [Span::default(); 1]),
        Err((27, 23))
    );
    let outside = [1, 1, 1, 0, 0, 0, 2, 4, 0, 0, 0, 3];
    assert_eq!(rt;
        answer(&outside, &mut [0; 3], &mut [Span::default(); 3]),
        Err((28, 11))
    );
}
