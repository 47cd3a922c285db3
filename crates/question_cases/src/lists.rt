// Questions about the worked circuit and about a small step table.
use crate::worked::{AREA, HEADER};
use certificate::Cursor;
use opening::open;
use questions::{TraceList, trace_question, trace_questions};
use resolution::ClauseList;
use stack::{Span, Stack};
use std::test::Fail;
use unrolling::{InductionList, induction_question, induction_questions};

// Input 1 turns the state; the rule is broken where both are 1. Nine variables and 21 clauses.
static TABLE: [u8; 33] = [
    1, 1, 1, 1, 2, 0, 0, 0, 0, 0, 0, 2, 1, 0, 0, 0, 0, 0, 2, 1, 0, 0, 0, 0, 0, 2, 0, 0, 1, 0, 0, 0,
    3,
];

// A trace of two frames: {5} and {7}; {5, 7}.
static TRACE: [u8; 31] = [
    1, 1, 1, 0, 0, 0, 2, 5, 0, 0, 0, 3, 2, 7, 0, 0, 0, 3, 4, 2, 5, 0, 0, 0, 2, 7, 0, 0, 0, 3, 4,
];

// A trace of two frames: {5}; none.
static SMALL: [u8; 14] = [1, 1, 1, 0, 0, 0, 2, 5, 0, 0, 0, 3, 4, 4];

// Whether clause `number` of a list, copied behind what the stack holds, has these literals.
fn has<L: ClauseList>(
    list: &L,
    number: usize,
    clause: &[u32],
    used: Stack,
    literals: &mut [u32],
    spans: &[Span],
) -> bool {
    let mut stack = used;
    list.copy(number, &mut stack, literals, spans).is_ok()
        && literals.get(used.used..stack.used) == Some(clause)
}

#[test]
fn induction_on_the_circuit(rt: HostRuntime) -> Result<(), Fail> {
    let mut circuit = circuit::smallest();
    assert!(rt; circuit.set(HEADER, &AREA).is_ok());
    assert_eq!(rt; induction_questions(1), 2);
    assert!(rt; induction_question(1, 2).is_none());
    let (mut literals, none) = ([0; 8], Stack::default());
    let base = induction_question(1, 0).ok_or("no base")?;
    let list = InductionList::new(&circuit, 1, base);
    assert_eq!(rt; list.count(&literals, &[]), 13);
    assert!(rt;
        has(&list, 9, &[4, 7, 12], none, &mut literals, &[]),
        "a clause of the circuit"
    );
    assert!(rt; has(&list, 10, &[5], none, &mut literals, &[]), "the start");
    assert!(rt; has(&list, 12, &[6], none, &mut literals, &[]), "the rule");
    assert!(rt;
        !has(&list, 13, &[6], none, &mut literals, &[]),
        "past the end"
    );
    let last = induction_question(1, 1).ok_or("no last question")?;
    let list = InductionList::new(&circuit, 1, last);
    assert_eq!(rt; list.count(&literals, &[]), 26);
    assert!(rt;
        has(&list, 19, &[18, 21, 26], none, &mut literals, &[]),
        "moved to frame 1"
    );
    assert!(rt; has(&list, 20, &[9, 19], none, &mut literals, &[]), "a tie");
    assert!(rt;
        has(&list, 24, &[7], none, &mut literals, &[]),
        "unbroken before"
    );
    assert!(rt;
        has(&list, 25, &[20], none, &mut literals, &[]),
        "broken at last"
    );
    Ok(())
}

#[test]
fn trace_on_the_circuit(rt: HostRuntime) -> Result<(), Fail> {
    let mut circuit = circuit::smallest();
    assert!(rt; circuit.set(HEADER, &AREA).is_ok());
    let (mut literals, mut spans) = ([0; 12], [Span::default(); 3]);
    let mut cursor = Cursor::new(&TRACE);
    let opening = open(&circuit, &mut cursor, &mut literals, &mut spans).map_err(|_| "not opened")?;
    let frames = opening.frames;
    let used = frames.literals();
    assert_eq!(rt; trace_questions(&frames), 4);
    assert!(rt; trace_question(&frames, 4).is_none());
    let step = trace_question(&frames, 0).ok_or("no step")?;
    let list = TraceList::new(&circuit, &frames, 1, step);
    assert_eq!(rt; list.count(&literals, &spans), 28);
    assert!(rt;
        has(&list, 25, &[7], used, &mut literals, &spans),
        "the first frame"
    );
    assert!(rt;
        has(&list, 26, &[18], used, &mut literals, &spans),
        "a denial"
    );
    assert!(rt;
        has(&list, 27, &[20], used, &mut literals, &spans),
        "the other denial"
    );
    let safe = trace_question(&frames, 2).ok_or("no safety")?;
    let list = TraceList::new(&circuit, &frames, 1, safe);
    assert_eq!(rt; list.count(&literals, &spans), 12);
    assert!(rt;
        has(&list, 10, &[5, 7], used, &mut literals, &spans),
        "the second frame"
    );
    assert!(rt;
        has(&list, 11, &[6], used, &mut literals, &spans),
        "the rule"
    );
    let closing = trace_question(&frames, 3).ok_or("no closing")?;
    let list = TraceList::new(&circuit, &frames, 1, closing);
    assert_eq!(rt; list.count(&literals, &spans), 4);
    assert!(rt;
        has(&list, 0, &[5, 7], used, &mut literals, &spans),
        "the last frame"
    );
    assert!(rt;
        has(&list, 1, &[14, 16], used, &mut literals, &spans),
        "selectors"
    );
    assert!(rt;
        has(&list, 3, &[6, 17], used, &mut literals, &spans),
        "a selected clause"
    );
    Ok(())
}

#[test]
fn questions_on_the_table(rt: HostRuntime) -> Result<(), Fail> {
    let mut table = step_table::smallest();
    assert!(rt; table.read(&TABLE).is_ok());
    let (mut literals, mut spans) = ([0; 8], [Span::default(); 1]);
    let mut cursor = Cursor::new(&SMALL);
    let opening = open(&table, &mut cursor, &mut literals, &mut spans).map_err(|_| "not opened")?;
    let frames = opening.frames;
    let used = frames.literals();
    assert_eq!(rt; trace_questions(&frames), 3);
    let closing = trace_question(&frames, 2).ok_or("no closing")?;
    let list = TraceList::new(&table, &frames, 0, closing);
    assert_eq!(rt; list.count(&literals, &spans), 2);
    assert!(rt;
        has(&list, 0, &[18], used, &mut literals, &spans),
        "the selector"
    );
    assert!(rt;
        has(&list, 1, &[4, 19], used, &mut literals, &spans),
        "a selected clause"
    );
    let last = induction_question(1, 1).ok_or("no last question")?;
    let list = InductionList::new(&table, 0, last);
    assert_eq!(rt; list.count(&literals, &spans), 46);
    assert!(rt;
        has(&list, 18, &[3, 5, 12], used, &mut literals, &spans),
        "a row's clause"
    );
    assert!(rt;
        has(&list, 45, &[34], used, &mut literals, &spans),
        "broken at last"
    );
    Ok(())
}
