use super::*;
use std::test::Fail;

const HEADER: Header = Header {
    maximum: 6,
    inputs: 1,
    latches: 2,
    outputs: 2,
    gates: 3,
};

static AREA: [u32; 10] = [9, 10, 12, 6, 5, 3, 4, 2, 6, 5];

#[test]
fn sets_only_lawful_numbers(rt: HostRuntime) {
    let mut circuit = smallest();
    assert_eq!(rt;
        circuit
            .set(HEADER, &AREA[0..9])
            .map_err(|refusal| refusal.fault.number()),
        Err(14)
    );
    assert_eq!(rt;
        circuit
            .set(HEADER, &[9, 10, 12, 6, 3, 5, 4, 2, 6, 5])
            .map_err(|refusal| refusal.fault.number()),
        Err(17)
    );
    assert_eq!(rt; circuit.variables(), 1, "the smallest circuit stays");
    assert_eq!(rt; circuit.set(HEADER, &AREA), Ok(()));
    assert_eq!(rt; circuit.variables(), 7);
}

#[test]
fn answers_clauses_and_literals(rt: HostRuntime) -> Result<(), Fail> {
    let mut circuit = smallest();
    assert_eq!(rt; circuit.set(HEADER, &AREA), Ok(()));
    let clause = circuit.clause(9).ok_or_else(|| Fail::new("no clause 9"))?;
    assert_eq!(rt; clause.as_slice(), [4, 7, 12].as_slice());
    assert!(rt; circuit.clause(10).is_none());
    assert_eq!(rt; circuit.next_literal(0), Some(9));
    assert_eq!(rt; circuit.rule_literal(1), Some(6));
    assert_eq!(rt; circuit.rule_literal(2), None);
    Ok(())
}

#[test]
fn fills_a_row_or_leaves_it(rt: HostRuntime) {
    let mut circuit = smallest();
    assert_eq!(rt; circuit.set(HEADER, &AREA), Ok(()));
    let mut row = [9, 1, 0, 1, 7, 7, 7, 42];
    assert!(rt; circuit.fill(&mut row).is_ok());
    assert_eq!(rt; &row, &[0, 1, 0, 1, 0, 0, 1, 42]);
    let mut short = [9, 1, 0, 1, 7, 7];
    assert!(rt; circuit.fill(&mut short).is_err());
    assert_eq!(rt; &short, &[9, 1, 0, 1, 7, 7]);
    let mut wrong = [9, 2, 0, 1, 7, 7, 7];
    assert!(rt; circuit.fill(&mut wrong).is_err());
    assert_eq!(rt; &wrong, &[9, 2, 0, 1, 7, 7, 7]);
}
