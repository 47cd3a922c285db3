use super::*;
use std::test::Fail;

// One input, which turns the one state bit, and one rule, which turning it back breaks.
static TABLE: [u8; 33] =
    *b"\x01\x01\x01\x01\x02\0\0\0\0\0\0\x02\x01\0\0\0\0\0\x02\x01\0\0\0\0\0\x02\0\0\x01\0\0\0\x03";

#[test]
fn reads_a_table_or_leaves_it(rt: HostRuntime) {
    let mut table = smallest();
    assert_eq!(rt;
        table
            .read(&TABLE[0..32])
            .map_err(|refusal| refusal.fault.number()),
        Err(45)
    );
    assert_eq!(rt; table.variables(), 3, "the smallest table stays");
    assert_eq!(rt; table.read(&TABLE), Ok(()));
    assert_eq!(rt; table.variables(), 9);
    assert_eq!(rt; table.clauses(), 21);
}

#[test]
fn answers_clauses_and_literals(rt: HostRuntime) -> Result<(), Fail> {
    let mut table = smallest();
    assert_eq!(rt; table.read(&TABLE), Ok(()));
    let clause = table.clause(18).ok_or_else(|| Fail::new("no clause 18"))?;
    assert_eq!(rt; clause.as_slice(), [3, 5, 12].as_slice());
    assert!(rt; table.clause(21).is_none());
    assert_eq!(rt; table.start_bit(0), Some(false));
    assert_eq!(rt; table.next_literal(0), Some(14));
    assert_eq!(rt; table.rule_literal(0), Some(16));
    assert_eq!(rt; table.rule_literal(1), None);
    Ok(())
}

#[test]
fn fills_a_row_or_leaves_it(rt: HostRuntime) {
    let mut table = smallest();
    assert_eq!(rt; table.read(&TABLE), Ok(()));
    let mut row = [9, 1, 1, 7, 7, 7, 7, 7, 7, 42];
    assert!(rt; table.fill(&mut row).is_ok());
    assert_eq!(rt; &row, &[0, 1, 1, 0, 0, 0, 1, 0, 1, 42]);
    let mut short = [9, 1, 0, 7, 7, 7, 7, 7];
    assert!(rt; table.fill(&mut short).is_err());
    assert_eq!(rt; &short, &[9, 1, 0, 7, 7, 7, 7, 7]);
    let mut wrong = [9, 1, 2, 7, 7, 7, 7, 7, 7];
    assert!(rt; table.fill(&mut wrong).is_err());
    assert_eq!(rt; &wrong, &[9, 1, 2, 7, 7, 7, 7, 7, 7]);
}
