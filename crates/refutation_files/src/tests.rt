use super::*;
use refute::Step;
use std::test::Fail;

// The clauses {8, 18} and {19}, then the empty one; a file of no bytes has no clause.
#[test]
fn clauses_are_read(rt: HostRuntime) -> Result<(), Fail> {
    let bytes = [2, 8, 0, 0, 0, 2, 18, 0, 0, 0, 3, 2, 19, 0, 0, 0, 3, 3];
    let file = read_clauses(rt.alloc(), &bytes).ok().ok_or("refused")?;
    assert!(rt; file.literals.as_slice() == [8, 18, 19].as_slice());
    assert!(rt; file.spans.len() == 3);
    assert_eq!(rt; file.spans[0].length, 2);
    assert_eq!(rt; file.spans[1].start, 2);
    assert_eq!(rt; file.spans[2].length, 0);
    let none = read_clauses(rt.alloc(), &[]).ok().ok_or("refused")?;
    assert_eq!(rt; none.spans.len(), 0);
    Ok(())
}

// A literal twice, a clause without its end, another kind, a cut literal.
#[test]
fn clauses_are_refused(rt: HostRuntime) -> Result<(), Fail> {
    let falling = [2, 8, 0, 0, 0, 2, 8, 0, 0, 0, 3];
    assert_eq!(rt;
        read_clauses(rt.alloc(), &falling).err(),
        Some(Unproved::NotAClauseList)
    );
    let unfinished = [2, 8, 0, 0, 0, 3, 2, 18, 0, 0, 0];
    assert_eq!(rt;
        read_clauses(rt.alloc(), &unfinished).err(),
        Some(Unproved::NotAClauseList)
    );
    assert_eq!(rt;
        read_clauses(rt.alloc(), &[3, 4]).err(),
        Some(Unproved::NotAClauseList)
    );
    assert_eq!(rt;
        read_clauses(rt.alloc(), &[2, 8, 0, 0]).err(),
        Some(Unproved::NotAClauseList)
    );
    Ok(())
}

// Take 0, take 1, resolve them, and the end; the same with a byte after it; the same cut in the last step.
#[test]
fn steps_are_read(rt: HostRuntime) -> Result<(), Fail> {
    let bytes = [
        5, 0, 0, 0, 0, 5, 1, 0, 0, 0, 6, 0, 0, 0, 0, 1, 0, 0, 0, 18, 0, 0, 0, 7, 7,
    ];
    let whole = read_steps(rt.alloc(), &bytes[0..24])?;
    assert_eq!(rt; whole.ending, Ending::Whole);
    assert!(rt; whole.steps.len() == 3);
    assert_eq!(rt; whole.steps[1], Step::Take(1));
    let last = Step::Resolve {
        left: 0,
        right: 1,
        pivot: 18,
    };
    assert_eq!(rt; whole.steps[2], last);
    assert_eq!(rt; read_steps(rt.alloc(), &bytes)?.ending, Ending::More);
    let cut = read_steps(rt.alloc(), &bytes[0..22])?;
    assert_eq!(rt; cut.ending, Ending::Cut);
    assert_eq!(rt; cut.steps.len(), 2);
    Ok(())
}
