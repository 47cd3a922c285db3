// Small refutations, and areas that are just long enough.
use super::{Step, refute};
use refusal::{DocketFault, Refusal, RefutationFault};
use resolution::{ClauseTable, Refutation};
use stack::{Span, Stack};
use std::test::Fail;

fn span(start: u32, length: u32) -> Span {
    Span { start, length }
}

// Resolves clauses 0 and 1 of a table; the areas stay.
fn resolvent(
    table: &ClauseTable,
    pivot: u32,
    literals: &mut [u32],
    spans: &mut [Span],
) -> Result<usize, RefutationFault> {
    let mut refutation = Refutation::above(Stack::default(), Stack::default());
    let _ = refutation.take(table, 0, literals, spans);
    let _ = refutation.take(table, 1, literals, spans);
    let made = refutation.resolve(0, 1, pivot, literals, spans);
    refutation.abandon();
    made
}

#[test]
fn on_a_literal_of_left(rt: HostRuntime) -> Result<(), Fail> {
    let clauses = [8u32, 18, 19];
    let places = [span(0, 2), span(2, 1)];
    let table = ClauseTable::new(&clauses, &places).ok_or("no table")?;
    let mut literals = [0u32; 4];
    let mut spans = [Span::default(); 3];
    assert_eq!(rt;
        resolvent(&table, 19, &mut literals, &mut spans),
        Err(RefutationFault::NoPivot)
    );
    assert_eq!(rt; resolvent(&table, 18, &mut literals, &mut spans), Ok(2));
    assert_eq!(rt; literals, [8, 18, 19, 8]);
    assert_eq!(rt; spans[2].start, 3);
    assert_eq!(rt; spans[2].length, 1);
    Ok(())
}

#[test]
fn one_entry_short(rt: HostRuntime) -> Result<(), Fail> {
    let clauses = [8u32, 18, 19];
    let places = [span(0, 2), span(2, 1)];
    let table = ClauseTable::new(&clauses, &places).ok_or("no table")?;
    assert_eq!(rt;
        resolvent(&table, 18, &mut [0; 3], &mut [Span::default(); 3]),
        Err(RefutationFault::Full)
    );
    assert_eq!(rt;
        resolvent(&table, 18, &mut [0; 4], &mut [Span::default(); 2]),
        Err(RefutationFault::Full)
    );
    Ok(())
}

#[test]
fn a_literal_of_both_once(rt: HostRuntime) -> Result<(), Fail> {
    let clauses = [4u32, 5, 9, 5, 11];
    let places = [span(0, 3), span(3, 2)];
    let table = ClauseTable::new(&clauses, &places).ok_or("no table")?;
    let mut literals = [0u32; 9];
    let mut spans = [Span::default(); 3];
    assert_eq!(rt; resolvent(&table, 4, &mut literals, &mut spans), Ok(2));
    assert_eq!(rt; literals, [4, 5, 9, 5, 11, 5, 9, 11, 0]);
    assert_eq!(rt; spans[2].length, 3);
    Ok(())
}

#[test]
fn whole_refutations(rt: HostRuntime) -> Result<(), Fail> {
    let clauses = [0u32, 1];
    let places = [span(0, 1), span(1, 1)];
    let table = ClauseTable::new(&clauses, &places).ok_or("no table")?;
    let steps = [
        Step::Take(0),
        Step::Take(1),
        Step::Resolve {
            left: 0,
            right: 1,
            pivot: 0,
        },
    ];
    let mut literals = [7u32; 2];
    let mut spans = [Span::default(); 3];
    assert_eq!(rt; refute(&table, &steps, &mut literals, &mut spans), Ok(3));
    assert_eq!(rt; literals, [0, 0]);
    assert_eq!(rt;
        refute(&table, &steps[0..2], &mut literals, &mut spans),
        Err(Refusal::Refutation(RefutationFault::NotRefuted))
    );
    assert_eq!(rt;
        refute(&table, &[Step::Take(2)], &mut literals, &mut spans),
        Err(Refusal::Refutation(RefutationFault::NoClause))
    );
    Ok(())
}

#[test]
fn no_clause_at_all(rt: HostRuntime) -> Result<(), Fail> {
    let table = ClauseTable::new(&[], &[]).ok_or("no table")?;
    let refusal = refute(&table, &[], &mut [], &mut [])
        .err()
        .ok_or("refuted")?;
    assert_eq!(rt; refusal.told().number, 29);
    Ok(())
}

#[test]
fn areas_too_long(rt: HostRuntime) -> Result<(), Fail> {
    let table = ClauseTable::new(&[], &[]).ok_or("no table")?;
    let mut spans = [Span::default(); 65537];
    assert_eq!(rt;
        refute(&table, &[], &mut [], &mut spans),
        Err(Refusal::Docket(DocketFault::UnfitArea))
    );
    Ok(())
}

fn is_table(literals: &[u32], span: Span) -> bool {
    ClauseTable::new(literals, &[span]).is_some()
}

#[test]
fn clauses_that_do_not_rise(rt: HostRuntime) {
    assert!(rt; is_table(&[4, 5], span(0, 2),));
    assert!(rt; !is_table(&[4, 4], span(0, 2),));
    assert!(rt; !is_table(&[4, 5], span(1, 2),));
}
