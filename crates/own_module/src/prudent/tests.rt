// A unit more over a line, under a root, and at what is refused.
use super::{Prudent, one_more};
use correlation::Table;
use modules::{Branches, End, Line, RiskModule, Root, Sheet, price};
use refusals::Refusal;
use standard::standard;
use std::test::Fail;

// The charge, the gross and the roundings of a module.
fn priced<M: RiskModule>(module: &M, sheet: &Sheet) -> Result<(u32, u32, u32), Refusal> {
    let charge = price(module, sheet)?;
    Ok((charge.amount, charge.gross, charge.roundings))
}

// 123.4567 units round up to 124, and a unit more is charged. One rounding is the line's, the other its own.
#[test]
fn over_a_line(rt: HostRuntime) -> Result<(), Fail> {
    let mut sheet = Sheet::new();
    sheet.set_total(3, 1_234_567)?;
    let module = Prudent::new(Line::new(3)?);
    assert_eq!(rt; priced(&module, &sheet)?, (125, 124, 2));
    Ok(())
}

// 2 units and one more are 3, and the root of 3 and 4 that do not go together is 5.
// The roundings are one for each line, its own, and the root's.
#[test]
fn under_a_root(rt: HostRuntime) -> Result<(), Fail> {
    let mut sheet = Sheet::new();
    sheet.set_total(1, 20_000)?;
    sheet.set_total(2, 40_000)?;
    let branches = (Prudent::new(Line::new(1)?), (Line::new(2)?, End));
    let root = Root::new(Table::new(2)?, branches)?;
    assert_eq!(rt; priced(&root, &sheet)?, (5, 6, 4));
    Ok(())
}

// 30 units and one more are all that the standard tree has to aggregate.
// The roundings are its own 20, those of the two lines, and one more.
#[test]
fn under_the_standard_tree(rt: HostRuntime) -> Result<(), Fail> {
    let mut sheet = Sheet::new();
    sheet.set_total(2, 300_000)?;
    let tree = standard(Prudent::new(Line::new(2)?), Line::new(10)?);
    assert_eq!(rt; priced(&tree, &sheet)?, (31, 30, 23));
    Ok(())
}

// A question changes nothing, so it has the same answer again.
#[test]
fn asked_twice(rt: HostRuntime) -> Result<(), Fail> {
    let mut sheet = Sheet::new();
    sheet.set_total(29, 70_001)?;
    let module = Prudent::new(Line::new(29)?);
    for _ in 0..2 {
        assert_eq!(rt; module.gross(&sheet)?, 8);
        assert_eq!(rt; module.roundings(&sheet)?, 2);
        assert_eq!(rt; priced(&module, &sheet)?, (9, 8, 2));
        assert_eq!(rt; sheet.total(29), Some(70_001));
    }
    Ok(())
}

// A gross of 250,000,001 is refused, and a thousand roundings leave no room for one more.
#[test]
fn refused(rt: HostRuntime) -> Result<(), Fail> {
    let mut sheet = Sheet::new();
    sheet.set_total(1, 2_500_000_000_001)?;
    let module = Prudent::new(Line::new(1)?);
    assert_eq!(rt; module.gross(&sheet), Err(Refusal::GrossTooLarge));
    assert_eq!(rt; priced(&module, &sheet), Err(Refusal::GrossTooLarge));
    assert_eq!(rt; one_more(999), Ok(1_000));
    assert_eq!(rt; one_more(1_000), Err(Refusal::TooManyRoundings));
    Ok(())
}
