// What the notice counts, beside what the stock and the mutual rule do.
use super::Notice;
use limits::{LimitRule, Mutual, Stock};
use modules::Sheet;
use refusals::Refusal;
use std::test::Fail;

fn sheet_of(uncapped: i64, capped: [u64; 6]) -> Result<Sheet, Refusal> {
    let mut sheet = Sheet::new();
    sheet.set_uncapped(uncapped);
    for (bin, total) in (2..=7).zip(capped) {
        sheet.set_capped(bin, total)?;
    }
    Ok(sheet)
}

// At required capital 100, by the stock rule and the notice's, and by the mutual rule and the notice's.
fn counted(sheet: &Sheet) -> Result<[u128; 4], Refusal> {
    let stock = Stock {
        loss_absorption: false,
    };
    Ok([
        stock.counted(sheet, 100)?,
        Notice::Stock.counted(sheet, 100)?,
        Mutual.counted(sheet, 100)?,
        Notice::Mutual.counted(sheet, 100)?,
    ])
}

// At required capital 100: 10 units, limited Tier 1 of 12, paid Tier 2 of 5, unpaid of 30, and pension assets of 8.
// The stock rule counts 10 unpaid units, and drops 2 of limited Tier 1.
#[test]
fn unpaid_and_excess(rt: HostRuntime) -> Result<(), Fail> {
    let sheet = sheet_of(10, [12, 5, 30, 8, 0, 0])?;
    assert_eq!(rt; counted(&sheet)?, [39, 31, 41, 41]);
    Ok(())
}

// Where the limit of Tier 2 binds, the notice has no room for the basket, of 15.
#[test]
fn basket_within_the_limit(rt: HostRuntime) -> Result<(), Fail> {
    let sheet = sheet_of(10, [40, 60, 0, 20, 5, 50])?;
    assert_eq!(rt; counted(&sheet)?, [85, 70, 85, 70]);
    Ok(())
}

// Of limited Tier 1 the stock rule drops 20, for which the notice has room in Tier 2.
#[test]
fn excess_in_tier_two(rt: HostRuntime) -> Result<(), Fail> {
    let sheet = sheet_of(150, [30, 20, 0, 0, 0, 0])?;
    assert_eq!(rt; counted(&sheet)?, [180, 200, 200, 200]);
    Ok(())
}

// Sheets are the same where every total is: bin 1, a capped bin and a line tell them apart.
#[test]
fn same_sheets(rt: HostRuntime) -> Result<(), Fail> {
    let sheet = sheet_of(10, [12, 5, 30, 8, 0, 0])?;
    assert!(rt; sheet.same_as(&sheet_of(10, [12, 5, 30, 8, 0, 0])?));
    assert!(rt; !sheet.same_as(&sheet_of(11, [12, 5, 30, 8, 0, 0])?));
    assert!(rt; !sheet.same_as(&sheet_of(10, [12, 5, 30, 8, 0, 1])?));
    let mut other = sheet;
    other.set_total(29, 1)?;
    assert!(rt; !sheet.same_as(&other));
    Ok(())
}

#[test]
fn below_0(rt: HostRuntime) -> Result<(), Fail> {
    let sheet = sheet_of(-1, [9, 9, 9, 9, 9, 9])?;
    assert_eq!(rt;
        Notice::Stock.counted(&sheet, 100),
        Err(Refusal::UncappedBelowZero)
    );
    assert_eq!(rt;
        Notice::Mutual.counted(&sheet, 0),
        Err(Refusal::UncappedBelowZero)
    );
    Ok(())
}
