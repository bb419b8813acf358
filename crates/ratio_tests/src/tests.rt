// Each case of the table under every rule, and what the table cannot hold.
mod table;
mod tower;

use limits::{LimitRule, Mutual, Stock};
use modules::{Line, Sheet};
use ratio::{Solvency, SupervisoryClass, ratio};
use refusals::Refusal;
use required::{Business, Settings};
use std::process::Abort;
use std::test::Fail;
use table::{ANSWERED, REFUSED, Rated};
use tower::Tower;

const STOCK: Stock = Stock {
    loss_absorption: false,
};

const ABSORBING: Stock = Stock {
    loss_absorption: true,
};

// No business, so that required capital is the charge, less the deduction and at most the refund.
fn settings_of(tax_rate: i64, refund: i64, deduction: i64) -> Settings {
    let none = Business {
        premium: 0,
        last_premium: 0,
        estimate: 0,
    };
    Settings {
        life: none,
        life_without_risk: 0,
        non_life: none,
        tax_rate,
        carry_back_refund: refund,
        profit: 0,
        net_deferred_tax: 0,
        management_deduction: deduction,
    }
}

// The total of line 1, and bins 1 to 7.
fn sheet_of(total: u64, uncapped: i64, capped: [u64; 6]) -> Result<Sheet, Refusal> {
    let mut sheet = Sheet::new();
    sheet.set_total(1, total)?;
    sheet.set_uncapped(uncapped);
    for (bin, amount) in (2..=7).zip(capped) {
        sheet.set_capped(bin, amount)?;
    }
    Ok(sheet)
}

// A row of the table under a rule.
fn answer_to<R: LimitRule>(rule: &R, row: &[i64; 11]) -> Result<Solvency, Refusal> {
    let [
        total,
        tax_rate,
        refund,
        deduction,
        uncapped,
        b2,
        b3,
        b4,
        b5,
        b6,
        b7,
    ] = *row;
    let capped = [b2, b3, b4, b5, b6, b7].map(|amount| amount.unsigned_abs());
    let sheet = sheet_of(total.unsigned_abs(), uncapped, capped)?;
    ratio(
        &Line::new(1)?,
        rule,
        &sheet,
        &settings_of(tax_rate, refund, deduction),
    )
}

fn check_answer(
    rt: &impl Abort,
    answer: Result<Solvency, Refusal>,
    (ratio, class): Rated,
) -> Result<(), Fail> {
    assert_eq!(rt; answer?, Solvency { ratio, class });
    Ok(())
}

fn check_refused(
    rt: &impl Abort,
    answer: Result<Solvency, Refusal>,
    number: u8,
) -> Result<(), Fail> {
    let refused = answer.map_err(|refusal| refusal.number());
    assert_eq!(rt; refused, Err(number));
    Ok(())
}

#[test]
fn answered(rt: HostRuntime) -> Result<(), Fail> {
    for (row, stock, absorbing, mutual) in ANSWERED.iter() {
        check_answer(&rt, answer_to(&STOCK, row), *stock)?;
        check_answer(&rt, answer_to(&ABSORBING, row), *absorbing)?;
        check_answer(&rt, answer_to(&Mutual, row), *mutual)?;
    }
    Ok(())
}

#[test]
fn refused(rt: HostRuntime) -> Result<(), Fail> {
    for (row, number) in REFUSED.iter() {
        check_refused(&rt, answer_to(&STOCK, row), *number)?;
        check_refused(&rt, answer_to(&ABSORBING, row), *number)?;
        check_refused(&rt, answer_to(&Mutual, row), *number)?;
    }
    Ok(())
}

// Totals at the end of their types. Of bins 2 to 7 no more than 0.1, 0.5 and 0.15 counts where 1 is required,
// and 30%, 30% and 15% of it where 250,000,000 are.
#[test]
fn largest_totals(rt: HostRuntime) -> Result<(), Fail> {
    let settings = settings_of(0, 0, 0);
    let line = Line::new(1)?;
    let small = sheet_of(1, i64::MAX, [u64::MAX; 6])?;
    check_answer(
        &rt,
        ratio(&line, &STOCK, &small, &settings),
        (92_233_720_368_547_758_070_000, SupervisoryClass::NoAction),
    )?;
    let large = sheet_of(2_500_000_000_000, 0, [u64::MAX; 6])?;
    check_answer(
        &rt,
        ratio(&line, &Mutual, &large, &settings),
        (7_500, SupervisoryClass::First),
    )
}

// Too many roundings come behind a setting and the gross, and before what is required.
#[test]
fn too_many_roundings(rt: HostRuntime) -> Result<(), Fail> {
    let settings = settings_of(0, 0, 0);
    let empty = sheet_of(0, -1, [0; 6])?;
    check_refused(&rt, ratio(&Tower, &STOCK, &empty, &settings), 28)?;
    check_refused(
        &rt,
        ratio(&Tower, &STOCK, &empty, &settings_of(-1, 0, 0)),
        31,
    )?;
    let full = sheet_of(2_500_000_000_000, -1, [0; 6])?;
    check_refused(&rt, ratio(&Tower, &Mutual, &full, &settings), 27)
}
