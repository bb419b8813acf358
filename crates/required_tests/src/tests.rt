// Each case of the table, with a line as the module that charges.
mod table;

use modules::{Line, Sheet};
use refusals::Refusal;
use required::{Business, Required, Settings, required_capital};
use std::test::Fail;
use table::{ANSWERED, REFUSED};

// A row of the table: what line 1 charges, and the twelve settings in order. Rows of names would be four times as long.
fn given(row: &[i64; 13]) -> (u64, Settings) {
    let [
        charge,
        life_premium,
        last_life_premium,
        life_estimate,
        life_without_risk,
        non_life_premium,
        last_non_life_premium,
        non_life_estimate,
        tax_rate,
        carry_back_refund,
        profit,
        net_deferred_tax,
        management_deduction,
    ] = *row;
    let settings = Settings {
        life: Business {
            premium: life_premium,
            last_premium: last_life_premium,
            estimate: life_estimate,
        },
        life_without_risk,
        non_life: Business {
            premium: non_life_premium,
            last_premium: last_non_life_premium,
            estimate: non_life_estimate,
        },
        tax_rate,
        carry_back_refund,
        profit,
        net_deferred_tax,
        management_deduction,
    };
    (charge.unsigned_abs(), settings)
}

fn answer_to(charge: u64, settings: &Settings) -> Result<Required, Refusal> {
    let mut sheet = Sheet::new();
    sheet.set_total(1, charge.saturating_mul(10_000))?;
    required_capital(&Line::new(1)?, &sheet, settings)
}

#[test]
fn answered(rt: HostRuntime) -> Result<(), Fail> {
    for (row, [operational, tax_effect, required]) in ANSWERED.iter() {
        let (charge, settings) = given(row);
        let expected = Required {
            charge,
            operational: *operational,
            tax_effect: *tax_effect,
            required: *required,
            roundings: 1,
        };
        assert_eq!(rt; answer_to(charge, &settings)?, expected);
    }
    Ok(())
}

#[test]
fn refused(rt: HostRuntime) -> Result<(), Fail> {
    for (row, number) in REFUSED.iter() {
        let (charge, settings) = given(row);
        let refused = answer_to(charge, &settings).map_err(|refusal| refusal.number());
        assert_eq!(rt; refused, Err(*number));
    }
    Ok(())
}
