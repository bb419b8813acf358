// The worked figures of the rule book: a theorem over their list, and the same through the calls.
#![tactic(auto)]

ghost use Rattle.figures.specs.Figures.{Holds, figures};
ghost use Rattle.std.specs.List.{AllByRecursion};

// Every worked figure holds.
pub fn figures_hold()
    ensures { AllByRecursion Holds figures }
{}

#[cfg(test)]
mod tests {
    use correlation::Table;
    use limits::{Mutual, Stock};
    use modules::{Line, Sheet};
    use ratio::{SupervisoryClass, ratio};
    use required::{Business, Required, Settings, required_capital};
    use std::test::Fail;

    #[test]
    fn three_branches(rt: HostRuntime) -> Result<(), Fail> {
        let mut table = Table::new(3)?;
        table.replace_above(3, &[0, 70, 70])?;
        assert_eq!(rt; table.entry(2, 0), Some(70));
        let refused = table
            .replace_above(3, &[0, 71, 71])
            .map_err(|refusal| refusal.number());
        assert_eq!(rt; refused, Err(24));
        Ok(())
    }

    #[test]
    fn three_and_four(rt: HostRuntime) -> Result<(), Fail> {
        let table = Table::new(2)?;
        assert_eq!(rt; table.root(&[300, 400])?, 500);
        Ok(())
    }

    // With no business but life with risk, and this net deferred tax.
    fn worked(net_deferred_tax: i64) -> Settings {
        let none = Business {
            premium: 0,
            last_premium: 0,
            estimate: 0,
        };
        Settings {
            life: Business {
                premium: 1_000,
                last_premium: 800,
                estimate: 5_000,
            },
            life_without_risk: 0,
            non_life: none,
            tax_rate: 2_800,
            carry_back_refund: 10,
            profit: 100,
            net_deferred_tax,
            management_deduction: 0,
        }
    }

    // A line of 158.0001 units charges 159.
    #[test]
    fn required_at_159(rt: HostRuntime) -> Result<(), Fail> {
        let mut sheet = Sheet::new();
        sheet.set_total(1, 1_580_001)?;
        let module = Line::new(1)?;
        let mut expected = Required {
            charge: 159,
            operational: 32,
            tax_effect: 24,
            required: 167,
            roundings: 1,
        };
        assert_eq!(rt; required_capital(&module, &sheet, &worked(0))?, expected);
        expected.tax_effect = 0;
        expected.required = 191;
        assert_eq!(rt; required_capital(&module, &sheet, &worked(-50))?, expected);
        Ok(())
    }

    // Against the same 167.
    #[test]
    fn stock_and_mutual(rt: HostRuntime) -> Result<(), Fail> {
        let mut sheet = Sheet::new();
        sheet.set_total(1, 1_580_001)?;
        sheet.set_uncapped(150);
        sheet.set_capped(2, 30)?;
        sheet.set_capped(3, 60)?;
        let module = Line::new(1)?;
        let stock = Stock {
            loss_absorption: false,
        };
        assert_eq!(rt; ratio(&module, &stock, &sheet, &worked(0))?.ratio, 13_532);
        assert_eq!(rt; ratio(&module, &Mutual, &sheet, &worked(0))?.ratio, 14_371);
        assert_eq!(rt; SupervisoryClass::of(9_999), SupervisoryClass::First);
        Ok(())
    }
}
