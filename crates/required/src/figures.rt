// Operational charge, tax effect and required capital at a charge.
ghost use Rattle.std.specs.Prelude.{◌≡◌, ◌^◌, ◌<◌, ◌≤◌};
ghost use Rattle.required.specs.Answers.{required_of};
ghost use Rattle.required.specs.Figures.{raw_charge_of, operational_charge_of, most_tax_effect, profit_share, asset_share, recoverable_tax_of};

use crate::Required;
use crate::business::{RatedBusiness, at_least_zero};
use crate::ranges::InRange;

// A charge and its operational charge together.
#[derive(Clone, Copy)]
struct Sum {
    units: u64,
    ghost small: { units < 2 ^ 33 },
}

impl InRange {
    // In hundred-thousandths of a unit.
    #[tactic(auto, unfolding(crate::specs::Figures::raw_charge_of))]
    fn raw_charge(&self) -> u64
        ensures value { result ≡ raw_charge_of self.now.settings }
        ensures bound { result ≤ 20000000000000 }
    {
        let life = RatedBusiness {
            business: self.settings.life,
            premium_rate: 400,
            estimate_rate: 45,
        }
        .part();
        let life_without_risk = 10 * (40 * at_least_zero(self.settings.life_without_risk));
        let non_life = RatedBusiness {
            business: self.settings.non_life,
            premium_rate: 275,
            estimate_rate: 275,
        }
        .part();
        life + life_without_risk + non_life
    }

    #[tactic(auto, unfolding(crate::specs::Figures::operational_charge_of))]
    fn operational_charge(&self, charge: u32) -> u64
        ensures value { result ≡ operational_charge_of self.now.settings charge }
        ensures bound { result ≤ charge }
    {
        let fifth = 20_000 * u64::from(charge);
        self.raw_charge().min(fifth).div_ceil(100_000)
    }

    // 80% of the tax on a sum.
    fn most_tax(&self, sum: Sum) -> u64
        ensures { result ≡ most_tax_effect self.now.settings sum.units }
    {
        8 * at_least_zero(self.settings.tax_rate) * sum.units / 100_000
    }

    // The tax on half the profit.
    fn profit_part(&self) -> u64
        ensures value { result ≡ profit_share self.now.settings }
        ensures bound { result ≤ 500000000 }
    {
        at_least_zero(self.settings.profit) * at_least_zero(self.settings.tax_rate) / 20_000
    }

    // What net deferred tax assets take away, beside a sum.
    fn asset_part(&self, sum: Sum) -> u64
        ensures { result ≡ asset_share self.now.settings sum.units }
    {
        let assets = self.settings.net_deferred_tax.min(0).unsigned_abs();
        assets.min((15 * sum.units).div_ceil(100))
    }

    // What can be recovered, beside a sum.
    fn recoverable_tax(&self, sum: Sum) -> u64
        ensures { result ≡ recoverable_tax_of self.now.settings sum.units }
    {
        let refund = at_least_zero(self.settings.carry_back_refund);
        let liabilities = at_least_zero(self.settings.net_deferred_tax);
        (refund + self.profit_part() + liabilities).saturating_sub(self.asset_part(sum))
    }

    // All figures at a charge.
    #[tactic(auto, unfolding(crate::specs::Figures::tax_effect_of))]
    pub(crate) fn required_at(&self, charge: u32, roundings: u32) -> Required
        ensures { result ≡ required_of self.now.settings charge roundings }
    {
        let operational = self.operational_charge(charge);
        let sum = Sum {
            units: u64::from(charge) + operational,
        };
        let tax_effect = self.most_tax(sum).min(self.recoverable_tax(sum));
        let deduction = at_least_zero(self.settings.management_deduction);
        Required {
            charge: u64::from(charge),
            operational,
            tax_effect,
            required: sum
                .units
                .saturating_sub(deduction)
                .saturating_sub(tax_effect),
            roundings,
        }
    }
}
