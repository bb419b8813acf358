// The limit rule of a stock company.
ghost use Rattle.std.specs.Prelude.{◌≡◌};
ghost use Rattle.limits.specs.Capital.{bins_of};
ghost use Rattle.limits.specs.Limits.{stock_capital};
ghost use Rattle.limits.specs.Counting.{stock_counts};
ghost use Rattle.std.proofs.Common.{rules};

use crate::{Bins, LimitRule};
use modules::Sheet;
use refusals::Refusal;

#[derive(Clone, Copy)]
pub struct Stock {
    // With it limited Tier 1 counts up to 15% of required capital, and without it up to 10%.
    pub loss_absorption: bool,
}

impl LimitRule for Stock {
    ghost scale = { λ _. 100 };

    ghost capital = { λ m s. stock_capital m.loss_absorption (bins_of s) };

    ghost scaled = { Prim.search rules };

    ghost counts = { λ m s standing. stock_counts m.loss_absorption s };

    fn counted(&self, sheet: &Sheet, required: u64) -> Result<u128, Refusal> {
        let percent = if self.loss_absorption { 15 } else { 10 };
        let most_tier_two = 50 * u128::from(required);
        Ok(Bins::of(sheet)?.counted(percent, most_tier_two, required))
    }
}
