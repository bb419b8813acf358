// The limit rule of a mutual company.
ghost use Rattle.std.specs.Prelude.{◌≡◌};
ghost use Rattle.limits.specs.Capital.{bins_of};
ghost use Rattle.limits.specs.Limits.{mutual_capital};
ghost use Rattle.limits.specs.Counting.{mutual_counts};
ghost use Rattle.std.proofs.Common.{rules};

use crate::{Bins, LimitRule};
use modules::Sheet;
use refusals::Refusal;

#[derive(Clone, Copy)]
pub struct Mutual;

impl LimitRule for Mutual {
    ghost scale = { λ _. 100 };

    ghost capital = { λ _ s. mutual_capital (bins_of s) };

    ghost scaled = { Prim.search rules };

    ghost counts = { λ m s standing. mutual_counts s };

    fn counted(&self, sheet: &Sheet, required: u64) -> Result<u128, Refusal> {
        let bins = Bins::of(sheet)?;
        let most_tier_two = 60 * u128::from(required) - bins.tier_one(30, required);
        Ok(bins.counted(30, most_tier_two, required))
    }
}
