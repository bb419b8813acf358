// A limit rule that is none of the book's: capital as the regulator's notice counts it.
// How it differs from the stock and the mutual rule, and which way these err, is in docs/LIMITS.md.
//
// Whoever brings a rule writes:
// - `scale`, in how many parts of a unit it counts, and `capital`, what it counts at each sheet and required capital;
// - the law `scaled`: there is at least one part;
// - the law `counts`: never more than all bins together, and no more for each unit as required capital rises;
// - the question `counted`, answered by these.
// The lemma behind `counts` stands in specs/Noticed.antt; the check finds the rest by itself.
ghost use Rattle.std.specs.Prelude.{◌≡◌};
ghost use Rattle.limits.specs.Capital.{bins_of};
ghost use Rattle.own_module.specs.Notices.{notice_capital};
ghost use Rattle.own_module.specs.Noticed.{noticed_counts};
ghost use Rattle.std.proofs.Common.{rules};

use limits::{Bins, LimitRule};
use modules::Sheet;
use refusals::Refusal;

#[cfg(test)]
mod tests;

// By the kind of company.
#[derive(Clone, Copy)]
pub enum Notice {
    Stock,
    Mutual,
}

impl LimitRule for Notice {
    ghost scale = { λ _. 100 };

    ghost capital = { λ m s. notice_capital m (bins_of s) };

    ghost scaled = { Prim.search rules };

    ghost counts = { λ m s standing. noticed_counts m s };

    fn counted(&self, sheet: &Sheet, required: u64) -> Result<u128, Refusal> {
        let bins = Bins::of(sheet)?;
        let r = u128::from(required);
        let (tier_one, tier_two, most) = match self {
            Notice::Stock => (
                bins.tier_one(10, required),
                100 * u128::from(bins.paid),
                50 * r,
            ),
            Notice::Mutual => {
                let tier_one = bins.tier_one(30, required);
                (tier_one, bins.tier_two(required), 60 * r - tier_one)
            }
        };
        // Not the sum of the book's two rules, which one call would serve: here the basket stands within the limit of Tier 2.
        let excess = 100 * u128::from(bins.limited) - tier_one;
        let tier_two = (tier_two + excess + bins.basket(required)).min(most);
        Ok((100 * u128::from(bins.uncapped) + tier_one + tier_two) / 100)
    }
}
