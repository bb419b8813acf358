// What a business adds to the operational charge.
ghost use Rattle.std.specs.Prelude.{◌≡◌, ◌≤◌, true};
ghost use Rattle.required.specs.Figures.{at_least_0, business_part};
ghost use Rattle.required.specs.Ranges.{business_in};

use crate::Business;

// A number, or 0 where it is negative.
pub(crate) fn at_least_zero(value: i64) -> u64
    ensures { result ≡ at_least_0 value }
{
    value.max(0).unsigned_abs()
}

// A business in range, with the rates of its premium and its estimate in ten-thousandths.
#[derive(Clone, Copy)]
pub(crate) struct RatedBusiness {
    pub(crate) business: Business,
    pub(crate) premium_rate: u64,
    pub(crate) estimate_rate: u64,
    ghost in_range: { business_in business ≡ true },
    ghost rates: { (premium_rate ≤ 400) × (estimate_rate ≤ 400) },
}

impl RatedBusiness {
    // In hundred-thousandths of a unit.
    #[tactic(auto, unfolding(crate::specs::Figures::business_part))]
    pub(crate) fn part(&self) -> u64
        ensures value { result ≡ business_part self.now.premium_rate self.now.estimate_rate self.now.business }
        ensures bound { result ≤ 8000000000000 }
    {
        let premium = at_least_zero(self.business.premium);
        let last = at_least_zero(self.business.last_premium);
        let estimate = at_least_zero(self.business.estimate);
        let volume = (self.premium_rate * premium).max(self.estimate_rate * estimate);
        let excess = (10 * premium).saturating_sub(12 * last);
        10 * volume + self.premium_rate * excess
    }
}
