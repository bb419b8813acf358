// The capital of a sheet, by its bins, and the parts of it that both rules count alike.
ghost use Rattle.std.specs.Prelude.{◌≡◌, ◌+◌, ◌*◌, ◌/◌, min};
ghost use Rattle.limits.specs.Capital.{unless_below, bins_of};
ghost use Rattle.limits.specs.Limits.{basket as basket_of, tier_one_counted, tier_two_counted};

use modules::Sheet;
use refusals::Refusal;

// Bins 1 to 7, in units.
#[derive(Clone, Copy)]
pub struct Bins {
    pub uncapped: u64,
    // Limited Tier 1.
    pub limited: u64,
    // Paid and unpaid Tier 2.
    pub paid: u64,
    pub unpaid: u64,
    // Pension assets, deferred tax assets and software.
    pub pension: u64,
    pub deferred: u64,
    pub software: u64,
}

impl Bins {
    // The bins of a sheet, unless bin 1 is below 0.
    pub fn of(sheet: &Sheet) -> Result<Bins, Refusal>
        ensures { result ≡ unless_below sheet.now.uncapped (bins_of sheet.now) }
    {
        let uncapped = u64::try_from(sheet.uncapped()).map_err(|_| Refusal::UncappedBelowZero)?;
        // By the numbers that the rule book gives the bins, each of which every sheet has.
        Ok(Bins {
            uncapped,
            limited: sheet.capped(2).unwrap_or(0),
            paid: sheet.capped(3).unwrap_or(0),
            unpaid: sheet.capped(4).unwrap_or(0),
            pension: sheet.capped(5).unwrap_or(0),
            deferred: sheet.capped(6).unwrap_or(0),
            software: sheet.capped(7).unwrap_or(0),
        })
    }

    // Limited Tier 1 up to so many percent of required capital, in hundredths of a unit.
    pub fn tier_one(&self, percent: u8, required: u64) -> u128
        ensures { result ≡ tier_one_counted percent self.now required 1 }
    {
        (100 * u128::from(self.limited)).min(u128::from(percent) * u128::from(required))
    }

    // Paid Tier 2, with unpaid Tier 2 up to 10% of required capital, in hundredths of a unit.
    pub fn tier_two(&self, required: u64) -> u128
        ensures { result ≡ tier_two_counted self.now required 1 }
    {
        100 * u128::from(self.paid) + (100 * u128::from(self.unpaid)).min(10 * u128::from(required))
    }

    // The other assets, weighted, up to 15% of required capital, in hundredths of a unit.
    pub fn basket(&self, required: u64) -> u128
        ensures { result ≡ basket_of self.now required 1 }
    {
        let weighted = 50 * u128::from(self.pension)
            + 100 * u128::from(self.deferred)
            + 10 * u128::from(self.software);
        weighted.min(15 * u128::from(required))
    }

    // Bin 1, limited Tier 1 up to so many percent of required capital, Tier 2 up to so many hundredths of a unit, and the
    // basket: in units, rounded down.
    pub(crate) fn counted(&self, percent: u8, most_tier_two: u128, required: u64) -> u128
        ensures { result ≡ (100 * self.now.uncapped + tier_one_counted percent self.now required 1 + min (tier_two_counted self.now required 1) most_tier_two + basket_of self.now required 1) / 100 }
    {
        let hundredths = 100 * u128::from(self.uncapped)
            + self.tier_one(percent, required)
            + self.tier_two(required).min(most_tier_two)
            + self.basket(required);
        hundredths / 100
    }
}
