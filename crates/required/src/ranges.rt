// Whether settings are in range, and settings that are.
ghost use Rattle.std.specs.Prelude.{◌≡◌, true, false, IfOk, IfErr};
ghost use Rattle.refusals.specs.declared.Refusal.TheVariants.{SettingOutOfRange};
ghost use Rattle.required.specs.Ranges.{amount_in, signed_in, business_in, tax_in, settings_in};

use crate::{Business, Settings};
use refusals::Refusal;

// No amount is larger, either way.
const MOST: i64 = 1_000_000_000;

const MOST_RATE: i64 = 10_000;

// An amount that is not below 0.
fn amount(value: i64) -> bool
    ensures { result ≡ amount_in value }
{
    (0..=MOST).contains(&value)
}

// An amount of either sign.
fn signed(value: i64) -> bool
    ensures { result ≡ signed_in value }
{
    (-MOST..=MOST).contains(&value)
}

impl Business {
    fn in_range(&self) -> bool
        ensures { result ≡ business_in self.now }
    {
        amount(self.premium) && amount(self.last_premium) && signed(self.estimate)
    }
}

impl Settings {
    // Those of the tax effect.
    fn tax_in_range(&self) -> bool
        ensures { result ≡ tax_in self.now }
    {
        (0..=MOST_RATE).contains(&self.tax_rate)
            && amount(self.carry_back_refund)
            && signed(self.profit)
            && signed(self.net_deferred_tax)
    }

    fn in_range(&self) -> bool
        ensures { result ≡ settings_in self.now }
    {
        self.life.in_range()
            && signed(self.life_without_risk)
            && self.non_life.in_range()
            && self.tax_in_range()
            && amount(self.management_deduction)
    }
}

// Settings of which each is in its range.
#[derive(Clone, Copy)]
pub(crate) struct InRange {
    pub(crate) settings: Settings,
    ghost in_range: { settings_in settings ≡ true },
}

impl InRange {
    // The settings, unless one is out of range. No `TryFrom`: it would say the same by two ghost members.
    pub(crate) fn of(settings: &Settings) -> Result<InRange, Refusal>
        ensures kept { IfOk result (λ r. r.settings ≡ settings.now) }
        ensures refused { IfErr result (λ e. (settings_in settings.now ≡ false) × (e ≡ SettingOutOfRange)) }
    {
        if !settings.in_range() {
            return Err(Refusal::SettingOutOfRange);
        }
        Ok(InRange {
            settings: *settings,
        })
    }
}
