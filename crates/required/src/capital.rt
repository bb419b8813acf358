// Required capital over any risk module, and how the exact figure moves with the charge.
ghost use Rattle.std.specs.Prelude.{◌≡◌, ℕ, ◌≤◌, IfOk};
ghost use Rattle.required.specs.Answers.{required_answer, NearExact};
ghost use Rattle.required.specs.Laws.{NeverFalls, RisesSlowly};

use crate::ranges::InRange;
use crate::{Required, Settings};
use modules::{RiskModule, Sheet, price};
use refusals::Refusal;

// Required capital of a module at a sheet, with what it is made of. It is not below the exact figure at any floor of the
// module's tree, and is above that at no ceiling by more than 1.4 for each rounding and 4.
pub fn required_capital<M: RiskModule>(
    module: &M,
    sheet: &Sheet,
    settings: &Settings,
) -> Result<Required, Refusal>
    ensures answer { result ≡ required_answer settings.now (M.RiskModule.tree «module».now) sheet.now (M.RiskModule.value «module».now sheet.now) }
    ensures near { IfOk result (λ x. (k : ℕ) → 1 ≤ k → NearExact settings.now (M.RiskModule.tree «module».now) sheet.now x.required x.roundings k) }
{
    let settings = InRange::of(settings)?;
    let charge = price(module, sheet)?;
    Ok(settings.required_at(charge.amount, charge.roundings))
}

// The exact figure never falls as the charge rises.
pub fn exact_figure_never_falls()
    ensures { NeverFalls }
{}

// It rises by at most 1.38 for 1.
pub fn exact_figure_rises_slowly()
    ensures { RisesSlowly }
{}
