// The ratio under a module and a rule, with all that is promised of it.
ghost use Rattle.std.specs.Prelude.{◌≡◌, ℕ, ◌≤◌, IfOk};
ghost use Rattle.ratio.specs.Ratios.{Cautious, SameRatios, ratio_answer};
ghost use Rattle.required.specs.Answers.{required_answer};

use crate::Solvency;
use crate::rating::rated;
use limits::LimitRule;
use modules::{RiskModule, Sheet};
use refusals::Refusal;
use required::{Settings, required_capital};

// The ratio and the class of a sheet: 31, 27 and 28 as for required capital, then 32 and 33. At every floor of the
// module's tree, the ratio times the exact figure is at most 10,000 times the capital counted there, and so is the
// lowest ratio of the class.
pub fn ratio<M: RiskModule, R: LimitRule>(
    module: &M,
    rule: &R,
    sheet: &Sheet,
    settings: &Settings,
) -> Result<Solvency, Refusal>
    ensures answer { result ≡ ratio_answer (required_answer settings.now (M.RiskModule.tree «module».now) sheet.now (M.RiskModule.value «module».now sheet.now)) sheet.now (R.LimitRule.scale rule.now) (R.LimitRule.capital rule.now sheet.now) }
    ensures cautious { IfOk result (λ q. (k : ℕ) → 1 ≤ k → Cautious settings.now (M.RiskModule.tree «module».now) sheet.now (R.LimitRule.scale rule.now) (R.LimitRule.capital rule.now sheet.now) q k) }
{
    let required = required_capital(module, sheet, settings)?;
    rated(rule, *sheet, required.required)
}

// Rules of the same meaning have the same ratio.
pub fn same_rules_same_ratio()
    ensures { SameRatios }
{}
