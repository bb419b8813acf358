// The capital that a rule counts, held against required capital.
ghost use Rattle.std.specs.Prelude.{◌≡◌};
ghost use Rattle.ratio.specs.Ratios.{held_against};

use crate::{Solvency, SupervisoryClass};
use limits::LimitRule;
use modules::Sheet;
use refusals::Refusal;

// The ratio of the capital that a rule counts to required capital.
// The sheet is passed by value: behind a `&`, the proof that the product fits did not close, for want of the sizes of its totals.
pub(crate) fn rated<R: LimitRule>(
    rule: &R,
    sheet: Sheet,
    required: u64,
) -> Result<Solvency, Refusal>
    ensures { result ≡ held_against required sheet (R.LimitRule.scale rule.now) (R.LimitRule.capital rule.now sheet required 1) }
{
    if required == 0 {
        return Err(Refusal::RequiredIsZero);
    }
    let counted = rule.counted(&sheet, required)?;
    let scaled = 10_000 * counted;
    let ratio = scaled / u128::from(required);
    Ok(Solvency {
        ratio,
        class: SupervisoryClass::of(ratio),
    })
}
