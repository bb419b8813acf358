// The price of the standard tree over a company's lines.
ghost use Rattle.std.specs.Prelude.{◌≡◌};
ghost use Rattle.session.specs.Runs.{PriceAnswered};

use modules::{Charge, Sheet, plain_price};
use refusals::Refusal;
use standard::{catastrophe_lines, non_life_lines, standard};

// Non-life and catastrophe are the sums of their lines.
pub(crate) fn price_by_lines(sheet: &Sheet) -> Result<Charge, Refusal>
    ensures { PriceAnswered sheet.now result }
{
    let tree = standard(non_life_lines(), catastrophe_lines());
    plain_price(&tree, sheet)
}
