// What a line answers.
ghost use Rattle.std.specs.Prelude.{◌≡◌, ◌+◌};
ghost use Rattle.modules.specs.Made.{MadeOf};
ghost use Rattle.modules.specs.Sheets.{IsLine, line_units, units, RoundedUp};
ghost use Rattle.modules.specs.Trees.{line as line_tree};
ghost use Rattle.modules.specs.Charging.{line_bounded};
ghost use Rattle.std.proofs.Common.{rules, arith};

use super::Line;
use crate::sheet::LINES;
use crate::{Charge, RiskModule, Sheet, gross_within};
use refusals::Refusal;

// The least whole number of units that is not below a total.
#[tactic(auto, unfolding(crate::specs::Sheets::units))]
pub(crate) fn rounded_up(total: u64) -> u64
    ensures value { result ≡ units total }
    ensures least { RoundedUp total result }
{
    total.div_ceil(10_000)
}

impl Line {
    // The module of a line by its number.
    pub fn new(number: usize) -> Result<Line, Refusal>
        ensures { MadeOf (IsLine number) (λ l. l.number ≡ number) result }
    {
        match number {
            1..=LINES => Ok(Line { number }),
            _ => Err(Refusal::ValueOutOfRange(0)),
        }
    }

    // Its place in a row of all lines.
    pub(crate) fn index(self) -> usize
        ensures { result + 1 ≡ self.number }
    {
        self.number - 1
    }
}

impl RiskModule for Line {
    ghost tree = { λ m. line_tree m.number };

    ghost value = { λ m s. line_units s m.number };

    ghost tabled = { Prim.search rules };

    ghost bounded = { λ m s. line_bounded m.number s };

    fn gross(&self, sheet: &Sheet) -> Result<u32, Refusal> {
        gross_within(rounded_up(sheet.line_total(*self)))
    }

    fn roundings(&self, _sheet: &Sheet) -> Result<u32, Refusal> {
        Ok(1)
    }

    fn charge(&self, sheet: &Sheet) -> Result<Charge, Refusal> {
        let amount = self.gross(sheet)?;
        Ok(Charge {
            amount,
            gross: amount,
            roundings: 1,
        })
    }
}
