// A module of 1,001 roundings, which are always refused.
ghost use Rattle.std.specs.Prelude.{◌≡◌};
ghost use Rattle.ratio_tests.specs.Towers.{tower};
ghost use Rattle.ratio_tests.specs.Tall.{tower_tabled, tower_bounded};

use modules::{Charge, RiskModule, Sheet, gross_within};
use refusals::Refusal;

#[derive(Clone, Copy)]
pub struct Tower;

impl RiskModule for Tower {
    ghost tree = { λ _. tower 1000 };

    ghost value = { λ _ _. 0 };

    ghost tabled = { λ m. tower_tabled 1000 };

    ghost bounded = { λ m s. tower_bounded s };

    fn gross(&self, sheet: &Sheet) -> Result<u32, Refusal> {
        let units = sheet.total(1).unwrap_or(0).div_ceil(10_000);
        gross_within(1_001 * units)
    }

    fn roundings(&self, _sheet: &Sheet) -> Result<u32, Refusal> {
        Err(Refusal::TooManyRoundings)
    }

    fn charge(&self, sheet: &Sheet) -> Result<Charge, Refusal> {
        self.gross(sheet)?;
        Err(Refusal::TooManyRoundings)
    }
}
