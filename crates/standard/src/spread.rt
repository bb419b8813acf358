// Spread up or down, with the rest of market.
ghost use Rattle.std.specs.Prelude.{◌≡◌, [], ◌∷◌};
ghost use Rattle.modules.specs.Charged.{charged};
ghost use Rattle.correlation.specs.Tables.{LawfulAbove};
ghost use Rattle.modules.specs.Sheets.{IsLine};
ghost use Rattle.modules.specs.Trees.{line as line_of, root as root_of};
ghost use Rattle.standard.specs.Parts.{spread_of};
ghost use Rattle.standard.specs.Standard.{forest_of, equity_tree, real_estate_tree, currency_tree};
ghost use Rattle.standard.specs.Standing.{spread_tabled};
ghost use Rattle.modules.proofs.Plainly.{charged_bounded};
ghost use Rattle.std.proofs.Common.{rules};

use crate::parts::{line, root, sum};
use crate::shares::Equity;
use modules::{
    Branches, Charge, End, Greater, Line, PlainModule, RiskModule, Root, Sheet, Sum, plain_price,
};
use refusals::Refusal;

// Interest, spread up, equity, real estate, currency, concentration.
const UP: [u32; 15] = [25, 25, 25, 25, 0, 75, 50, 25, 0, 50, 25, 0, 25, 0, 0];

// The same with spread down.
const DOWN: [u32; 15] = [25, 25, 25, 25, 0, 0, 0, 25, 0, 50, 25, 0, 25, 0, 0];

type RealEstate = Sum<(Line, (Line, End))>;

type Rest = (Equity, (RealEstate, (Greater<Line, Line>, (Line, End))));

type Made = Root<(Line, (Line, Rest))>;

// Made whenever it is asked: by value in the standard tree it was tried, and the proof did not close, for want of memory.
#[derive(Clone, Copy)]
pub enum Spread {
    Up,
    Down,
}

// Equity, real estate, currency, concentration.
fn rest() -> Rest
    ensures { ⟦<Rest as Branches>⟧.forest result ≡ forest_of (equity_tree ∷ real_estate_tree ∷ currency_tree ∷ line_of 28 ∷ []) }
{
    let real_estate = sum((line(24), (line(25), End)));
    let currency = Greater::new(line(26), line(27));
    (Equity, (real_estate, (currency, (line(28), End))))
}

// Interest, a line of spread and the rest, under a table of their entries.
fn with_spread(entries: &[u32], spread: usize) -> Made
    requires lawful { LawfulAbove 6 entries.now }
    requires known { IsLine spread }
    ensures { ⟦<Made as RiskModule>⟧.tree result ≡ root_of entries.now (forest_of (line_of 14 ∷ line_of spread ∷ equity_tree ∷ real_estate_tree ∷ currency_tree ∷ line_of 28 ∷ [])) }
{
    root(entries, (line(14), (line(spread), rest())))
}

impl Spread {
    fn made(self) -> Made
        ensures { ⟦<Made as RiskModule>⟧.tree result ≡ spread_of self }
    {
        match self {
            Spread::Up => with_spread(&UP, 15),
            Spread::Down => with_spread(&DOWN, 16),
        }
    }
}

impl RiskModule for Spread {
    ghost tree = { spread_of };

    ghost value = { λ m s. charged (spread_of m) s };

    ghost tabled = { spread_tabled };

    ghost bounded = { λ m s. charged_bounded (spread_of m) (spread_tabled m) s };

    fn gross(&self, sheet: &Sheet) -> Result<u32, Refusal> {
        self.made().gross(sheet)
    }

    fn roundings(&self, sheet: &Sheet) -> Result<u32, Refusal> {
        self.made().roundings(sheet)
    }

    fn charge(&self, sheet: &Sheet) -> Result<Charge, Refusal> {
        plain_price(&self.made(), sheet)
    }
}

impl PlainModule for Spread {
    ghost plain = { Prim.search rules };
}
