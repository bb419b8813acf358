// Equity: shares under their two tables, with volatility added.
ghost use Rattle.std.specs.Prelude.{◌≡◌};
ghost use Rattle.modules.specs.Charged.{charged};
ghost use Rattle.standard.specs.Standard.{equity_tree, shares_tree};
ghost use Rattle.standard.specs.Standing.{equity_tabled};
ghost use Rattle.modules.proofs.Plainly.{charged_bounded};
ghost use Rattle.std.proofs.Common.{rules};

use crate::parts::{line, root, sum};
use modules::{Charge, End, Line, PlainModule, RiskModule, Root, Sheet, Sum, plain_price};
use refusals::Refusal;

// Developed markets, emerging markets, hybrid bonds and preference shares, other shares.
const SHARES: [u32; 6] = [75, 100, 75, 75, 75, 75];

// The two lines of emerging markets.
const EMERGING: [u32; 1] = [75];

type TwoLines = (Line, (Line, End));

type Shares = Root<(Sum<TwoLines>, (Root<TwoLines>, (Line, (Line, End))))>;

type EquitySum = Sum<(Line, (Shares, End))>;

// Its tables are made whenever it is asked.
#[derive(Clone, Copy)]
pub struct Equity;

fn shares() -> Shares
    ensures { ⟦<Shares as RiskModule>⟧.tree result ≡ shares_tree }
{
    let developed = sum((line(17), (line(18), End)));
    let emerging = root(&EMERGING, (line(19), (line(20), End)));
    root(
        &SHARES,
        (developed, (emerging, (line(21), (line(22), End)))),
    )
}

fn equity_sum() -> EquitySum
    ensures { ⟦<EquitySum as RiskModule>⟧.tree result ≡ equity_tree }
{
    sum((line(23), (shares(), End)))
}

impl RiskModule for Equity {
    ghost tree = { λ _. equity_tree };

    ghost value = { λ _ s. charged equity_tree s };

    ghost tabled = { λ m. equity_tabled };

    ghost bounded = { λ m s. charged_bounded equity_tree equity_tabled s };

    fn gross(&self, sheet: &Sheet) -> Result<u32, Refusal> {
        equity_sum().gross(sheet)
    }

    fn roundings(&self, sheet: &Sheet) -> Result<u32, Refusal> {
        equity_sum().roundings(sheet)
    }

    fn charge(&self, sheet: &Sheet) -> Result<Charge, Refusal> {
        plain_price(&equity_sum(), sheet)
    }
}

impl PlainModule for Equity {
    ghost plain = { Prim.search rules };
}
