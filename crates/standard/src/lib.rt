// The standard tree as a risk module, over any non-life and any catastrophe module.
#![tactic(auto)]

ghost use Rattle.std.specs.Prelude.{◌≡◌};
ghost use Rattle.standard.specs.Standard.{TablesLawful, Twenty, equity_tree, market_tree, standard_tree};

mod lines;
mod parts;
mod shares;
mod spread;

pub use lines::{CatastropheLines, NonLifeLines, catastrophe_lines, non_life_lines};
use modules::{Choice, End, Line, RiskModule, Root};
use parts::{choice, line, root};
pub use shares::Equity;
pub use spread::Spread;

// Life, non-life, catastrophe, market, credit.
const TOP: [u32; 10] = [0, 25, 25, 25, 25, 25, 25, 25, 25, 25];

pub type Market = Choice<Spread, Spread>;

pub type Standard<N, C> = Root<(Line, (N, (C, (Market, (Line, End)))))>;

// In another file than `Equity`, since the two names differ in the case of a letter alone.
pub fn equity() -> Equity
    ensures { ⟦<Equity as RiskModule>⟧.tree result ≡ equity_tree }
{
    Equity
}

// Spread up where the total of line 15 is at least that of line 16, else spread down.
fn market() -> Market
    ensures { ⟦<Market as RiskModule>⟧.tree result ≡ market_tree }
{
    choice(15, 16, Spread::Up, Spread::Down)
}

// The standard tree over the company's own two modules.
pub fn standard<N: RiskModule + Drop, C: RiskModule + Drop>(
    non_life: N,
    catastrophe: C,
) -> Standard<N, C>
    ensures tree { ⟦<Standard<N, C> as RiskModule>⟧.tree result ≡ standard_tree (N.RiskModule.tree non_life) (C.RiskModule.tree catastrophe) }
    ensures twenty { Twenty (N.RiskModule.tree non_life) (C.RiskModule.tree catastrophe) }
{
    let life = line(1);
    let credit = line(29);
    root(
        &TOP,
        (life, (non_life, (catastrophe, (market(), (credit, End))))),
    )
}

// Each of its tables is lawful.
pub fn standard_tables_lawful()
    ensures { TablesLawful }
{}
