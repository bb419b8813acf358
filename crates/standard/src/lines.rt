// The modules of a company that adds up its non-life lines and its catastrophe lines.
ghost use Rattle.std.specs.Prelude.{◌≡◌, ◌+◌};
ghost use Rattle.modules.specs.Charged.{charged};
ghost use Rattle.modules.specs.Sheets.{IsLine};
ghost use Rattle.modules.specs.Trees.{line as line_of, more};
ghost use Rattle.standard.specs.Standard.{non_life_lines, catastrophe_lines, non_life_lines as non_life_tree, catastrophe_lines as catastrophe_tree};
ghost use Rattle.standard.specs.Standing.{non_life_lines_tabled, catastrophe_lines_tabled};
ghost use Rattle.modules.proofs.Plainly.{charged_bounded};
ghost use Rattle.std.proofs.Common.{rules};

use crate::parts::{line, sum};
use modules::{Branches, Charge, End, Line, PlainModule, RiskModule, Sheet, Sum, plain_price};
use refusals::Refusal;

type FourAnd<T> = (Line, (Line, (Line, (Line, T))));

type NonLifeSum = Sum<FourAnd<FourAnd<End>>>;

type CatastropheSum = Sum<FourAnd<End>>;

// Lines 2 to 9, added up.
#[derive(Clone, Copy)]
pub struct NonLifeLines;

// Lines 10 to 13, added up.
#[derive(Clone, Copy)]
pub struct CatastropheLines;

// Four lines in a row, before further branches.
fn four_from<T: Branches>(first: usize, rest: T) -> FourAnd<T>
    requires first { IsLine first }
    requires last { IsLine (first + 3) }
    ensures { ⟦<FourAnd<T> as Branches>⟧.forest result ≡ more (line_of first) (more (line_of (first + 1)) (more (line_of (first + 2)) (more (line_of (first + 3)) (T.Branches.forest rest)))) }
{
    let second = line(first + 1);
    let third = line(first + 2);
    let fourth = line(first + 3);
    (line(first), (second, (third, (fourth, rest))))
}

fn non_life_sum() -> NonLifeSum
    ensures { ⟦<NonLifeSum as RiskModule>⟧.tree result ≡ non_life_tree }
{
    sum(four_from(2, four_from(6, End)))
}

fn catastrophe_sum() -> CatastropheSum
    ensures { ⟦<CatastropheSum as RiskModule>⟧.tree result ≡ catastrophe_tree }
{
    sum(four_from(10, End))
}

pub fn non_life_lines() -> NonLifeLines
    ensures { ⟦<NonLifeLines as RiskModule>⟧.tree result ≡ non_life_tree }
{
    NonLifeLines
}

pub fn catastrophe_lines() -> CatastropheLines
    ensures { ⟦<CatastropheLines as RiskModule>⟧.tree result ≡ catastrophe_tree }
{
    CatastropheLines
}

impl RiskModule for NonLifeLines {
    ghost tree = { λ _. non_life_lines };

    ghost value = { λ _ s. charged non_life_lines s };

    ghost tabled = { λ m. non_life_lines_tabled };

    ghost bounded = { λ m s. charged_bounded non_life_lines non_life_lines_tabled s };

    fn gross(&self, sheet: &Sheet) -> Result<u32, Refusal> {
        non_life_sum().gross(sheet)
    }

    fn roundings(&self, sheet: &Sheet) -> Result<u32, Refusal> {
        non_life_sum().roundings(sheet)
    }

    fn charge(&self, sheet: &Sheet) -> Result<Charge, Refusal> {
        plain_price(&non_life_sum(), sheet)
    }
}

impl PlainModule for NonLifeLines {
    ghost plain = { Prim.search rules };
}

impl RiskModule for CatastropheLines {
    ghost tree = { λ _. catastrophe_lines };

    ghost value = { λ _ s. charged catastrophe_lines s };

    ghost tabled = { λ m. catastrophe_lines_tabled };

    ghost bounded = { λ m s. charged_bounded catastrophe_lines catastrophe_lines_tabled s };

    fn gross(&self, sheet: &Sheet) -> Result<u32, Refusal> {
        catastrophe_sum().gross(sheet)
    }

    fn roundings(&self, sheet: &Sheet) -> Result<u32, Refusal> {
        catastrophe_sum().roundings(sheet)
    }

    fn charge(&self, sheet: &Sheet) -> Result<Charge, Refusal> {
        plain_price(&catastrophe_sum(), sheet)
    }
}

impl PlainModule for CatastropheLines {
    ghost plain = { Prim.search rules };
}
