// Modules that are made without a refusal, and the trees that they stand for.
ghost use Rattle.std.specs.Prelude.{◌≡◌};
ghost use Rattle.correlation.specs.Tables.{LawfulAbove};
ghost use Rattle.modules.specs.Sheets.{IsLine};
ghost use Rattle.modules.specs.Trees.{Few, branch_count, line as line_of, sum as sum_of, root as root_of, choice as choice_of};

use correlation::Table;
use modules::{Branches, Choice, Line, RiskModule, Root, Sum};

// Numbers and entries are constants, each in one call: a type for those in range would ask the same `requires`, and be no plainer.

pub(crate) fn line(number: usize) -> Line
    requires { IsLine number }
    ensures { ⟦<Line as RiskModule>⟧.tree result ≡ line_of number }
{
    let Ok(line) = Line::new(number) else {
        unreachable()
    };
    line
}

pub(crate) fn sum<B: Branches + Drop>(branches: B) -> Sum<B>
    requires { Few (B.Branches.forest branches) }
    ensures { ⟦<Sum<B> as RiskModule>⟧.tree result ≡ sum_of (B.Branches.forest branches) }
{
    let Ok(sum) = Sum::new(branches) else {
        unreachable()
    };
    sum
}

// The root of branches, under the table with these entries above the diagonal.
pub(crate) fn root<B: Branches + Drop>(entries: &[u32], branches: B) -> Root<B>
    requires { LawfulAbove (branch_count (B.Branches.forest branches)) entries.now }
    ensures { ⟦<Root<B> as RiskModule>⟧.tree result ≡ root_of entries.now (B.Branches.forest branches) }
{
    let size = branches.count();
    let Ok(mut table) = Table::new(size) else {
        unreachable()
    };
    let Ok(()) = table.replace_above(size, entries) else {
        unreachable()
    };
    let Ok(root) = Root::new(table, branches) else {
        unreachable()
    };
    root
}

// The first where the total of the first line is at least that of the second, else the other.
pub(crate) fn choice<A: RiskModule + Drop, B: RiskModule + Drop>(
    first: usize,
    second: usize,
    one: A,
    other: B,
) -> Choice<A, B>
    requires first { IsLine first }
    requires second { IsLine second }
    ensures { ⟦<Choice<A, B> as RiskModule>⟧.tree result ≡ choice_of first second (A.RiskModule.tree one) (B.RiskModule.tree other) }
{
    let Ok(choice) = Choice::new(first, second, one, other) else {
        unreachable()
    };
    choice
}
