// The root of 1 to 8 branches under a correlation table of their number.
ghost use Rattle.std.specs.Prelude.{◌≡◌, ◌==◌};
ghost use Rattle.correlation.specs.Answers.{size_of};
ghost use Rattle.modules.specs.Rooted.{RootMade, root_tree, root_value};
ghost use Rattle.modules.specs.Trees.{branch_count};
ghost use Rattle.modules.specs.Rooting.{root_tree_tabled, root_tree_bounded};

use crate::answer::NO_CHARGE;
use crate::branches::{charge_within, few, roundings_within};
use crate::{Branches, Charge, Charges, RiskModule, Sheet};
use correlation::Table;
use refusals::Refusal;

#[derive(Clone, Copy, Drop)]
pub struct Root<B> {
    table: Table,
    branches: B,
}

impl<B: Branches + Drop> Root<B> {
    // The root of branches; none, or more than eight, are refused, and so is a table of another size.
    pub fn new(table: Table, branches: B) -> Result<Root<B>, Refusal>
        ensures { RootMade table (B.Branches.forest branches) (λ m. (m.table ≡ table) × (m.branches ≡ branches)) result }
    {
        if few(&branches)? != table.size() {
            return Err(Refusal::TableNotLawful(0));
        }
        Ok(Root { table, branches })
    }
}

impl<B: Branches> Root<B> {
    // Whether there are as many branches as the table has, as `new` sees to.
    // Asked each time: an invariant of the type would ask `B: Branches` of whoever names it.
    fn fits(&self) -> bool
        ensures { result ≡ (branch_count (B.Branches.forest self.now.branches) == size_of self.now.table) }
    {
        self.branches.count() == self.table.size()
    }
}

impl<B: Branches> RiskModule for Root<B> {
    ghost tree = { λ m. root_tree m.table (B.Branches.forest m.branches) };

    ghost value = { λ m s. root_value m.table (B.Branches.forest m.branches) (B.Branches.values m.branches s) };

    ghost tabled = { λ m. root_tree_tabled m.table (B.Branches.forest m.branches) (B.Branches.tabled m.branches) };

    ghost bounded = { λ m s. root_tree_bounded m.table (B.Branches.forest m.branches) s (B.Branches.values m.branches s) (B.Branches.bounded m.branches s) };

    fn gross(&self, sheet: &Sheet) -> Result<u32, Refusal> {
        if !self.fits() {
            return Ok(0);
        }
        self.branches.gross(sheet)
    }

    fn roundings(&self, sheet: &Sheet) -> Result<u32, Refusal> {
        if !self.fits() {
            return Ok(0);
        }
        roundings_within(u64::from(self.branches.roundings(sheet)?) + 1)
    }

    #[tactic(auto, using(crate::specs::Rooting::root_charge))]
    fn charge(&self, sheet: &Sheet) -> Result<Charge, Refusal> {
        if !self.fits() {
            return Ok(NO_CHARGE);
        }
        let mut list = Charges::new();
        let all = self.branches.charges(sheet, &mut list)?;
        let root = self.table.root(list.as_slice())?;
        charge_within(root, u64::from(all.gross), u64::from(all.roundings) + 1)
    }
}
