// The sum of 1 to 8 branches.
ghost use Rattle.std.specs.Prelude.{◌≡◌, sum as sum_of};
ghost use Rattle.modules.specs.Made.{MadeOf};
ghost use Rattle.modules.specs.Trees.{Few, sum as sum_tree};
ghost use Rattle.modules.specs.Charging.{sum_bounded};
ghost use Rattle.std.proofs.Common.{rules};

use crate::branches::few;
use crate::{Branches, Charge, Charges, RiskModule, Sheet};
use refusals::Refusal;

#[derive(Clone, Copy, Drop)]
pub struct Sum<B> {
    branches: B,
}

impl<B: Branches + Drop> Sum<B> {
    // The sum of branches; none, or more than eight, are refused.
    pub fn new(branches: B) -> Result<Sum<B>, Refusal>
        ensures { MadeOf (Few (B.Branches.forest branches)) (λ m. m.branches ≡ branches) result }
    {
        few(&branches)?;
        Ok(Sum { branches })
    }
}

impl<B: Branches> RiskModule for Sum<B> {
    ghost tree = { λ m. sum_tree (B.Branches.forest m.branches) };

    ghost value = { λ m s. sum_of (B.Branches.values m.branches s) };

    ghost tabled = { Prim.search rules };

    ghost bounded = { λ m s. sum_bounded (B.Branches.forest m.branches) s (B.Branches.values m.branches s) (B.Branches.bounded m.branches s) };

    fn gross(&self, sheet: &Sheet) -> Result<u32, Refusal> {
        self.branches.gross(sheet)
    }

    fn roundings(&self, sheet: &Sheet) -> Result<u32, Refusal> {
        self.branches.roundings(sheet)
    }

    fn charge(&self, sheet: &Sheet) -> Result<Charge, Refusal> {
        let mut list = Charges::new();
        self.branches.charges(sheet, &mut list)
    }
}
