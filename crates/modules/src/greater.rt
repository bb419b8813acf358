// The greater of two branches.
ghost use Rattle.std.specs.Prelude.{◌≡◌, max, [], ◌∷◌};
ghost use Rattle.modules.specs.Trees.{greater as greater_tree};
ghost use Rattle.modules.specs.Charging.{greater_bounded};
ghost use Rattle.std.proofs.Common.{rules};

use crate::{Branches, Charge, Charges, End, RiskModule, Sheet};
use refusals::Refusal;

#[derive(Clone, Copy, Drop)]
pub struct Greater<A, B> {
    branches: (A, (B, End)),
}

impl<A: RiskModule, B: RiskModule> Greater<A, B> {
    pub fn new(one: A, other: B) -> Greater<A, B>
        ensures first { result.branches.0 ≡ one }
        ensures second { result.branches.1.0 ≡ other }
    {
        Greater {
            branches: (one, (other, End)),
        }
    }
}

impl<A: RiskModule, B: RiskModule> RiskModule for Greater<A, B> {
    ghost tree = { λ m. greater_tree (A.RiskModule.tree m.branches.0) (B.RiskModule.tree m.branches.1.0) };

    ghost value = { λ m s. max (A.RiskModule.value m.branches.0 s) (B.RiskModule.value m.branches.1.0 s) };

    ghost tabled = { Prim.search rules };

    ghost bounded = { λ m s.
        let one = m.branches.0 in
        let other = m.branches.1.0 in
        greater_bounded (A.RiskModule.tree one) (B.RiskModule.tree other) s (A.RiskModule.value one s) (B.RiskModule.value other s)
        (A.RiskModule.bounded one s) (B.RiskModule.bounded other s) };

    fn gross(&self, sheet: &Sheet) -> Result<u32, Refusal> {
        self.branches.gross(sheet)
    }

    fn roundings(&self, sheet: &Sheet) -> Result<u32, Refusal> {
        self.branches.roundings(sheet)
    }

    fn charge(&self, sheet: &Sheet) -> Result<Charge, Refusal> {
        let mut list = Charges::new();
        let both = self.branches.charges(sheet, &mut list)?;
        Ok(Charge {
            amount: list.largest(),
            ..both
        })
    }
}
