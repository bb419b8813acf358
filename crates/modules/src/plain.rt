// Modules that charge exactly what the five kinds give for their tree.
ghost use Rattle.std.specs.Prelude.{◌≡◌};
ghost use Rattle.modules.specs.Charged.{charged, charged_all};
ghost use Rattle.modules.specs.declared.sheet.Sheet.{Sheet as Page};
ghost use Rattle.std.proofs.Common.{rules, arith};
ghost use Rattle.modules.specs.Rooting.{root_charged};

use crate::{Branches, Choice, End, Greater, Line, RiskModule, Root, Sum};

pub trait PlainModule: RiskModule {
    ghost plain: { (m : Self) (s : Page) → Self.RiskModule.value m s ≡ charged (Self.RiskModule.tree m) s };
}

pub trait PlainBranches: Branches {
    ghost plain: { (b : Self) (s : Page) → Self.Branches.values b s ≡ charged_all (Self.Branches.forest b) s };
}

impl PlainBranches for End {
    ghost plain = { Prim.search rules };
}

impl<H: PlainModule, T: PlainBranches> PlainBranches for (H, T) {
    ghost plain = { Prim.search rules };
}

impl PlainModule for Line {
    ghost plain = { Prim.search rules };
}

impl<B: PlainBranches> PlainModule for Sum<B> {
    ghost plain = { Prim.search rules };
}

impl<A: PlainModule, B: PlainModule> PlainModule for Greater<A, B> {
    ghost plain = { Prim.search rules };
}

impl<B: PlainBranches> PlainModule for Root<B> {
    ghost plain = { λ m s. root_charged m.table (B.Branches.forest m.branches) s (B.Branches.values m.branches s) (B.PlainBranches.plain m.branches s) };
}

impl<A: PlainModule, B: PlainModule> PlainModule for Choice<A, B> {
    ghost plain = { Prim.search rules };
}
