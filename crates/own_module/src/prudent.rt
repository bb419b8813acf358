// A module that is none of the book's kinds: one unit more than its branch.
//
// Whoever brings a module writes:
// - `tree`, what it stands for, and `value`, what it charges at a sheet;
// - the law `tabled`: every table of the tree is lawful;
// - the law `bounded`: the charge is not below any floor of the tree, and exceeds no ceiling by more than the roundings;
// - the questions `gross`, `roundings` and `charge`, each answered as for that tree.
// The lemma behind `bounded` stands in specs/Lone.antt, and the proofs that the check does not find by itself in proofs/prudent.
ghost use Rattle.std.specs.Prelude.{◌≡◌, ◌+◌, []};
ghost use Rattle.modules.specs.Answers.{roundings_answer};
ghost use Rattle.modules.specs.Trees.{root, more, none};
ghost use Rattle.own_module.specs.Lone.{lone_bounded};
ghost use Rattle.std.proofs.Common.{rules};

use modules::{Charge, RiskModule, Sheet, roundings_within};
use refusals::Refusal;

#[cfg(test)]
mod tests;

// The root over a lone branch, whose own rounding allows a unit more than the branch.
#[derive(Clone, Copy, Drop)]
pub struct Prudent<M> {
    branch: M,
}

impl<M: RiskModule> Prudent<M> {
    pub fn new(branch: M) -> Prudent<M>
        ensures { result.branch ≡ branch }
    {
        Prudent { branch }
    }
}

// Roundings with one more, unless they are too many.
fn one_more(roundings: u32) -> Result<u32, Refusal>
    ensures { result ≡ roundings_answer (roundings + 1) }
{
    roundings_within(u64::from(roundings) + 1)
}

impl<M: RiskModule> RiskModule for Prudent<M> {
    ghost tree = { λ m. root [] (more (M.RiskModule.tree m.branch) none) };

    ghost value = { λ m s. M.RiskModule.value m.branch s + 1 };

    ghost tabled = { Prim.search rules };

    ghost bounded = { λ m s. lone_bounded (M.RiskModule.tree m.branch) s (M.RiskModule.value m.branch s) (M.RiskModule.bounded m.branch s) };

    fn gross(&self, sheet: &Sheet) -> Result<u32, Refusal> {
        self.branch.gross(sheet)
    }

    fn roundings(&self, sheet: &Sheet) -> Result<u32, Refusal> {
        one_more(self.branch.roundings(sheet)?)
    }

    fn charge(&self, sheet: &Sheet) -> Result<Charge, Refusal> {
        let branch = self.branch.charge(sheet)?;
        let roundings = one_more(branch.roundings)?;
        Ok(Charge {
            amount: branch.amount + 1,
            gross: branch.gross,
            roundings,
        })
    }
}
