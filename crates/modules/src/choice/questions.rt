// What a choice answers: what the branch that it takes answers.
ghost use Rattle.std.specs.Prelude.{◌≡◌, if◌then◌else◌};
ghost use Rattle.modules.specs.Made.{MadeOf};
ghost use Rattle.modules.specs.Sheets.{IsLine};
ghost use Rattle.modules.specs.Trees.{choice as choice_tree, first_taken};
ghost use Rattle.modules.specs.Charging.{choice_bounded};
ghost use Rattle.std.proofs.Common.{rules, arith};

use super::Choice;
use crate::{Charge, Line, RiskModule, Sheet};
use refusals::Refusal;

impl<A: RiskModule + Drop, B: RiskModule + Drop> Choice<A, B> {
    // Takes `one` where the total of the first line is at least that of the second, else `other`.
    pub fn new(first: usize, second: usize, one: A, other: B) -> Result<Choice<A, B>, Refusal>
        ensures { MadeOf (IsLine first × IsLine second) (λ m. (m.first.number ≡ first) × (m.second.number ≡ second) × (m.one ≡ one) × (m.other ≡ other)) result }
    {
        Ok(Choice {
            first: Line::new(first)?,
            second: Line::new(second)?,
            one,
            other,
        })
    }
}

impl<A, B> Choice<A, B> {
    // Whether the first branch is taken: by exact totals.
    fn takes_one(&self, sheet: &Sheet) -> bool
        ensures { result ≡ first_taken sheet.now self.now.first.number self.now.second.number }
    {
        sheet.line_total(self.first) >= sheet.line_total(self.second)
    }
}

// One `if` for each question: the branches differ in type, so a method for all three would take two closures, and two clauses for each.
impl<A: RiskModule, B: RiskModule> RiskModule for Choice<A, B> {
    ghost tree = { λ m. choice_tree m.first.number m.second.number (A.RiskModule.tree m.one) (B.RiskModule.tree m.other) };

    ghost value = { λ m s. (if first_taken s m.first.number m.second.number then A.RiskModule.value m.one s else B.RiskModule.value m.other s) };

    ghost tabled = { Prim.search rules };

    ghost bounded = { λ m s.
        choice_bounded m.first.number m.second.number (A.RiskModule.tree m.one) (B.RiskModule.tree m.other) s (A.RiskModule.value m.one s) (B.RiskModule.value m.other s)
        (A.RiskModule.bounded m.one s) (B.RiskModule.bounded m.other s) };

    fn gross(&self, sheet: &Sheet) -> Result<u32, Refusal> {
        if self.takes_one(sheet) {
            self.one.gross(sheet)
        } else {
            self.other.gross(sheet)
        }
    }

    fn roundings(&self, sheet: &Sheet) -> Result<u32, Refusal> {
        if self.takes_one(sheet) {
            self.one.roundings(sheet)
        } else {
            self.other.roundings(sheet)
        }
    }

    fn charge(&self, sheet: &Sheet) -> Result<Charge, Refusal> {
        if self.takes_one(sheet) {
            self.one.charge(sheet)
        } else {
            self.other.charge(sheet)
        }
    }
}
