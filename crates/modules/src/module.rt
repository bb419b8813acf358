// What a risk module is: a tree over the sheet, a charge within its bounds, and three questions.
ghost use Rattle.std.specs.Prelude.{◌≡◌, ℕ};
ghost use Rattle.modules.specs.Answers.{Bounded, gross_answer, roundings_answer, charge_answer};
ghost use Rattle.modules.specs.Bounds.{Tabled};
ghost use Rattle.modules.specs.Trees.{Tree, gross as gross_of, roundings as roundings_of};
ghost use Rattle.modules.specs.declared.sheet.Sheet.{Sheet as Page};

use crate::{Charge, Sheet};
use refusals::Refusal;

pub trait RiskModule {
    // The tree that the module stands for.
    ghost tree: { Self → Tree };

    // What it charges at each sheet.
    ghost value: { Self → Page → ℕ };

    fn gross(&self, sheet: &Sheet) -> Result<u32, Refusal>
        ensures { result ≡ gross_answer (gross_of (tree self.now) sheet.now) };

    fn roundings(&self, sheet: &Sheet) -> Result<u32, Refusal>
        ensures { result ≡ roundings_answer (roundings_of (tree self.now) sheet.now) };

    fn charge(&self, sheet: &Sheet) -> Result<Charge, Refusal>
        ensures { result ≡ charge_answer (tree self.now) sheet.now (value self.now sheet.now) };

    // Every table of the tree is lawful.
    ghost tabled: { (m : Self) → Tabled (tree m) };

    // The charge is not below any floor of the tree, and exceeds no ceiling by more than the roundings.
    ghost bounded: { (m : Self) (s : Page) → Bounded (tree m) s (value m s) };
}
