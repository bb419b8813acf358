// A module asked for its charge, with all that is promised of it.
ghost use Rattle.std.specs.Prelude.{◌≡◌, ℕ, ◌≤◌, IfOk};
ghost use Rattle.modules.specs.Answers.{Within, charge_answer};
ghost use Rattle.modules.specs.Bounds.{Close, CloseAt};
ghost use Rattle.modules.specs.Charged.{charged};

use crate::{Charge, PlainModule, RiskModule, Sheet};
use refusals::Refusal;

// The charge of a module at a sheet, with its gross and its roundings. It is not below any floor of the module's tree,
// and exceeds no ceiling by more than the roundings, to which some floor and some ceiling come as close.
#[tactic(auto, using(crate::specs::Close::close))]
pub fn price<M: RiskModule>(module: &M, sheet: &Sheet) -> Result<Charge, Refusal>
    ensures answer { result ≡ charge_answer (M.RiskModule.tree «module».now) sheet.now (M.RiskModule.value «module».now sheet.now) }
    ensures within { IfOk result (λ c. (k : ℕ) → 1 ≤ k → Within (M.RiskModule.tree «module».now) sheet.now c.amount k) }
    ensures close { (k : ℕ) → 1 ≤ k → CloseAt (M.RiskModule.tree «module».now) sheet.now k }
{
    module.charge(sheet)
}

// The same of a module that charges what the five kinds give for its tree, by that charge.
pub fn plain_price<M: PlainModule>(module: &M, sheet: &Sheet) -> Result<Charge, Refusal>
    ensures { result ≡ charge_answer (M.RiskModule.tree «module».now) sheet.now (charged (M.RiskModule.tree «module».now) sheet.now) }
{
    price(module, sheet)
}

// At every tree over lawful tables, some floor and some ceiling are as close as its roundings allow.
#[tactic(auto, using(crate::specs::Close::close))]
pub fn floors_meet_ceilings()
    ensures { Close }
{}
