// Branches of a module, as nested pairs that end in `End`: any modules, each of a type of its own.
ghost use Rattle.std.specs.Prelude.{◌≡◌, ℕ, ◌+◌, ◌-◌, ◌^◌, ◌<◌, ◌≤◌, min, List, [], ◌∷◌, ◌++◌, length, sum as sum_of, OnOk};
ghost use Rattle.correlation.specs.Tables.{most_branches};
ghost use Rattle.modules.specs.Answers.{Priced, BoundedAll, limited_answer, gross_answer, roundings_answer, answer_of, charge_of, charge_answer};
ghost use Rattle.modules.specs.Bounds.{TabledAll};
ghost use Rattle.modules.specs.Gathered.{charges_of};
ghost use Rattle.modules.specs.Made.{MadeOf};
ghost use Rattle.modules.specs.Trees.{Forest, Few, none, more, sum, branch_count, gross_all, roundings_all};
ghost use Rattle.modules.specs.declared.sheet.Sheet.{Sheet as Page};
ghost use Rattle.std.proofs.Common.{rules};

use crate::answer::{MOST_GROSS, MOST_ROUNDINGS, NO_CHARGE};
use crate::{Charge, Charges, RiskModule, Sheet};
use correlation::BRANCHES;
use refusals::Refusal;

pub trait Branches {
    // The trees that the branches stand for.
    ghost forest: { Self → Forest };

    // What each of them charges at a sheet, in order.
    ghost values: { Self → Page → List ℕ };

    fn count(&self) -> usize
        ensures { result ≡ min (branch_count (forest self.now)) (2 ^ 64 - 1) };

    fn gross(&self, sheet: &Sheet) -> Result<u32, Refusal>
        ensures { result ≡ gross_answer (gross_all (forest self.now) sheet.now) };

    fn roundings(&self, sheet: &Sheet) -> Result<u32, Refusal>
        ensures { result ≡ roundings_answer (roundings_all (forest self.now) sheet.now) };

    // Answers as the sum of the branches does, and gathers the charge of each behind those that are there.
    fn charges(&self, sheet: &Sheet, list: &mut Charges) -> Result<Charge, Refusal>
        ensures answer { result ≡ charge_answer (sum (forest self.now)) sheet.now (sum_of (values self.now sheet.now)) }
        ensures gathered { OnOk result (length (charges_of list.old) + branch_count (forest self.now) ≤ most_branches → charges_of list.new ≡ charges_of list.old ++ values self.now sheet.now) };

    // Every table of the trees is lawful.
    ghost tabled: { (b : Self) → TabledAll (forest b) };

    // Each charge keeps within the bounds of its tree.
    ghost bounded: { (b : Self) (s : Page) → BoundedAll (forest b) s (values b s) };
}

// No further branch.
#[derive(Clone, Copy)]
pub struct End;

impl Branches for End {
    ghost forest = { λ _. none };

    ghost values = { λ _ _. [] };

    ghost tabled = { Prim.search rules };

    ghost bounded = { Prim.search rules };

    fn count(&self) -> usize {
        0
    }

    fn gross(&self, _sheet: &Sheet) -> Result<u32, Refusal> {
        Ok(0)
    }

    fn roundings(&self, _sheet: &Sheet) -> Result<u32, Refusal> {
        Ok(0)
    }

    fn charges(&self, _sheet: &Sheet, _list: &mut Charges) -> Result<Charge, Refusal> {
        Ok(NO_CHARGE)
    }
}

// How many branches there are, where a sum or a root may have so many: 1 to 8.
pub(crate) fn few<B: Branches>(branches: &B) -> Result<usize, Refusal>
    ensures { MadeOf (Few (B.Branches.forest branches.now)) (λ n. n ≡ branch_count (B.Branches.forest branches.now)) result }
{
    match branches.count() {
        count @ 1..=BRANCHES => Ok(count),
        _ => Err(Refusal::ValueOutOfRange(0)),
    }
}

// A number, unless it is above a limit.
fn limited(number: u64, most: u32, refusal: Refusal) -> Result<u32, Refusal>
    ensures { result ≡ limited_answer most refusal number }
{
    match u32::try_from(number) {
        Ok(number) if number <= most => Ok(number),
        _ => Err(refusal),
    }
}

// A gross, unless it is too large.
pub fn gross_within(gross: u64) -> Result<u32, Refusal>
    ensures { result ≡ gross_answer gross }
{
    limited(gross, MOST_GROSS, Refusal::GrossTooLarge)
}

// Roundings, unless they are too many.
pub fn roundings_within(roundings: u64) -> Result<u32, Refusal>
    ensures { result ≡ roundings_answer roundings }
{
    limited(roundings, MOST_ROUNDINGS, Refusal::TooManyRoundings)
}

// A charge with its gross and its roundings, unless one of these is refused.
pub(crate) fn charge_within(amount: u64, gross: u64, roundings: u64) -> Result<Charge, Refusal>
    requires { Priced gross roundings → amount < 2 ^ 32 }
    ensures { result ≡ answer_of gross roundings (charge_of amount gross roundings) }
{
    let gross = gross_within(gross)?;
    let roundings = roundings_within(roundings)?;
    // No `try_from`: by the clause above its error cannot come.
    Ok(Charge {
        amount: amount as u32,
        gross,
        roundings,
    })
}

// Two charges together, unless their gross or their roundings are refused.
fn added(a: Charge, b: Charge) -> Result<Charge, Refusal>
    requires { Priced (a.gross + b.gross) (a.roundings + b.roundings) → a.amount + b.amount < 2 ^ 32 }
    ensures { result ≡ answer_of (a.gross + b.gross) (a.roundings + b.roundings) (charge_of (a.amount + b.amount) (a.gross + b.gross) (a.roundings + b.roundings)) }
{
    charge_within(
        u64::from(a.amount) + u64::from(b.amount),
        u64::from(a.gross) + u64::from(b.gross),
        u64::from(a.roundings) + u64::from(b.roundings),
    )
}

impl<H: RiskModule, T: Branches> Branches for (H, T) {
    ghost forest = { λ b. more (H.RiskModule.tree b.0) (T.Branches.forest b.1) };

    ghost values = { λ b s. H.RiskModule.value b.0 s ∷ T.Branches.values b.1 s };

    ghost tabled = { Prim.search rules };

    ghost bounded = { Prim.search rules };

    fn count(&self) -> usize {
        self.1.count().saturating_add(1)
    }

    // Gross and roundings go alike; one method for both would take three closures.
    fn gross(&self, sheet: &Sheet) -> Result<u32, Refusal> {
        let first = self.0.gross(sheet)?;
        let rest = self.1.gross(sheet)?;
        gross_within(u64::from(first) + u64::from(rest))
    }

    fn roundings(&self, sheet: &Sheet) -> Result<u32, Refusal> {
        let first = self.0.roundings(sheet)?;
        let rest = self.1.roundings(sheet)?;
        roundings_within(u64::from(first) + u64::from(rest))
    }

    #[tactic(auto, using(crate::specs::Answering::refused_charge, crate::specs::Answering::added_is, crate::specs::Answering::gathered_is))]
    fn charges(&self, sheet: &Sheet, list: &mut Charges) -> Result<Charge, Refusal> {
        if let Ok(first) = self.0.charge(sheet) {
            list.push(first.amount);
            if let Ok(rest) = self.1.charges(sheet, list) {
                return added(first, rest);
            }
        }
        // A branch is refused: the gross of all tells by which number.
        self.gross(sheet)?;
        Err(Refusal::TooManyRoundings)
    }
}
