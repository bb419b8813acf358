// What a limit rule is: the capital that it counts at each required capital, and one question.
ghost use Rattle.std.specs.Prelude.{◌≡◌, ℕ, ◌≤◌, pos, ◌≤ℤ◌};
ghost use Rattle.limits.specs.Rules.{Counts, counted_answer};
ghost use Rattle.modules.specs.declared.sheet.Sheet.{Sheet as Page};

use modules::Sheet;
use refusals::Refusal;

pub trait LimitRule {
    // How many parts of a unit the rule counts in.
    ghost scale: { Self → ℕ };

    // At a sheet and required capital w/k, a fraction of at least 0, it counts `capital m s w k` over `scale m` · k.
    ghost capital: { Self → Page → ℕ → ℕ → ℕ };

    // 33 where bin 1 is below 0, or the capital counted at a whole required capital, rounded down once.
    fn counted(&self, sheet: &Sheet, required: u64) -> Result<u128, Refusal>
        ensures { result ≡ counted_answer sheet.now (scale self.now) (capital self.now sheet.now required 1) };

    ghost scaled: { (m : Self) → 1 ≤ scale m };

    // Where bin 1 is not below 0.
    ghost counts: { (m : Self) (s : Page) → pos 0 ≤ℤ s.uncapped → Counts (scale m) s (capital m s) };
}
