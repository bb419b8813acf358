// The root of charges under a table.
ghost use Rattle.std.specs.Prelude.{◌≡◌, ◌*◌, ◌^◌, ◌<◌, ◌≤◌, length};
ghost use Rattle.correlation.specs.Answers.{size_of, entry_in, entry_of, charge_of_branch, root_answer};
ghost use Rattle.correlation.specs.Roots.{form, least_root, RootLaws};
ghost use Rattle.correlation.specs.Sums.{sum_below};

use super::methods::UNLAWFUL;
use super::{Entries, Table};
use refusals::Refusal;

impl Entries {
    // The charges weighted by the entries of branch `i`.
    fn weighted(&self, charges: &[u32], i: usize) -> u64
        requires each { length charges.now ≡ self.now.size }
        requires within { i < self.now.size }
        ensures value { result ≡ sum_below self.now.size (λ j. entry_in self.now i j * charge_of_branch charges.now j) }
        ensures bound { result ≤ 255 * 2 ^ 32 * self.now.size }
    {
        // Here and below a loop, as for the excess of a row.
        let mut sum = 0u64;
        for (j, charge) in charges.iter().enumerate() {
            sum += u64::from(self.at(i, j)) * u64::from(*charge);
        }
        sum
    }

    // The sum over all two branches of their entry times their charges.
    fn form(&self, charges: &[u32]) -> u128
        requires each { length charges.now ≡ self.now.size }
        ensures value { result ≡ form self.now.size (entry_in self.now) (charge_of_branch charges.now) }
        ensures bound { result < 2 ^ 100 }
    {
        let mut sum = 0u128;
        for (i, charge) in charges.iter().enumerate() {
            sum += u128::from(*charge) * u128::from(self.weighted(charges, i));
        }
        sum
    }
}

// The least whole number whose hundredfold square is at least `q`.
fn root_of(q: u128) -> u64
    requires { q < 2 ^ 100 }
    ensures { result ≡ least_root q }
{
    let Some(less) = q.checked_sub(1) else {
        return 0;
    };
    // Below 2^51, so that a conversion that could fail would be no plainer than the cast.
    ((less / 100).isqrt() + 1) as u64
}

impl Table {
    // The root of as many charges as there are branches.
    pub fn root(&self, charges: &[u32]) -> Result<u64, Refusal>
        ensures value { result ≡ root_answer self.now charges.now }
        ensures laws { RootLaws (size_of self.now) (entry_of self.now) }
    {
        if charges.len() != self.size() {
            return Err(UNLAWFUL);
        }
        Ok(root_of(self.entries.form(charges)))
    }
}
