// Whether entries are lawful, and the table that they then make.
ghost use Rattle.std.specs.Prelude.{◌≡◌, ℕ, ◌+◌, ◌-◌, ◌*◌, ◌<◌, ◌≤◌, length, take, if◌then◌else◌, Decides, MatchOption, nat_eq, nat_le, slice_index};
ghost use Rattle.correlation.specs.Answers.{HasAbove, entry_in};
ghost use Rattle.correlation.specs.Tables.{excess_of_row, RowCondition, LawfulAbove};

use super::places::entry_count;
use super::{ENTRIES, Entries, Table};

impl Entries {
    // By how much the product of `i` with `j` and `j` with `k` passes 100 times that of `i` with `k`; nothing at `i` itself.
    fn excess_at(&self, i: usize, j: usize, k: usize) -> u32
        requires first { i < self.now.size }
        requires second { j < self.now.size }
        requires third { k < self.now.size }
        ensures value { result ≡ (if nat_eq k i then 0 else entry_in self.now i j * entry_in self.now j k - 100 * entry_in self.now i k) }
        ensures bound { result ≤ 65025 }
    {
        if k == i {
            return 0;
        }
        let through = u32::from(self.at(i, j)) * u32::from(self.at(j, k));
        through.saturating_sub(100 * u32::from(self.at(i, k)))
    }

    // The same over every branch `k`.
    fn row_excess(&self, i: usize, j: usize) -> u32
        requires first { i < self.now.size }
        requires second { j < self.now.size }
        ensures value { result ≡ excess_of_row self.now.size (entry_in self.now) i j }
        ensures bound { result ≤ 65025 * self.now.size }
    {
        // A loop, since the proof that a chain's `sum` fits did not close.
        let mut sum = 0;
        for k in 0..self.size {
            sum += self.excess_at(i, j, k);
        }
        sum
    }

    // Whether the condition holds of row `i` at branch `j`.
    fn condition_holds(&self, i: usize, j: usize) -> bool
        requires first { i < self.now.size }
        requires second { j < self.now.size }
        ensures { result ≡ nat_le (entry_in self.now i j * entry_in self.now i j + excess_of_row self.now.size (entry_in self.now) i j) 10000 }
    {
        let own = u32::from(self.at(i, j));
        own * own + self.row_excess(i, j) <= 10_000
    }

    // Whether it holds of row `i` at every branch.
    fn row_holds(&self, i: usize) -> bool
        requires { i < self.now.size }
        ensures { Decides result ((j : ℕ) → j < self.now.size → entry_in self.now i j * entry_in self.now i j + excess_of_row self.now.size (entry_in self.now) i j ≤ 10000) }
    {
        (0..self.size).all(|j| self.condition_holds(i, j))
    }

    // Whether it holds of every row.
    fn rows_hold(&self) -> bool
        ensures { Decides result (RowCondition self.now.size (entry_in self.now)) }
    {
        (0..self.size).all(|i| self.row_holds(i))
    }
}

// The entries as they stand in a table, or nothing where one is above 100.
fn narrowed(entries: &[u32]) -> Option<[u8; ENTRIES]>
    requires { length entries.now ≤ 28 }
    ensures { MatchOption result ((k : ℕ) × (k < length entries.now) × (100 < slice_index entries.now k)) (λ above. take (length entries.now) above ≡ entries.now) }
{
    let mut above = [0u8; ENTRIES];
    // By index: `iter_mut` was tried, and of elements written through it a proof keeps only how many they are.
    for (k, entry) in entries.iter().enumerate() {
        match u8::try_from(*entry) {
            Ok(entry) if entry <= 100 => above[k] = entry,
            _ => return None,
        }
    }
    Some(above)
}

// The table with these entries above the diagonal, if it is lawful.
#[inline(always)]
pub(crate) fn lawful_table(size: usize, above: &[u32]) -> Option<Table>
    ensures { MatchOption result (LawfulAbove size above.now → ⊥) (λ t. LawfulAbove size above.now × HasAbove size above.now t) }
{
    if entry_count(size)? != above.len() {
        return None;
    }
    let entries = Entries {
        size,
        above: narrowed(above)?,
    };
    if entries.rows_hold() {
        Some(Table { entries })
    } else {
        None
    }
}
