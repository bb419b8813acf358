// The entries above the diagonal, lawful or not: how many there are, and where each stands.
ghost use Rattle.std.specs.Prelude.{◌≡◌, ◌<◌, ◌≤◌};
ghost use Rattle.correlation.specs.Answers.{entry_count_answer, entry_in};
ghost use Rattle.correlation.specs.Tables.{most_branches, start_of_row};

use super::{BRANCHES, Entries};

// How many entries stand above the diagonal, where a table may have so many branches.
pub fn entry_count(size: usize) -> Option<usize>
    ensures { result ≡ entry_count_answer size }
{
    match size {
        1..=BRANCHES => Some(size * (size - 1) / 2),
        _ => None,
    }
}

// Where row `i` begins.
pub(crate) fn row_start(size: usize, i: usize) -> usize
    requires few { size ≤ most_branches }
    requires within { i ≤ size }
    ensures { result ≡ start_of_row size i }
{
    (i * (2 * size - i) - i) / 2
}

impl Entries {
    // The entry of two branches. That an index is below the size each method asks: a type that said so would name its table.
    pub(crate) fn at(&self, i: usize, j: usize) -> u8
        requires first { i < self.now.size }
        requires second { j < self.now.size }
        ensures { result ≡ entry_in self.now i j }
    {
        if i == j {
            return 100;
        }
        let before = i.min(j);
        let after = i.max(j);
        self.above[row_start(self.size, before) + (after - before - 1)]
    }
}
