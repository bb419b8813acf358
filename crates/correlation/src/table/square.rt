// A whole square of entries: whether it mirrors itself, and its part above the diagonal.
ghost use Rattle.std.specs.Prelude.{◌≡◌, ℕ, suc, ◌-◌, ◌*◌, ◌<◌, ◌≤◌, length, Decides, slice_index};
ghost use Rattle.correlation.specs.Tables.{most_branches, above_count, square_entry, Diagonal, Symmetric, Copied};

use super::ENTRIES;
use super::places::row_start;

// The square of at most 8 branches that these entries fill, row by row.
#[derive(Clone, Copy)]
pub(crate) struct Square<'a> {
    pub(crate) size: usize,
    pub(crate) entries: &'a [u32],
    ghost few: { size ≤ most_branches },
    ghost whole: { length entries.now ≡ size * size },
}

impl<'a> Square<'a> {
    // The entry in row `i` and column `j`. That an index is below the size each method asks, as for `Entries`.
    fn at(&self, i: usize, j: usize) -> u32
        requires row { i < self.now.size }
        requires column { j < self.now.size }
        ensures { result ≡ square_entry self.now.size self.now.entries.now i j }
    {
        self.entries[i * self.size + j]
    }

    // Whether row `i` equals column `i` and has 100 on the diagonal.
    fn row_mirrored(&self, i: usize) -> bool
        requires { i < self.now.size }
        ensures { Decides result ((square_entry self.now.size self.now.entries.now i i ≡ 100) × ((j : ℕ) → j < self.now.size → square_entry self.now.size self.now.entries.now i j ≡ square_entry self.now.size self.now.entries.now j i)) }
    {
        (0..self.size).all(|j| self.at(i, j) == self.at(j, i)) && self.at(i, i) == 100
    }

    // The same of every row.
    pub(crate) fn mirrored(&self) -> bool
        ensures { Decides result (Diagonal self.now.size (square_entry self.now.size self.now.entries.now) × Symmetric self.now.size (square_entry self.now.size self.now.entries.now)) }
    {
        (0..self.size).all(|i| self.row_mirrored(i))
    }

    // What row `i` has above the diagonal.
    fn row_above(&self, i: usize) -> &'a [u32]
        requires { i < self.now.size }
        ensures many { length result.now ≡ self.now.size - suc i }
        ensures each { (j : ℕ) → i < j → j < self.now.size → slice_index result.now (j - suc i) ≡ square_entry self.now.size self.now.entries.now i j }
    {
        &self.entries[i * self.size + i + 1..(i + 1) * self.size]
    }

    // The entries above the diagonal, row by row, and zeros behind them: an array, since no heap is used.
    pub(crate) fn upper(&self) -> [u32; ENTRIES]
        ensures { Copied self.now.size self.now.entries.now result (above_count self.now.size) }
    {
        let mut above = [0; ENTRIES];
        for i in 0..self.size {
            let start = row_start(self.size, i);
            let row = self.row_above(i);
            above[start..start + row.len()].copy_from_slice(row);
        }
        above
    }
}
