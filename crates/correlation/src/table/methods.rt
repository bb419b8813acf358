// The calls of a table.
ghost use Rattle.std.specs.Prelude.{◌≡◌};
ghost use Rattle.correlation.specs.Answers.{size_of, entry_answer, Made, Replaced, HasAbove, HasSquare};
ghost use Rattle.correlation.specs.Tables.{LawfulAbove, LawfulSquare};

use super::lawful::lawful_table;
use super::places::entry_count;
use super::square::Square;
use super::{ENTRIES, Entries, Table};
use refusals::Refusal;

// The one refusal of this crate.
pub(crate) const UNLAWFUL: Refusal = Refusal::TableNotLawful(0);

impl Table {
    // A table of `size` branches, no two of which go together.
    pub fn new(size: usize) -> Result<Table, Refusal>
        ensures { Made size result }
    {
        entry_count(size).ok_or(UNLAWFUL)?;
        let above = [0; ENTRIES];
        Ok(Table {
            entries: Entries { size, above },
        })
    }

    // How many branches it has.
    pub fn size(&self) -> usize
        ensures { result ≡ size_of self.now }
    {
        self.entries.size
    }

    // The entry of two branches, counted from 0, where the table has both.
    pub fn entry(&self, i: usize, j: usize) -> Option<u8>
        ensures { result ≡ entry_answer self.now i j }
    {
        if i < self.size() && j < self.size() {
            Some(self.entries.at(i, j))
        } else {
            None
        }
    }

    // Becomes the table with these entries above the diagonal, row by row. Inlined, so that a table of constants costs less.
    #[inline(always)]
    pub fn replace_above(&mut self, size: usize, entries: &[u32]) -> Result<(), Refusal>
        ensures { Replaced (LawfulAbove size entries.now) (HasAbove size entries.now) self.old self.new result }
    {
        *self = lawful_table(size, entries).ok_or(UNLAWFUL)?;
        Ok(())
    }

    // Becomes the table with this whole square of entries, row by row.
    pub fn replace(&mut self, size: usize, square: &[u32]) -> Result<(), Refusal>
        ensures { Replaced (LawfulSquare size square.now) (HasSquare size square.now) self.old self.new result }
    {
        let count = entry_count(size).ok_or(UNLAWFUL)?;
        if square.len() != size * size {
            return Err(UNLAWFUL);
        }
        let whole = Square {
            size,
            entries: square,
        };
        if !whole.mirrored() {
            return Err(UNLAWFUL);
        }
        self.replace_above(size, &whole.upper()[..count])
    }
}
