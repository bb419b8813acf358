// The table, whose type says that it is lawful.
ghost use Rattle.std.specs.Prelude.{◌≤◌};
ghost use Rattle.correlation.specs.Tables.{most_branches, Branches, InRange, Diagonal, Symmetric, RowCondition, entry};

mod lawful;
mod methods;
mod places;
mod roots;
mod square;

pub use places::entry_count;

// How many branches a table may have at most.
pub const BRANCHES: usize = 8;

// How many entries stand above the diagonal of the largest table.
pub const ENTRIES: usize = BRANCHES * (BRANCHES - 1) / 2;

// The entries of at most 8 branches, which need not be lawful.
#[derive(Clone, Copy)]
struct Entries {
    size: usize,
    // Above the diagonal, row by row; an array, since a table is copied and no vector is.
    above: [u8; ENTRIES],
    ghost few: { size ≤ most_branches },
}

// How the charges of 1 to 8 branches go together: an entry in hundredths for each two of them.
#[derive(Clone, Copy)]
pub struct Table {
    entries: Entries,
    ghost branches: { Branches entries.size },
    ghost range: { InRange entries.size (entry entries.size entries.above) },
    ghost diagonal: { Diagonal entries.size (entry entries.size entries.above) },
    ghost symmetric: { Symmetric entries.size (entry entries.size entries.above) },
    ghost rows: { RowCondition entries.size (entry entries.size entries.above) },
}
