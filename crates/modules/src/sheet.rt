// The sheet: what a closed book adds up to.
mod methods;

// How many lines a sheet has, numbered from 1.
pub const LINES: usize = 29;

// How many bins hold capital that counts up to a limit: bins 2 to 7.
const CAPPED: usize = 6;

#[derive(Clone, Copy, PartialEq, Eq, Debug)]
pub struct Sheet {
    // Exact, in ten-thousandths of a unit.
    lines: [u64; LINES],
    // Bin 1, in units.
    uncapped: i64,
    capped: [u64; CAPPED],
}
