// Reads a sheet, and sets its totals while it is made.
ghost use Rattle.std.specs.Prelude.{◌≡◌, ◌+◌, ◌-◌, ◌≤◌, Decides};
ghost use Rattle.modules.specs.Sheets.{Blank, numbered_answer, NumberedSet, LineSet, CappedSet, line_count, total_of, total_answer, capped_answer, with_uncapped};

use super::{CAPPED, LINES, Sheet};
use crate::Line;
use refusals::Refusal;

// The total of a number, where there is one: they are numbered from `first`.
fn numbered<const N: usize>(totals: &[u64; N], first: usize, number: usize) -> Option<u64>
    requires { 1 ≤ first }
    ensures { result ≡ numbered_answer totals.now first (first + N - 1) number }
{
    totals.get(number.checked_sub(first)?).copied()
}

// Sets that total, or refuses a number that there is not.
fn set_numbered<const N: usize>(
    totals: &mut [u64; N],
    first: usize,
    number: usize,
    total: u64,
    refusal: Refusal,
) -> Result<(), Refusal>
    requires { 1 ≤ first }
    ensures { NumberedSet first (first + N - 1) refusal number total totals.old totals.new result }
{
    // By index: `get_mut` was tried, and what is written through it is lost to the proof.
    match number.checked_sub(first) {
        Some(index) if index < N => {
            totals[index] = total;
            Ok(())
        }
        _ => Err(refusal),
    }
}

impl Sheet {
    // Every total is 0.
    pub fn new() -> Sheet
        ensures { Blank result }
    {
        Sheet {
            lines: [0; LINES],
            uncapped: 0,
            capped: [0; CAPPED],
        }
    }

    // Whether two sheets are equal, as they are where every total is.
    pub fn same_as(&self, other: &Sheet) -> bool
        ensures { Decides result (self.now ≡ other.now) }
    {
        self == other
    }

    // The exact total of a line, where there is such a line.
    pub fn total(&self, line: usize) -> Option<u64>
        ensures { result ≡ total_answer self.now line }
    {
        numbered(&self.lines, 1, line)
    }

    pub(crate) fn line_total(&self, line: Line) -> u64
        ensures { result ≡ total_of self.now line.number }
    {
        self.lines[line.index()]
    }

    pub fn set_total(&mut self, line: usize, total: u64) -> Result<(), Refusal>
        ensures { LineSet line total self.old self.new result }
    {
        set_numbered(&mut self.lines, 1, line, total, Refusal::ValueOutOfRange(0))
    }

    // Bin 1, which may be below 0.
    pub fn uncapped(&self) -> i64
        ensures { result ≡ self.now.uncapped }
    {
        self.uncapped
    }

    pub fn set_uncapped(&mut self, total: i64)
        ensures { self.new ≡ with_uncapped self.old total }
    {
        self.uncapped = total;
    }

    // One of bins 2 to 7.
    pub fn capped(&self, bin: usize) -> Option<u64>
        ensures { result ≡ capped_answer self.now bin }
    {
        numbered(&self.capped, 2, bin)
    }

    pub fn set_capped(&mut self, bin: usize, total: u64) -> Result<(), Refusal>
        ensures { CappedSet bin total self.old self.new result }
    {
        set_numbered(&mut self.capped, 2, bin, total, Refusal::UnknownLineOrBin)
    }
}
