// Gathers charges, and takes the largest.
ghost use Rattle.std.specs.Prelude.{◌≡◌, ◌<◌, ◌≤◌, [], ◌∷◌, ◌++◌, length};
ghost use Rattle.correlation.specs.Tables.{most_branches};
ghost use Rattle.modules.specs.Gathered.{charges_of, largest_of};

use super::Charges;
use correlation::BRANCHES;

impl Charges {
    pub fn new() -> Charges
        ensures { charges_of result ≡ [] }
    {
        Charges {
            amounts: [0; BRANCHES],
            count: 0,
        }
    }

    // One charge more; where there are as many as there may be, it is passed over.
    pub fn push(&mut self, amount: u32)
        ensures more { length (charges_of self.old) < most_branches → charges_of self.new ≡ charges_of self.old ++ amount ∷ [] }
        ensures full { most_branches ≤ length (charges_of self.old) → charges_of self.new ≡ charges_of self.old }
    {
        // By index: `get_mut` was tried, and what is written through it is lost to the proof.
        if self.count < BRANCHES {
            self.amounts[self.count] = amount;
            self.count += 1;
        }
    }

    pub fn as_slice(&self) -> &[u32]
        ensures { result.now ≡ charges_of self.now }
    {
        &self.amounts[..self.count]
    }

    // The largest, and 0 of none.
    pub fn largest(&self) -> u32
        ensures { result ≡ largest_of (charges_of self.now) }
    {
        self.as_slice().iter().copied().fold(0, u32::max)
    }
}
