// The charges of some branches, at most as many as a table may have.
ghost use Rattle.std.specs.Prelude.{◌≤◌};
ghost use Rattle.correlation.specs.Tables.{most_branches};

mod methods;

use correlation::BRANCHES;

#[derive(Clone, Copy)]
pub struct Charges {
    // An array with its count beside it: no `Vec`, for want of a heap, and no `ArrayVec`, which is not `Copy`.
    amounts: [u32; BRANCHES],
    count: usize,
    ghost few: { count ≤ most_branches },
}
