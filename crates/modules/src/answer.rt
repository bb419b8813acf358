// What a module answers besides refusals.

// A larger gross is refused.
pub(crate) const MOST_GROSS: u32 = 250_000_000;

// More roundings are refused.
pub(crate) const MOST_ROUNDINGS: u32 = 1_000;

// A module's charge at a sheet, with its gross and its roundings there.
#[derive(Clone, Copy, PartialEq, Eq, Debug)]
pub struct Charge {
    pub amount: u32,
    pub gross: u32,
    pub roundings: u32,
}

// The charge of no branches.
pub(crate) const NO_CHARGE: Charge = Charge {
    amount: 0,
    gross: 0,
    roundings: 0,
};
