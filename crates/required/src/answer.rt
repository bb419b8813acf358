// What is answered: required capital and its parts.

// In whole units, with the roundings of the module's tree.
#[derive(Clone, Copy, PartialEq, Eq, Debug)]
pub struct Required {
    pub charge: u64,
    pub operational: u64,
    pub tax_effect: u64,
    pub required: u64,
    pub roundings: u32,
}
