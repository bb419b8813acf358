// What is answered: the ratio and its class.
use crate::SupervisoryClass;

#[derive(Clone, Copy, PartialEq, Eq, Debug)]
pub struct Solvency {
    // In ten-thousandths, rounded down.
    pub ratio: u128,
    pub class: SupervisoryClass,
}
