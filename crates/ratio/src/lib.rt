// The solvency ratio and the supervisory class, under any risk module and any limit rule.
#![tactic(auto)]

mod asking;
mod class;
mod rating;
mod solvency;

pub use asking::{ratio, same_rules_same_ratio};
pub use class::SupervisoryClass;
pub use solvency::Solvency;
