// Risk modules: what one stands for, and the kinds that the book brings.
#![tactic(auto)]

mod answer;
mod branches;
mod charges;
mod choice;
mod greater;
mod line;
mod module;
mod plain;
mod pricing;
mod root;
mod sheet;
mod sum;

pub use answer::Charge;
pub use branches::{Branches, End, gross_within, roundings_within};
pub use charges::Charges;
pub use choice::Choice;
pub use greater::Greater;
pub use line::Line;
pub use module::RiskModule;
pub use plain::{PlainBranches, PlainModule};
pub use pricing::{floors_meet_ceilings, plain_price, price};
pub use root::Root;
pub use sheet::{LINES, Sheet};
pub use sum::Sum;
