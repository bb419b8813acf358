// A written tree as a risk module.
#![tactic(auto)]

mod charging;
mod items;
mod waiting;
mod written;

pub use written::Written;
