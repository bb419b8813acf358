// Answers a script's statements in order: which table stands and the roots under it, which totals stand and what they cost.
#![tactic(auto)]

mod answer;
mod price;
mod run;
mod state;

pub use answer::{Answer, Declined, LineTotal};
pub use run::answers;
pub use state::State;
