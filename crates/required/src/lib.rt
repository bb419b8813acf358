// Required capital: settings, operational charge and tax effect, over any risk module.
#![tactic(auto)]

mod answer;
mod business;
mod capital;
mod figures;
mod ranges;
mod settings;

pub use answer::Required;
pub use capital::{exact_figure_never_falls, exact_figure_rises_slowly, required_capital};
pub use settings::{Business, Settings};
