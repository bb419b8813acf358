// A risk module and a limit rule of a controller's own.
#![tactic(auto)]

mod notice;
mod prudent;

pub use notice::Notice;
pub use prudent::Prudent;
