// Limit rules: what one stands for, and the stock and the mutual rule.
#![tactic(auto)]

mod bins;
mod mutual;
mod rule;
mod stock;

pub use bins::Bins;
pub use mutual::Mutual;
pub use rule::LimitRule;
pub use stock::Stock;
