// Tests of written trees: the worked one, many by an independent calculation, and as branches of other modules.
#![tactic(auto)]

#[cfg(test)]
mod cases;
#[cfg(test)]
mod tests;
