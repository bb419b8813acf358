// Tests of required capital: the ends of every range, refusals, and many settings of like size.
#![tactic(auto)]

#[cfg(test)]
mod tests;
