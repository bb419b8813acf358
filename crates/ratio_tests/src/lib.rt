// Tests of the ratio and its class: limits and classes at their ends, refusals in order, and many sheets.
#![tactic(auto)]

#[cfg(test)]
mod tests;
