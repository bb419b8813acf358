// Correlation tables that are always lawful, and the root of charges under one.
#![tactic(auto)]

mod table;

pub use table::{BRANCHES, ENTRIES, Table, entry_count};
