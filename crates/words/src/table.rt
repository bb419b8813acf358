// The table of a root's entries.
ghost use Rattle.std.specs.Prelude.{◌≡◌, ◌≤◌, length, take};
ghost use Rattle.correlation.specs.Tables.{most_branches, above_count};
ghost use Rattle.words.specs.Items.{TableOf, values};

use crate::kind::value_of;
use correlation::{ENTRIES, Table};
use refusals::Refusal;
use std::array;

// The values of the words, from the front. An array with zeros behind them, since no heap is used, and a vector of fixed
// room would take a loop and its proof.
fn values_of(words: &[u32]) -> [u32; ENTRIES]
    requires { length words.now ≤ above_count most_branches }
    ensures { take (length words.now) result ≡ values words.now }
{
    array::from_fn(|k| match words.get(k) {
        Some(word) => value_of(*word),
        None => 0,
    })
}

// The table of so many branches whose entries are the values of these words, row by row above the diagonal.
pub fn table_of(count: usize, entries: &[u32]) -> Result<Table, Refusal>
    ensures { TableOf count entries.now result }
{
    let mut table = Table::new(1)?;
    if entries.len() > ENTRIES {
        return Err(Refusal::TableNotLawful(0));
    }
    let above = values_of(entries);
    table.replace_above(count, &above[..entries.len()])?;
    Ok(table)
}
