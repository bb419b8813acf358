// The reader: a branch by its list of branches, and a list by each branch.
ghost use Rattle.words.specs.Faults.{RefusedExactly};
ghost use Rattle.words.specs.Grammar.{OneReading};
ghost use Rattle.words.specs.Items.{FirstBranch, OwnBranch, ReadAnswer};
ghost use Rattle.words.specs.Places.{LeftToRight};
ghost use Rattle.words.specs.Steps.{BranchesRead, ReadFrom};

use crate::MOST_WORDS;
use crate::cursor::Cursor;
use crate::item::Item;
use crate::opening::open;
use refusals::Refusal;

// Reads a branch: its item, with no more words than it covers, and what is left behind it.
#[cycle(read_branch_read_branches)]
fn read_branch(from: Cursor, depth: usize) -> Result<(Item, Cursor), Refusal>
    ensures { ReadFrom depth from.entry result }
{
    let (item, behind) = open(from, depth)?;
    item.check_table(from.place)?;
    let rest = read_branches(behind, item.branches_due(), depth + 1)?;
    Ok((item.covering(behind.up_to(rest)), rest))
}

// Reads so many branches, one behind the other, and hands out what is left behind them.
#[cycle(read_branch_read_branches)]
fn read_branches(from: Cursor, count: usize, depth: usize) -> Result<Cursor, Refusal>
    ensures { BranchesRead count depth from.entry result }
{
    if count == 0 {
        return Ok(from);
    }
    let (_, rest) = read_branch(from, depth)?;
    read_branches(rest, count - 1, depth)
}

// The branch that the words begin with: its item, with no more words than it covers, and the words left behind it.
pub fn first_branch<'a>(words: &'a [u32]) -> Result<(Item<'a>, &'a [u32]), Refusal>
    ensures answer { FirstBranch words.now result }
    ensures own { OwnBranch words.now result }
{
    if words.len() > MOST_WORDS {
        return Err(Refusal::TooManyWords(MOST_WORDS));
    }
    let (item, rest) = read_branch(Cursor::start(words), 1)?;
    Ok((item, rest.words))
}

// The tree that the words are, by its outermost item, or the number and the place of what is wrong with them.
pub fn read<'a>(words: &'a [u32]) -> Result<Item<'a>, Refusal>
    ensures answer { ReadAnswer words.now result }
    ensures exactly { RefusedExactly words.now }
    ensures once { OneReading }
    ensures places { LeftToRight words.now }
{
    let (item, rest) = first_branch(words)?;
    // (`first_branch` promises its callers words alone, so their place is counted here.)
    let covered = words.len() - rest.len();
    if !rest.is_empty() {
        return Err(Refusal::WordsLeftOver(covered));
    }
    Ok(item)
}
