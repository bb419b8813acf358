// The head of a branch: its own word, and a root's entries. What is asked of each word is inlined, here and where it is called:
// a call would cost more than what it does.
ghost use Rattle.std.specs.Prelude.{◌≡◌, ℕ, ◌≤◌, List, ◌++◌, MatchResult};
ghost use Rattle.correlation.specs.Tables.{most_branches};
ghost use Rattle.words.specs.Faults.{WordFault};
ghost use Rattle.words.specs.Items.{FirstItem, OwnFirst};
ghost use Rattle.words.specs.Steps.{EntriesRead, EntryRead, Opening, RootOpening};
ghost use Rattle.words.specs.Words.{ValueInRange, kind_number, most_depth};

use crate::cursor::Cursor;
use crate::item::Item;
use crate::kind::Kind;
use correlation::entry_count;
use refusals::Refusal;

// The largest entry, in hundredths.
const MOST_ENTRY: u32 = 100;

// How deep a branch may stand at most, the outermost at 1.
const MOST_DEPTH: usize = 6;

// Reads an entry in range.
#[inline(always)]
fn read_entry(from: Cursor) -> Result<Cursor, Refusal>
    ensures { EntryRead from.entry result }
{
    let (kind, value, rest) = from.split_first()?;
    match kind {
        Kind::Entry if value > MOST_ENTRY => Err(Refusal::ValueOutOfRange(from.place)),
        Kind::Entry => Ok(rest),
        _ => Err(Refusal::KindNotAllowed(from.place)),
    }
}

// Reads so many entries.
fn read_entries(from: Cursor, count: usize) -> Result<Cursor, Refusal>
    ensures { EntriesRead count from.entry result }
{
    let mut rest = from;
    for _ in 0..count {
        rest = read_entry(rest)?;
    }
    Ok(rest)
}

// The root of so many branches behind whose word these words stand.
#[inline(always)]
fn open_root(from: Cursor, count: usize) -> Result<(Item, Cursor), Refusal>
    requires some { 1 ≤ count }
    requires few { count ≤ most_branches }
    ensures { RootOpening count from.entry result }
{
    let rest = read_entries(from, entry_count(count).unwrap())?;
    let item = Item::Root {
        count,
        entries: from.up_to(rest),
        branches: rest.words,
    };
    Ok((item, rest))
}

// Whether a word of this kind and this value may begin a branch at this depth.
#[inline(always)]
fn check_word(kind: Kind, value: usize, depth: usize, place: usize) -> Result<(), Refusal>
    ensures { MatchResult result (λ _. ValueInRange (kind_number kind) value × (depth ≤ most_depth)) (WordFault (kind_number kind) value depth place) }
{
    if kind == Kind::Entry {
        Err(Refusal::KindNotAllowed(place))
    } else if !kind.allows(value) {
        Err(Refusal::ValueOutOfRange(place))
    } else if depth > MOST_DEPTH {
        Err(Refusal::TooDeep(place))
    } else {
        Ok(())
    }
}

// The head that the words begin with, where a branch is due, and what stands behind it.
#[inline(always)]
pub(crate) fn open(from: Cursor, depth: usize) -> Result<(Item, Cursor), Refusal>
    ensures { Opening depth from.entry result }
{
    let (kind, value, rest) = from.split_first()?;
    let count = value as usize;
    check_word(kind, count, depth, from.place)?;
    let branches = rest.words;
    match kind {
        Kind::Line => Ok((Item::Line(count), rest)),
        Kind::Sum => Ok((Item::Sum { count, branches }, rest)),
        Kind::Greater => Ok((Item::Greater { branches }, rest)),
        Kind::Root => open_root(rest, count),
        Kind::Entry => unreachable!(),
    }
}

// The head that the words begin with. The item borrows all the words behind it, also those behind the branch.
pub fn first_item<'a>(words: &'a [u32]) -> Result<Item<'a>, Refusal>
    ensures opening { FirstItem words.now result }
    ensures own { OwnFirst words.now result }
{
    let (item, _) = open(Cursor::start(words), 1)?;
    Ok(item)
}
