// The items of a written tree, from its last word to its first.
ghost use Rattle.std.specs.Prelude.{◌≡◌, ◌≤◌, length};
ghost use Rattle.written.specs.Reading.{Readable};
ghost use Rattle.written.specs.Taking.{ItemOf};

use crate::Written;
use correlation::entry_count;
use words::{Item, Kind, value_of};

// Words that read as a tree, of which those from a place on are walked over.
#[derive(Drop)]
pub(crate) struct Items<'a> {
    words: &'a [u32],
    left: usize,
    ghost reads: { Readable words.now },
    ghost within: { left ≤ length words.now },
}

// The item of a word of a tree, and of the words behind it, told by the word alone. No item begins at an entry.
fn item_of<'a>(word: u32, behind: &'a [u32]) -> Option<Item<'a>>
    ensures { ItemOf word behind.now result }
{
    let count = value_of(word) as usize;
    match Kind::of(word)? {
        Kind::Line => Some(Item::Line(count)),
        Kind::Sum => Some(Item::Sum {
            count,
            branches: behind,
        }),
        Kind::Greater => Some(Item::Greater { branches: behind }),
        Kind::Root => {
            let (entries, branches) = behind.split_at_checked(entry_count(count)?)?;
            Some(Item::Root {
                count,
                entries,
                branches,
            })
        }
        Kind::Entry => None,
    }
}

impl<'a> Items<'a> {
    // All the items of a tree, of which none has come yet.
    pub(crate) fn of(tree: &'a Written) -> Items<'a>
        ensures words { result.words.now ≡ tree.now.words.items }
        ensures left { result.left ≡ length tree.now.words.items }
    {
        let words = tree.words();
        Items {
            words,
            left: words.len(),
        }
    }
}

impl<'a> Iterator for Items<'a> {
    ghost use Rattle.std.specs.Iterator.{at_most};
    ghost use Rattle.written.specs.Walking.{Steps};

    type Item = Item<'a>;

    ghost next_gives = { Steps };

    ghost remaining = { λ items. at_most items.left };

    // Places, since no iterator of a slice hands out what is left of it from the back.
    fn next(&mut self) -> Option<Item<'a>> {
        for place in (0..self.left).rev() {
            if let Some(item) = item_of(self.words[place], &self.words[place + 1..]) {
                self.left = place;
                return Some(item);
            }
        }
        self.left = 0;
        None
    }
}
