// The kinds of words, and a word by its kind and its value.
ghost use Rattle.std.specs.Prelude.{◌≡◌, ◌%◌, ◌<◌, Decides};
ghost use Rattle.words.specs.Words.{KindOf, ValueInRange, kind_number, value_room, word};

use correlation::BRANCHES;
use modules::LINES;

// The largest value of a word, in its low 28 bits.
pub const MOST_VALUE: u32 = 0x0fff_ffff;

// What a word stands for: the head of a branch, or an entry of a root's table.
#[derive(Clone, Copy, PartialEq, Eq, Debug)]
pub enum Kind {
    Line = 1,
    Sum = 2,
    Greater = 3,
    Root = 4,
    Entry = 5,
}

impl Kind {
    // The kind in the top four bits of a word, where there is one of that number.
    #[inline(always)]
    pub fn of(word: u32) -> Option<Kind>
        ensures { KindOf word result }
    {
        // By number: the language goes from a kind to its number, and not back.
        match word >> 28 {
            1 => Some(Kind::Line),
            2 => Some(Kind::Sum),
            3 => Some(Kind::Greater),
            4 => Some(Kind::Root),
            5 => Some(Kind::Entry),
            _ => None,
        }
    }

    // The word of this kind with this value, of which the low 28 bits count.
    pub fn word(self, value: u32) -> u32
        ensures low_bits { result ≡ word (kind_number self) (value % value_room) }
        ensures whole { value < value_room → result ≡ word (kind_number self) value }
    {
        (self as u32) << 28 | value & MOST_VALUE
    }

    // Whether a branch of this kind may have this value.
    #[inline(always)]
    pub(crate) fn allows(self, value: usize) -> bool
        ensures { Decides result (ValueInRange (kind_number self) value) }
    {
        match self {
            Kind::Line => (1..=LINES).contains(&value),
            Kind::Greater => value == 2,
            Kind::Sum | Kind::Root => (1..=BRANCHES).contains(&value),
            Kind::Entry => false,
        }
    }
}

// The value of a word.
pub fn value_of(word: u32) -> u32
    ensures { result ≡ word % value_room }
{
    word & MOST_VALUE
}
