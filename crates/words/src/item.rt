// The items of written trees, which borrow their parts from the words.
ghost use Rattle.std.specs.Prelude.{◌≡◌, ℕ, List};
ghost use Rattle.words.specs.Heads.{Head, due};
ghost use Rattle.words.specs.Items.{Shows};
ghost use Rattle.words.specs.Steps.{TableChecked};

use crate::table::table_of;
use refusals::Refusal;

// A branch by its head. Entries are words, as they stand; `branches` are the words of its branches, one behind the other.
#[derive(Clone, Copy, Debug)]
pub enum Item<'a> {
    Line(usize),
    Sum {
        count: usize,
        branches: &'a [u32],
    },
    Greater {
        branches: &'a [u32],
    },
    Root {
        count: usize,
        entries: &'a [u32],
        branches: &'a [u32],
    },
}

impl<'a> Item<'a> {
    // How many branches are due behind the head.
    pub(crate) fn branches_due(self) -> usize
        ensures { (h : Head) (ws : List ℕ) → Shows self.entry h ws → result ≡ due h }
    {
        match self {
            Item::Line(_) => 0,
            Item::Sum { count, .. } => count,
            Item::Greater { .. } => 2,
            Item::Root { count, .. } => count,
        }
    }

    // The same head over these words.
    pub(crate) fn covering(self, branches: &'a [u32]) -> Item<'a>
        ensures { (h : Head) (ws : List ℕ) → Shows self.entry h ws → Shows result h branches.now }
    {
        match self {
            Item::Line(line) => Item::Line(line),
            Item::Sum { count, .. } => Item::Sum { count, branches },
            Item::Greater { .. } => Item::Greater { branches },
            Item::Root { count, entries, .. } => Item::Root {
                count,
                entries,
                branches,
            },
        }
    }

    // Whether a root's table is lawful.
    pub(crate) fn check_table(self, place: usize) -> Result<(), Refusal>
        ensures { TableChecked self.entry place result }
    {
        if let Item::Root { count, entries, .. } = self {
            table_of(count, entries).map_err(|_| Refusal::TableNotLawful(place))?;
        }
        Ok(())
    }
}
