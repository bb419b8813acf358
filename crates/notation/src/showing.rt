// Writes a tree out in the notation: two spaces more a level, one branch to a line.
ghost use Rattle.std.specs.Prelude.{◌≡◌, ℕ, ◌+◌, ◌*◌, ◌≤◌, List, ◌++◌, length, IfOk, string_bytes, OnOk};
ghost use Rattle.modules.specs.Trees.{Tree, Forest};
ghost use Rattle.notation.specs.Plain.{new_line, spaced};
ghost use Rattle.notation.specs.Shown.{Headed, HeadWritten, Starts, StartAll, BranchWritten, ListWritten, Shown, ShownBack};
ghost use Rattle.words.specs.Items.{values};

use crate::spaced::push_spaced;
use std::alloc::{AllocError, Global};
use words::{Item, first_item, read, value_of};

// A line feed, and so many spaces.
fn push_new_line(text: &mut String, indent: usize) -> Result<(), AllocError>
    ensures { OnOk result (string_bytes text.new ≡ string_bytes text.old ++ new_line indent) }
{
    write!(text, "\n{:indent$}", "")
}

// The values of the words of entries, with one space between two.
fn push_entries(text: &mut String, entries: &[u32]) -> Result<(), AllocError>
    ensures { OnOk result (string_bytes text.new ≡ string_bytes text.old ++ spaced (values entries.now)) }
{
    // In a closure: a function of another crate gets no proof when it is passed by its name.
    push_spaced(text, entries, |entry| value_of(entry))
}

// The words that are left, and the text of those that were shown.
#[derive(Drop)]
struct Writer<'a> {
    left: &'a [u32],
    text: String,
}

impl<'a> Writer<'a> {
    // The head that the words begin with, and how many branches are due behind it.
    fn head(&mut self) -> Result<usize, AllocError>
        requires { Headed self.old.left.now }
        ensures { IfOk result (λ n. HeadWritten self.old.left.now (string_bytes self.old.text) (string_bytes self.new.text) n self.new.left.now) }
    {
        let words = self.left;
        let Ok(item) = first_item(words) else {
            unreachable()
        };
        match item {
            Item::Line(line) => {
                write!(self.text, "line {line}")?;
                self.left = &words[1..];
                Ok(0)
            }
            Item::Sum { count, branches } => {
                self.text.push_str("sum(")?;
                self.left = branches;
                Ok(count)
            }
            Item::Greater { branches } => {
                self.text.push_str("greater(")?;
                self.left = branches;
                Ok(2)
            }
            Item::Root {
                count,
                entries,
                branches,
            } => {
                self.text.push_str("root[")?;
                push_entries(&mut self.text, entries)?;
                self.text.push_str("](")?;
                self.left = branches;
                Ok(count)
            }
        }
    }

    // The branch that the words begin with, behind so many spaces.
    #[cycle(branch_branches)]
    fn branch(&mut self, indent: usize) -> Result<(), AllocError>
        requires starts { (t : Tree) × (behind : List ℕ) × Starts self.old.left.now t behind }
        requires near { indent + 2 * length self.old.left.now ≤ 65536 }
        ensures { IfOk result (λ _. BranchWritten indent self.old.left.now (string_bytes self.old.text) (string_bytes self.new.text) self.new.left.now) }
    {
        let count = self.head()?;
        if count == 0 {
            Ok(())
        } else {
            self.branches(count, indent)
        }
    }

    // One or more branches, so many, and the `)` behind them, which stands behind so many spaces.
    #[cycle(branch_branches)]
    fn branches(&mut self, count: usize, indent: usize) -> Result<(), AllocError>
        requires some { 1 ≤ count }
        requires start { (f : Forest) × (behind : List ℕ) × StartAll count self.old.left.now f behind }
        requires near { indent + 2 + 2 * length self.old.left.now ≤ 65536 }
        ensures { IfOk result (λ _. ListWritten indent count self.old.left.now (string_bytes self.old.text) (string_bytes self.new.text) self.new.left.now) }
    {
        push_new_line(&mut self.text, indent + 2)?;
        self.branch(indent + 2)?;
        if count == 1 {
            push_new_line(&mut self.text, indent)?;
            self.text.push_str(")")?;
            Ok(())
        } else {
            self.text.push_str(",")?;
            self.branches(count - 1, indent)
        }
    }
}

// The text of the tree that the words read as, if they do, where its first line stands behind so many spaces.
pub fn show(heap: Global, words: &[u32], indent: u8) -> Result<Option<String>, AllocError>
    ensures shown { IfOk result (Shown indent words.now) }
    ensures back { IfOk result (ShownBack words.now) }
{
    let Ok(_) = read(words) else {
        return Ok(None);
    };
    let mut writer = Writer {
        left: words,
        text: String::new(heap),
    };
    writer.branch(usize::from(indent))?;
    Ok(Some(writer.text))
}
