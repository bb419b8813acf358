// Parses the program's input: its tables, its root, its totals and its prices.
#![tactic(auto)]

mod numbers;
mod words;

ghost use Rattle.std.specs.Prelude.{◌≡◌, Some};
ghost use Rattle.script.specs.Meaning.{table_of, root_of, total_of, price_of, statement_of, said, Reads, fault_on, Parsed};
ghost use Rattle.script.specs.Numbers.{numbers_of};
ghost use Rattle.script.specs.Pieces.{words_of};
ghost use Rattle.script.specs.Plain.{ReadBack};
ghost use Rattle.script.specs.Shown.{misread_text, fault_text};
ghost use Rattle.script.specs.declared.Fault.TheVariants.{Memory};
ghost use Rattle.script.specs.declared.Unread.TheVariants as unread;

use numbers::{number, numbers};
use std::alloc::{AllocError, AllocFailed, Global};
use std::error::Error;
use std::fmt;
use words::{Words, content};

#[derive(Drop, Debug)]
pub enum Statement {
    Table { size: u64, entries: Vec<u64> },
    Root { charges: Vec<u64> },
    Total { line: u64, amount: u64 },
    PriceStandard,
}

#[derive(Clone, Copy, PartialEq, Eq, Debug)]
pub enum Misread {
    UnknownStatement,
    SizeMissing,
    NotANumber,
    TotalParts,
    UnknownTree,
}

impl Misread {
    // What is wrong with the line, in a few words.
    pub fn text(self) -> &'static str
        ensures { result.now ≡ misread_text self }
    {
        match self {
            Misread::UnknownStatement => "unknown statement",
            Misread::SizeMissing => "the table has no size",
            Misread::NotANumber => "not a number",
            Misread::TotalParts => "a total has a line and an amount",
            Misread::UnknownTree => "unknown tree",
        }
    }
}

impl fmt::Display for Misread {
    ghost output = { λ m. Some (misread_text m) };

    fn fmt<W: fmt::Write>(&self, f: &mut fmt::Formatter<W>) -> fmt::Result {
        f.write_str(self.text())
    }
}

// A misread line goes by its number, counted from 1.
#[derive(Clone, Copy, PartialEq, Eq, Debug)]
pub enum Fault {
    Memory,
    Line(usize, Misread),
}

impl fmt::Display for Fault {
    ghost output = { λ e. Some (fault_text e) };

    fn fmt<W: fmt::Write>(&self, f: &mut fmt::Formatter<W>) -> fmt::Result {
        match self {
            Fault::Memory => f.write_str("out of memory"),
            Fault::Line(line, misread) => write!(f, "line {line}: {misread}"),
        }
    }
}

impl Error for Fault {}

impl From<AllocError> for Fault {
    ghost from_gives = { λ _ r. r ≡ Memory };

    fn from(_e: AllocError) -> Fault {
        Fault::Memory
    }
}

impl<T: Drop> From<AllocFailed<T>> for Fault {
    ghost from_gives = { λ _ r. r ≡ Memory };

    fn from(_e: AllocFailed<T>) -> Fault {
        Fault::Memory
    }
}

// Why a line gives no statement. Each error type says by itself what want of memory is in it: a `From` is for one type.
#[derive(Clone, Copy)]
enum Unread {
    Memory,
    Misread(Misread),
}

impl Unread {
    // The fault of the text, where its line of this number gives no statement.
    fn on_line(self, line: usize) -> Fault
        ensures { result ≡ fault_on line self }
    {
        match self {
            Unread::Memory => Fault::Memory,
            Unread::Misread(misread) => Fault::Line(line, misread),
        }
    }
}

impl From<AllocError> for Unread {
    ghost from_gives = { λ _ r. r ≡ unread.Memory };

    fn from(_e: AllocError) -> Unread {
        Unread::Memory
    }
}

impl<T: Drop> From<AllocFailed<T>> for Unread {
    ghost from_gives = { λ _ r. r ≡ unread.Memory };

    fn from(_e: AllocFailed<T>) -> Unread {
        Unread::Memory
    }
}

impl From<Misread> for Unread {
    ghost from_gives = { λ m r. r ≡ unread.Misread m };

    fn from(misread: Misread) -> Unread {
        Unread::Misread(misread)
    }
}

// The statements of a text, or its first line that is misread.
pub fn parse(heap: Global, text: &[u8]) -> Result<Vec<Statement>, Fault>
    ensures meaning { Parsed text.now result }
    ensures back { ReadBack text.now result }
{
    let mut statements = Vec::new(heap);
    for (above, line) in text.split(|b| *b == b'\n').enumerate() {
        // An empty line says nothing, as `words` would tell too: it is passed over first, since it costs less.
        if line.is_empty() {
            continue;
        }
        let mut words = Words::of(content(line));
        let Some(word) = words.next() else {
            continue;
        };
        // By `match`: `map_err` with a closure over the line's number was tried, and its proof did not close.
        match Statement::read(heap, word, words) {
            Ok(statement) => statements.push(statement)?,
            Err(unread) => return Err(unread.on_line(above + 1)),
        }
    }
    Ok(statements)
}

impl Statement {
    // The statement of a line, by its first word and the words behind that.
    fn read(heap: Global, word: &[u8], parts: Words) -> Result<Statement, Unread>
        ensures { Reads said (statement_of word.now (words_of parts.entry.left.now)) result }
    {
        match word {
            b"table" => Statement::table(heap, parts),
            b"root" => Statement::root(heap, parts),
            b"total" => Statement::total(heap, parts),
            b"price" => Statement::price(parts),
            _ => Err(Unread::Misread(Misread::UnknownStatement)),
        }
    }

    // The table whose size is the first of some numbers, and whose entries are the others.
    fn table(heap: Global, mut parts: Words) -> Result<Statement, Unread>
        ensures { Reads said (table_of (numbers_of (words_of parts.entry.left.now))) result }
    {
        let size = parts.next().ok_or(Misread::SizeMissing)?;
        let size = number(size)?;
        let entries = numbers(heap, parts)?;
        Ok(Statement::Table { size, entries })
    }

    // The root whose charges are some numbers.
    fn root(heap: Global, parts: Words) -> Result<Statement, Unread>
        ensures { Reads said (root_of (numbers_of (words_of parts.entry.left.now))) result }
    {
        let charges = numbers(heap, parts)?;
        Ok(Statement::Root { charges })
    }

    // The total whose line and amount are two numbers.
    fn total(heap: Global, parts: Words) -> Result<Statement, Unread>
        ensures { Reads said (total_of (numbers_of (words_of parts.entry.left.now))) result }
    {
        let numbers = numbers(heap, parts)?;
        let [line, amount] = numbers.as_slice() else {
            return Err(Unread::Misread(Misread::TotalParts));
        };
        Ok(Statement::Total {
            line: *line,
            amount: *amount,
        })
    }

    // The price by the tree that the only word names.
    fn price(mut parts: Words) -> Result<Statement, Unread>
        ensures { Reads said (price_of (words_of parts.entry.left.now)) result }
    {
        match (parts.next(), parts.next()) {
            // The pattern `b"standard"` was tried, and its proof did not close.
            (Some(tree), None) if tree == b"standard".as_slice() => Ok(Statement::PriceStandard),
            _ => Err(Unread::Misread(Misread::UnknownTree)),
        }
    }
}

#[cfg(test)]
mod tests {
    use super::*;
    use std::process::Abort;
    use std::test::Fail;

    // The text is read, and its statements print so.
    fn reads(rt: &impl Abort, heap: Global, text: &[u8], shown: &str) -> Result<(), Fail> {
        let statements = parse(heap, text)?;
        let printed = format!(in heap; "{statements:?}")?;
        assert_eq!(rt; printed.as_str(), shown);
        Ok(())
    }

    // The text is misread, and the fault prints so.
    fn fails(rt: &impl Abort, heap: Global, text: &[u8], shown: &str) -> Result<(), Fail> {
        let Err(fault) = parse(heap, text) else {
            return Err(Fail::new("it was read"));
        };
        let printed = format!(in heap; "{fault}")?;
        assert_eq!(rt; printed.as_str(), shown);
        Ok(())
    }

    #[test]
    fn statements(rt: HostRuntime) -> Result<(), Fail> {
        let heap = rt.alloc();
        reads(&rt, heap, b"", "[]")?;
        reads(&rt, heap, b"# none\n\n  # still none\n", "[]")?;
        reads(
            &rt,
            heap,
            b"table 3  0 50",
            "[Table { size: 3, entries: [0, 50] }]",
        )?;
        reads(
            &rt,
            heap,
            b"root 7 9 # two\nroot\n",
            "[Root { charges: [7, 9] }, Root { charges: [] }]",
        )?;
        reads(
            &rt,
            heap,
            b"total 14 1000000\nprice standard",
            "[Total { line: 14, amount: 1000000 }, PriceStandard]",
        )
    }

    #[test]
    fn spaces(rt: HostRuntime) -> Result<(), Fail> {
        let heap = rt.alloc();
        let two = "[Table { size: 1, entries: [] }, Root { charges: [2] }]";
        reads(&rt, heap, b"\ttable\t1 \r\nroot 2#\r\n", two)
    }

    #[test]
    fn large_numbers(rt: HostRuntime) -> Result<(), Fail> {
        let heap = rt.alloc();
        let most = "[Root { charges: [18446744073709551615] }]";
        reads(&rt, heap, b"root 18446744073709551615", most)?;
        reads(&rt, heap, b"root 0018446744073709551616", most)?;
        reads(&rt, heap, b"root 1000000000000000000000000", most)
    }

    #[test]
    fn misread_lines(rt: HostRuntime) -> Result<(), Fail> {
        let heap = rt.alloc();
        fails(
            &rt,
            heap,
            b"\n# first\ntables 1\nroot x",
            "line 3: unknown statement",
        )?;
        fails(
            &rt,
            heap,
            b"root 1\ntable # 4",
            "line 2: the table has no size",
        )?;
        fails(&rt, heap, b"table 4x\n", "line 1: not a number")?;
        fails(&rt, heap, b"root 1 2 -3", "line 1: not a number")?;
        let parts = "line 1: a total has a line and an amount";
        fails(&rt, heap, b"total 1", parts)?;
        fails(&rt, heap, b"total 1 2 3", parts)?;
        fails(&rt, heap, b"total x 2 3", "line 1: not a number")?;
        let tree = "line 1: unknown tree";
        fails(&rt, heap, b"price", tree)?;
        fails(&rt, heap, b"price other", tree)?;
        fails(&rt, heap, b"price standard 2", tree)
    }
}
