// Runs statements, each under the table and the sheet that the ones before it left.
ghost use Rattle.std.specs.Prelude.{◌≡◌, map, IfOk};
ghost use Rattle.script.specs.Meaning.{said};
ghost use Rattle.session.specs.Runs.{Narrowed, TableAnswered, RootAnswered, TotalAnswered, Answered, Started, TextAnswered};

use crate::price::price_by_lines;
use crate::{Answer, Declined, LineTotal, State};
use correlation::Table;
use modules::Sheet;
use refusals::Refusal;
use script::{Fault, Statement, parse};
use std::alloc::{AllocError, Global};

// What the line totals together may be at most, in ten-thousandths of a unit.
const MOST_TOTAL: u64 = 2_000_000_000_000;

// The numbers at 32 bits, where each has no more.
fn narrowed(heap: Global, numbers: &[u64]) -> Result<Option<Vec<u32>>, AllocError>
    ensures { IfOk result (Narrowed numbers.now) }
{
    // No `try_collect`: its contract does not say that it fails where a number does not fit.
    let mut narrow = Vec::new(heap);
    for n in numbers {
        let Ok(charge) = u32::try_from(*n) else {
            return Ok(None);
        };
        narrow.push(charge)?;
    }
    Ok(Some(narrow))
}

// Puts the table of a statement in the place of the one that stands, if it is lawful. Here and below an outer error is
// want of memory, which ends the run, and an inner one is an answer.
fn answer_table(
    heap: Global,
    table: &mut Table,
    size: u64,
    entries: &[u64],
) -> Result<Result<u64, Refusal>, AllocError>
    ensures { IfOk result (TableAnswered size entries.now table.old table.new) }
{
    let Some(narrow) = narrowed(heap, entries)? else {
        return Ok(Err(Refusal::TableNotLawful(0)));
    };
    // Here and below `as usize`: a usize has 64 bits, and `try_from` would add a case that never comes.
    Ok(
        table
            .replace_above(size as usize, narrow.as_slice())
            .map(|()| size),
    )
}

// The root of charges under the table that stands.
fn answer_root(
    heap: Global,
    table: &Table,
    charges: &[u64],
) -> Result<Result<u64, Declined>, AllocError>
    ensures { IfOk result (RootAnswered charges.now table.now) }
{
    let Some(narrow) = narrowed(heap, charges)? else {
        return Ok(Err(Declined::OutOfRange));
    };
    Ok(table.root(narrow.as_slice()).map_err(Declined::from))
}

// Sets the exact total of a line.
fn answer_total(sheet: &mut Sheet, line: u64, total: u64) -> Result<LineTotal, Declined>
    ensures { TotalAnswered line total sheet.old sheet.new result }
{
    if total > MOST_TOTAL {
        return Err(Declined::OutOfRange);
    }
    sheet.set_total(line as usize, total)?;
    Ok(LineTotal { line, total })
}

// Answers one statement.
fn answer_one(heap: Global, state: &mut State, statement: &Statement) -> Result<Answer, AllocError>
    ensures { IfOk result (Answered (said statement.now) state.old state.new) }
{
    Ok(match statement {
        Statement::Table { size, entries } => Answer::Table(answer_table(
            heap,
            &mut state.table,
            *size,
            entries.as_slice(),
        )?),
        Statement::Root { charges } => Answer::Root(answer_root(
            heap,
            &state.table,
            charges.as_slice(),
        )?),
        Statement::Total { line, amount } => Answer::Total(answer_total(
            &mut state.sheet,
            *line,
            *amount,
        )),
        Statement::PriceStandard => Answer::Price(price_by_lines(&state.sheet)),
    })
}

// Answers statements in order, from a table of one branch and a blank sheet.
fn run(heap: Global, statements: &[Statement]) -> Result<Vec<Answer>, AllocError>
    ensures { IfOk result (λ v. Started (map said statements.now) v.items) }
{
    let Ok(table) = Table::new(1) else {
        unreachable()
    };
    let mut state = State {
        table,
        sheet: Sheet::new(),
    };
    let mut answers = Vec::new(heap);
    for statement in statements {
        answers.push(answer_one(heap, &mut state, statement)?)?;
    }
    Ok(answers)
}

// Answers the statements of a text in order, or tells its first line that is misread.
pub fn answers(heap: Global, text: &[u8]) -> Result<Vec<Answer>, Fault>
    ensures { TextAnswered text.now result }
{
    let statements = parse(heap, text)?;
    Ok(run(heap, statements.as_slice())?)
}
