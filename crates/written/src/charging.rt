// What the items of a written tree charge, each of the charges of its branches.
ghost use Rattle.std.specs.Prelude.{◌≡◌, ◌≤◌, length, take};
ghost use Rattle.modules.specs.Answers.{gross_answer, most_gross};
ghost use Rattle.modules.specs.Sheets.{IsLine, line_units};
ghost use Rattle.words.specs.Heads.{HeadInRange, HeadLawful, due};
ghost use Rattle.written.specs.Taking.{head_charge, shown};

use modules::{Line, RiskModule, Sheet};
use refusals::Refusal;
use words::{Item, table_of};

// The rounded-up total of a line that there is.
pub(crate) fn units(line: usize, sheet: &Sheet) -> Result<u32, Refusal>
    requires { IsLine line }
    ensures { result ≡ gross_answer (line_units sheet.now line) }
{
    let Ok(line) = Line::new(line) else {
        unreachable()
    };
    line.gross(sheet)
}

// What an item charges, and how many of the charges that wait are those of its branches, which stand in front.
pub(crate) fn charge_of(item: Item, waiting: &[u32], sheet: &Sheet) -> (u32, usize)
    requires known { ∥ HeadInRange (shown item) × HeadLawful (shown item) ∥₁ }
    requires there { due (shown item) ≤ length waiting.now }
    requires priced { head_charge (shown item) (take (due (shown item)) waiting.now) sheet.now ≤ most_gross }
    ensures charge { result.0 ≡ head_charge (shown item.entry) (take (due (shown item.entry)) waiting.now) sheet.now }
    ensures taken { result.1 ≡ due (shown item.entry) }
{
    match item {
        Item::Line(line) => {
            let Ok(units) = units(line, sheet) else {
                unreachable()
            };
            (units, 0)
        }
        Item::Sum { count, .. } => (waiting[..count].iter().sum(), count),
        Item::Greater { .. } => (waiting[0].max(waiting[1]), 2),
        Item::Root { count, entries, .. } => {
            let Ok(table) = table_of(count, entries) else {
                unreachable()
            };
            let Ok(root) = table.root(&waiting[..count]) else {
                unreachable()
            };
            // No `try_from`: by the clause `priced` its error cannot come.
            (root as u32, count)
        }
    }
}
