// What written trees answer, alone and as branches of other modules.
use crate::cases::CASES;
use correlation::Table;
use modules::{Branches, Charge, End, Line, RiskModule, Root, Sheet, price};
use refusals::Refusal;
use std::alloc::Global;
use std::test::Fail;
use written::Written;

// A root of lines 1 and 14 at 25 hundredths.
const WORKED: [u32; 4] = [0x40000002, 0x50000019, 0x10000001, 0x1000000E];

fn written(heap: Global, words: &[u32]) -> Result<Written, Fail> {
    Ok(Written::new(words.to_vec(heap)?)?)
}

// A sheet with 100 units on lines 1 and 14.
fn hundreds() -> Result<Sheet, Fail> {
    let mut sheet = Sheet::new();
    sheet.set_total(1, 1_000_000)?;
    sheet.set_total(14, 1_000_000)?;
    Ok(sheet)
}

// What a module answers to its three questions.
fn answers<M: RiskModule>(module: &M, sheet: &Sheet) -> Result<(u32, u32, Charge), Refusal> {
    let charge = price(module, sheet)?;
    Ok((module.gross(sheet)?, module.roundings(sheet)?, charge))
}

// The same, where each question tells the same gross and roundings.
fn alike(gross: u32, roundings: u32, amount: u32) -> (u32, u32, Charge) {
    let charge = Charge {
        amount,
        gross,
        roundings,
    };
    (gross, roundings, charge)
}

#[test]
fn worked(rt: HostRuntime) -> Result<(), Fail> {
    let tree = written(rt.alloc(), &WORKED)?;
    assert_eq!(rt; tree.words().len(), 4);
    assert_eq!(rt; answers(&tree, &hundreds()?)?, alike(200, 3, 159));
    Ok(())
}

// Every line n with n² · 98,765 + 4,321 ten-thousandths.
#[test]
fn by_calculation(rt: HostRuntime) -> Result<(), Fail> {
    let mut sheet = Sheet::new();
    for n in 1..30usize {
        let squared = n as u64 * n as u64;
        sheet.set_total(n, squared * 98_765 + 4_321)?;
    }
    for case in CASES.iter() {
        let tree = written(rt.alloc(), case.words)?;
        assert_eq!(rt;
            answers(&tree, &sheet)?,
            alike(case.gross, case.roundings, case.charge)
        );
    }
    Ok(())
}

// The root of 159 and 50 that do not go together is above 166 and not above 167.
#[test]
fn under_a_root(rt: HostRuntime) -> Result<(), Fail> {
    let mut sheet = hundreds()?;
    sheet.set_total(29, 500_000)?;
    let branches = (written(rt.alloc(), &WORKED)?, (Line::new(29)?, End));
    let root = Root::new(Table::new(2)?, branches)?;
    assert_eq!(rt; answers(&root, &sheet)?, alike(250, 5, 167));
    Ok(())
}

// A gross of 250,000,001 is refused by both questions that tell it.
#[test]
fn too_large(rt: HostRuntime) -> Result<(), Fail> {
    let mut sheet = Sheet::new();
    sheet.set_total(1, 2_500_000_000_001)?;
    let tree = written(rt.alloc(), &WORKED)?;
    assert_eq!(rt; tree.gross(&sheet), Err(Refusal::GrossTooLarge));
    assert_eq!(rt; tree.roundings(&sheet), Ok(3));
    assert_eq!(rt; answers(&tree, &sheet), Err(Refusal::GrossTooLarge));
    Ok(())
}

fn refusal_of(heap: Global, words: &[u32]) -> Result<Refusal, Fail> {
    let Err(refusal) = Written::new(words.to_vec(heap)?) else {
        return Err(Fail::new("the words were read"));
    };
    Ok(refusal)
}

#[test]
fn refused(rt: HostRuntime) -> Result<(), Fail> {
    let heap = rt.alloc();
    assert_eq!(rt; refusal_of(heap, &[])?, Refusal::WordsEndEarly(0));
    assert_eq!(rt;
        refusal_of(heap, &[0x40000002, 0x10000001])?,
        Refusal::KindNotAllowed(1)
    );
    assert_eq!(rt;
        refusal_of(heap, &[0x1000001E])?,
        Refusal::ValueOutOfRange(0)
    );
    assert_eq!(rt;
        refusal_of(heap, &[0x10000001, 0x10000002])?,
        Refusal::WordsLeftOver(1)
    );
    Ok(())
}
