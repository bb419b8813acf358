// What a written tree answers: what the five kinds answer for the tree that its words read as.
ghost use Rattle.std.specs.Prelude.{◌≡◌, ◌/◌, ◌≤◌, Decides};
ghost use Rattle.modules.specs.Answers.{most_gross};
ghost use Rattle.modules.specs.Charged.{charged};
ghost use Rattle.modules.specs.Trees.{gross as gross_of};
ghost use Rattle.words.specs.Words.{kind_number, value_room};
ghost use Rattle.written.specs.Reading.{tree_of};
ghost use Rattle.written.specs.Known.{read_tabled};
ghost use Rattle.modules.proofs.Plainly.{charged_bounded};
ghost use Rattle.std.proofs.Common.{rules, arith};

use super::Written;
use crate::charging::{charge_of, units};
use crate::items::Items;
use crate::waiting::Waiting;
use modules::{Charge, PlainModule, RiskModule, Sheet, gross_within, roundings_within};
use refusals::Refusal;
use words::{Kind, value_of};

// Whether a word is of this kind.
fn is_of(word: u32, kind: Kind) -> bool
    ensures { Decides result (kind_number kind ≡ word / value_room) }
{
    word == kind.word(value_of(word))
}

impl Written {
    // The charge of the tree: each item takes the charges of its branches, and leaves its own.
    fn amount(&self, sheet: &Sheet) -> u32
        requires { gross_of (tree_of self.now.words.items) sheet.now ≤ most_gross }
        ensures { result ≡ charged (tree_of self.now.words.items) sheet.now }
    {
        let mut waiting = Waiting::new();
        for item in Items::of(self) {
            let (charge, taken) = charge_of(item, waiting.as_slice(), sheet);
            waiting.put(taken, charge);
        }
        waiting.as_slice()[0]
    }
}

impl RiskModule for Written {
    ghost tree = { λ m. tree_of m.words.items };

    ghost value = { λ m s. charged (tree_of m.words.items) s };

    ghost tabled = { λ m. read_tabled m.words.items m.reads };

    ghost bounded = { λ m s. charged_bounded (tree_of m.words.items) (read_tabled m.words.items m.reads) s };

    fn gross(&self, sheet: &Sheet) -> Result<u32, Refusal> {
        // Here and below by word and not by item: an item borrows what stands behind its word, which counts nothing here.
        let words = self.words();
        let mut gross = 0u64;
        for word in words {
            if is_of(*word, Kind::Line) {
                gross += u64::from(units(value_of(*word) as usize, sheet)?);
            }
        }
        gross_within(gross)
    }

    fn roundings(&self, _sheet: &Sheet) -> Result<u32, Refusal> {
        let words = self.words();
        let mut roundings = 0u64;
        for word in words {
            if is_of(*word, Kind::Line) || is_of(*word, Kind::Root) {
                roundings += 1;
            }
        }
        roundings_within(roundings)
    }

    fn charge(&self, sheet: &Sheet) -> Result<Charge, Refusal> {
        let gross = self.gross(sheet)?;
        let roundings = self.roundings(sheet)?;
        Ok(Charge {
            amount: self.amount(sheet),
            gross,
            roundings,
        })
    }
}

impl PlainModule for Written {
    ghost plain = { Prim.search rules };
}
