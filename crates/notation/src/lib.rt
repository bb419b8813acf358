// A second notation for written trees, for people: `root[25](line 1, line 14)`, turned into words and back.
#![tactic(auto)]

mod hexadecimal;
mod reading;
mod showing;
mod spaced;
mod stop;
mod token;

ghost use Rattle.notation.specs.Plain.{ReadsBack};
ghost use Rattle.notation.specs.Sketches.{Sketch, Notation, Noted};
ghost use Rattle.notation.specs.Steps.{Answer};
ghost use Rattle.std.specs.Prelude.{IfOk, MatchOption};

pub use hexadecimal::hexadecimal_words;
use reading::Reader;
pub use showing::show;
use std::alloc::{AllocError, Global};
use stop::Stop;
use token::tokens;

// How deep a notation is at most.
const MOST_DEEP: usize = 512;

fn read(heap: Global, text: &[u8]) -> Result<Vec<u32>, Stop>
    ensures { Answer result (λ v. Noted text.now v.items) ((s : Sketch) → Notation text.now s → ⊥) }
{
    let cut = tokens(heap, text)?;
    let mut reader = Reader::new(heap, cut.as_slice());
    reader.branch(MOST_DEEP)?;
    reader.finish()
}

// The words that a text stands for, where it is a notation.
pub fn words_of(heap: Global, text: &[u8]) -> Result<Option<Vec<u32>>, AllocError>
    ensures noted { IfOk result (λ o. MatchOption o ((s : Sketch) → Notation text.now s → ⊥) (λ v. Noted text.now v.items)) }
    ensures back { IfOk result (ReadsBack text.now) }
{
    match read(heap, text) {
        Ok(words) => Ok(Some(words)),
        Err(Stop::NoNotation) => Ok(None),
        Err(Stop::Memory(e)) => Err(e),
    }
}
