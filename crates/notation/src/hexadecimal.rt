// Words in hexadecimal.
ghost use Rattle.std.specs.Prelude.{◌≡◌, IfOk, Some, string_bytes};
ghost use Rattle.notation.specs.Hexadecimal.{word_text, words_text};

use crate::spaced::push_spaced;
use std::alloc::{AllocError, Global};
use std::fmt;

// A word that is shown as `0x` and eight digits.
#[derive(Clone, Copy)]
struct Hexadecimal(u32);

impl fmt::Display for Hexadecimal {
    ghost output = { λ h. Some (word_text h.0) };

    fn fmt<W: fmt::Write>(&self, f: &mut fmt::Formatter<W>) -> fmt::Result {
        let Hexadecimal(word) = *self;
        write!(f, "0x{word:08x}")
    }
}

// Words as `0x40000002 0x50000019`.
pub fn hexadecimal_words(heap: Global, words: &[u32]) -> Result<String, AllocError>
    ensures { IfOk result (λ t. string_bytes t ≡ words_text words.now) }
{
    let mut text = String::new(heap);
    push_spaced(&mut text, words, Hexadecimal)?;
    Ok(text)
}
