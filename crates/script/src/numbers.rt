// Reads words as numbers.
ghost use Rattle.std.specs.Prelude.{◌≡◌, vec_items};
ghost use Rattle.std.specs.Option.{ok_or};
ghost use Rattle.script.specs.Meaning.{Reads};
ghost use Rattle.script.specs.Numbers.{number_of, numbers_of};
ghost use Rattle.script.specs.Pieces.{words_of};
ghost use Rattle.script.specs.declared.Misread.TheVariants.{NotANumber};

use crate::words::Words;
use crate::{Misread, Unread};
use std::alloc::Global;

// The number that a word stands for, where it stands for one.
pub fn number(word: &[u8]) -> Result<u64, Misread>
    ensures { result ≡ ok_or (number_of word.now) NotANumber }
{
    digits::number(word, u64::MAX).ok_or(Misread::NotANumber)
}

// The numbers that words stand for, where each stands for one.
pub fn numbers(heap: Global, words: Words) -> Result<Vec<u64>, Unread>
    ensures { Reads vec_items (ok_or (numbers_of (words_of words.entry.left.now)) NotANumber) result }
{
    // No `try_collect`: its contract does not say that it fails where a word is no number.
    let mut numbers = Vec::new(heap);
    for word in words {
        numbers.push(number(word)?)?;
    }
    Ok(numbers)
}
