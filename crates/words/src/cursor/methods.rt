// What a reader asks of words that are still to be read.
ghost use Rattle.std.specs.Prelude.{◌≡◌, ◌-◌, ◌≤◌, take};
ghost use Rattle.words.specs.Cursors.{end_of};
ghost use Rattle.words.specs.Steps.{WordSplit};

use super::Cursor;
use crate::kind::{Kind, value_of};
use refusals::Refusal;

impl<'a> Cursor<'a> {
    // All of the words.
    #[inline(always)]
    pub(crate) fn start(words: &'a [u32]) -> Cursor<'a>
        ensures words { result.words.now ≡ words.now }
        ensures place { result.place ≡ 0 }
    {
        Cursor { words, place: 0 }
    }

    // The kind and the value of the word that stands next, and what stands behind it.
    #[inline(always)]
    pub(crate) fn split_first(self) -> Result<(Kind, u32, Cursor<'a>), Refusal>
        ensures { WordSplit self.entry result }
    {
        // By `let .. else`: with `ok_or` and `?` the proof of the second refusal did not close.
        let Some((word, words)) = self.words.split_first() else {
            return Err(Refusal::WordsEndEarly(self.place));
        };
        let Some(kind) = Kind::of(*word) else {
            return Err(Refusal::KindNotAllowed(self.place));
        };
        let rest = Cursor {
            words,
            place: self.place + 1,
        };
        Ok((kind, value_of(*word), rest))
    }

    // The words up to what a later cursor has left.
    #[inline(always)]
    pub(crate) fn up_to(self, rest: Cursor) -> &'a [u32]
        requires order { self.place ≤ rest.place }
        requires within { rest.place ≤ end_of self }
        ensures { result.now ≡ take (rest.entry.place - self.entry.place) self.entry.words.now }
    {
        &self.words[..rest.place - self.place]
    }
}
