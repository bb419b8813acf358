// Makes a written tree of words, and hands its words out.
ghost use Rattle.std.specs.Prelude.{◌≡◌};
ghost use Rattle.written.specs.Making.{WrittenOf};
ghost use Rattle.written.specs.Reading.{Readable};

use super::Written;
use refusals::Refusal;
use words::read;

impl Written {
    // The tree that the words read as; words that read as none are refused, by the number and the place of their first fault.
    pub fn new(words: Vec<u32>) -> Result<Written, Refusal>
        ensures { WrittenOf words.items result }
    {
        read(words.as_slice())?;
        Ok(Written { words })
    }

    // The words, as they were given.
    pub fn words(&self) -> &[u32]
        ensures value { result.now ≡ self.now.words.items }
        ensures reads { Readable result.now }
    {
        self.words.as_slice()
    }
}
