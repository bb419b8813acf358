// Charges that wait for the item that they are the branches of, the first branch first.
ghost use Rattle.std.specs.Prelude.{◌≡◌, ◌+◌, ◌<◌, ◌≤◌, [], ◌∷◌, length, drop};
ghost use Rattle.words.specs.Words.{most_words};

use words::MOST_WORDS;

// From a place in an array on, since they are taken and put at the front.
#[derive(Drop)]
pub(crate) struct Waiting {
    charges: [u32; MOST_WORDS],
    first: usize,
    ghost within: { first ≤ most_words },
}

impl Waiting {
    ghost use Rattle.written.specs.Taking.{charges_waiting};

    pub(crate) fn new() -> Waiting
        ensures { charges_waiting result ≡ [] }
    {
        Waiting {
            charges: [0; MOST_WORDS],
            first: MOST_WORDS,
        }
    }

    pub(crate) fn as_slice(&self) -> &[u32]
        ensures { result.now ≡ charges_waiting self.now }
    {
        &self.charges[self.first..]
    }

    // Puts a charge in the place of so many.
    pub(crate) fn put(&mut self, taken: usize, charge: u32)
        requires there { taken ≤ length (charges_waiting self.old) }
        requires room { length (charges_waiting self.old) < most_words + taken }
        ensures { charges_waiting self.new ≡ charge ∷ drop taken (charges_waiting self.old) }
    {
        self.first = self.first + taken - 1;
        self.charges[self.first] = charge;
    }
}
