// Cuts a line: what stands before its comment, and its words, one by one.
ghost use Rattle.std.specs.Prelude.{◌≡◌, ◌≤◌, length};
ghost use Rattle.std.specs.List.{prefix_len, position_or_len};
ghost use Rattle.script.specs.Pieces.{is_space, before_comment};

// What stands before the first `#` of a line.
pub fn content(line: &[u8]) -> &[u8]
    ensures { result.now ≡ before_comment line.now }
{
    let end = line.iter().position(|b| *b == b'#').unwrap_or(line.len());
    &line[..end]
}

fn is_space(b: u8) -> bool
    ensures { result ≡ is_space b }
{
    b == b' ' || b == b'\t' || b == b'\r'
}

// How many spaces a text begins with.
fn space_len(text: &[u8]) -> usize
    ensures value { result ≡ prefix_len is_space text.now }
    ensures bound { result ≤ length text.now }
{
    text.iter()
        .position(|b| !is_space(*b))
        .unwrap_or(text.len())
}

// How much of a text stands before its first space.
fn word_len(text: &[u8]) -> usize
    ensures value { result ≡ position_or_len is_space text.now }
    ensures bound { result ≤ length text.now }
{
    text.iter().position(|b| is_space(*b)).unwrap_or(text.len())
}

// The words of a line that are still to come.
#[derive(Drop)]
pub struct Words<'a> {
    left: &'a [u8],
}

impl<'a> Words<'a> {
    pub fn of(line: &'a [u8]) -> Words<'a>
        ensures { result.left.now ≡ line.now }
    {
        Words { left: line }
    }
}

impl<'a> Iterator for Words<'a> {
    ghost use Rattle.std.specs.Iterator.{YieldsFirstRef, item_count};
    ghost use Rattle.script.specs.Pieces.{words_of};

    type Item = &'a [u8];

    ghost next_gives = { YieldsFirstRef (λ words. words_of words.left.now) };

    ghost remaining = { item_count (λ words. words_of words.left.now) };

    fn next(&mut self) -> Option<&'a [u8]> {
        let from_word = &self.left[space_len(self.left)..];
        if from_word.is_empty() {
            self.left = from_word;
            return None;
        }
        let (word, rest) = from_word.split_at(word_len(from_word));
        self.left = rest;
        Some(word)
    }
}
