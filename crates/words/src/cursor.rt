// Words that are still to be read, and where the first of them stands.
ghost use Rattle.std.specs.Prelude.{◌+◌, ◌<◌, ◌^◌, length};

mod methods;

#[derive(Clone, Copy)]
pub(crate) struct Cursor<'a> {
    pub(crate) words: &'a [u32],
    // Counted from 0, over all words.
    pub(crate) place: usize,
    ghost countable: { place + length words.now < 2 ^ 64 },
}
