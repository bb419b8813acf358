// A written tree: words that it owns, and whose type says that they read as a tree.
ghost use Rattle.written.specs.Reading.{Readable};

mod making;
mod questions;

#[derive(Drop)]
pub struct Written {
    words: Vec<u32>,
    ghost reads: { Readable words.items },
}
