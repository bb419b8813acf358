// A line as a module: its total rounded up to a whole unit.
ghost use Rattle.modules.specs.Sheets.{IsLine};

mod questions;

#[derive(Clone, Copy)]
pub struct Line {
    number: usize,
    ghost known: { IsLine number },
}
