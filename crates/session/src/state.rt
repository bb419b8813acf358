// What stands between two statements.
use correlation::Table;
use modules::Sheet;

#[derive(Clone, Copy)]
pub struct State {
    pub table: Table,
    pub sheet: Sheet,
}
