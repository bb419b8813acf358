// The choice between two branches by the totals of two lines.
mod questions;

use crate::Line;

#[derive(Drop)]
pub struct Choice<A, B> {
    first: Line,
    second: Line,
    one: A,
    other: B,
}
