//! Columns.

/// A column: a pair of cities with its cost, whose value is from 0 to 1, or 1 alone.
#[derive(Clone, Copy, Debug, PartialEq, Eq)]
pub struct Column {
    pub u: u32,
    pub v: u32,
    pub cost: u32,
    pub must: bool,
}
