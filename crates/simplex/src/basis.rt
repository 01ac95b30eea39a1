//! A basis that is named.

use lpcheck::Column;

/// Which variables of a program are to be basic: as many as there are rows, or what lacks is made up by slacks. It is no more than
/// a hint where a solve begins; a basis that is no good costs pivots.
#[derive(Drop)]
pub struct Basis {
    /// Of each column, in order, whether it is to be basic.
    pub columns: Vec<bool>,
    /// Of each row, in order, whether its slack is to be basic; those of further rows are.
    pub slacks: Vec<bool>,
    /// A pair without a column that was basic in a like program: it has the value 0, and once it has left the basis it never comes back.
    pub gone: Option<Column>,
}
