//! Rows: the two views of a cell record as a table keeps them, with any numbers.
use crate::views::View;

/// Two views, in range and in order or not.
#[derive(Clone, Copy, PartialEq, Eq, Debug)]
pub struct Row {
    pub current: View,
    pub promised: View,
}

impl Row {
    /// Twice the view (0, 0).
    pub const ZERO: Row = Row {
        current: View::ZERO,
        promised: View::ZERO,
    };
}
