//! The fault of a put.

/// The cell has no writes left.
#[derive(Clone, Copy, PartialEq, Eq, Debug)]
pub struct Worn {
    pub cell: u16,
}
