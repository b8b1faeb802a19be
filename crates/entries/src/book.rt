//! What a book holds: entries.
use numbers::View;

/// One entry of a book: a change, and the view that it was taken in.
#[derive(Clone, Copy, PartialEq, Eq, Debug)]
pub struct Entry<E> {
    pub view: View,
    pub change: E,
}
