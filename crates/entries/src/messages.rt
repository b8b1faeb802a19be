//! The messages that controllers send to each other.
use crate::book::Entry;
use numbers::{ControllerNumber, Place, View};

/// What a controller that promised a new view says of itself.
#[derive(Clone, Copy, PartialEq, Eq, Debug)]
pub enum Reply {
    /// its book is complete: its current view, its length, and whether it is that view's primary
    Normal {
        current: View,
        length: u16,
        primary: bool,
    },
    /// its book was lost in a crash: its current view
    Crash {
        current: View,
    },
}

/// What a message says.
#[derive(Clone, Copy, PartialEq, Eq, Debug)]
pub enum Body<E> {
    /// promise this view
    Invitation,
    /// promised; a normal or a crash answer
    Answer { reply: Reply },
    /// open this view as its primary
    Form,
    /// the entry at a place of the primary's book
    Entry { place: Place, entry: Entry<E> },
    /// the sender's book has that length
    Acknowledgement { length: u16 },
}

/// A message from one controller to another, or to itself, about a view. Its numbers may be out of range, as lent
/// memory may hold them.
#[derive(Clone, Copy, PartialEq, Eq, Debug)]
pub struct Message<E> {
    pub sender: ControllerNumber,
    pub addressee: ControllerNumber,
    pub view: View,
    pub body: Body<E>,
}
