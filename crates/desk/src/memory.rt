//! What stands in the books and the pool of a site before anything of use.
use crate::kinds::Written;
use entries::{Body, Entry, Message};
use numbers::{ControllerNumber, View};

/// An entry and a message for memory that holds nothing of use yet.
pub fn blanks<E: Written>() -> (Entry<E>, Message<E>) {
    let nobody = ControllerNumber::ZERO;
    let entry = Entry {
        view: View::ZERO,
        change: E::BLANK,
    };
    let message = Message {
        sender: nobody,
        addressee: nobody,
        view: View::ZERO,
        body: Body::Invitation,
    };
    (entry, message)
}
