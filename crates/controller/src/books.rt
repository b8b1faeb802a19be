//! A controller's part of the books: the entries in use, and one entry more.
ghost use Rattle.std.specs.Prelude.{◌≡◌, ◌<◌, ◌≤◌, length, slice_set};
ghost use Rattle.controller.specs.Books.{appended, at_place, cap_of, in_use};

use crate::records::{Controller, Status};
use entries::Entry;
use numbers::{Member, Place};

/// How many entries the book can hold.
pub fn capacity<E>(book: &[Entry<E>]) -> u16
    ensures value { result ≡ cap_of book.now }
    ensures within { result ≤ length book.now }
{
    book.len().min(65_535) as u16
}

/// The entries in use.
pub fn used<'a, E>(row: &Controller, book: &'a [Entry<E>]) -> &'a [Entry<E>]
    ensures { result.now ≡ in_use row.now book.now }
{
    book.get(..row.length as usize).unwrap_or(book)
}

/// The entry at a place of the entries in use.
pub fn entry_at<E: Copy>(row: &Controller, book: &[Entry<E>], place: Place) -> Option<Entry<E>>
    ensures { result ≡ at_place (in_use row.now book.now) place.number }
{
    let k = usize::from(place.number).checked_sub(1)?;
    used(row, book).get(k).copied()
}

/// Appends an entry. A primary's own acknowledged length is its length.
pub fn append<E: Copy>(me: Member, row: &mut Controller, book: &mut [Entry<E>], entry: Entry<E>)
    requires { row.old.length < cap_of book.old }
    ensures row { row.new ≡ appended me.number row.old }
    ensures book { book.new ≡ slice_set book.old row.old.length entry }
{
    book[row.length as usize] = entry;
    row.length += 1;
    if let Status::Primary { lengths } = &mut row.status {
        lengths[me.index()] = Some(row.length);
    }
}
