//! A line as words, and the numbers that they say.
ghost use Rattle.desk.specs.Digits.{Reads};

use crate::kinds::Written;
use entries::Question;
use numbers::{ControllerNumber, Place, Stamp, View};
use std::str::Split;

/// The words of a line that are not read yet. Spaces and tabs part them. Each reader takes the words that it needs;
/// none where they do not fit.
#[derive(Drop)]
pub struct Words<'a> {
    pieces: Split<'a, [char; 2]>,
}

// A number is plain digits, up to 65,535.
fn number_of(word: &str) -> Option<u16>
    ensures { Reads word.now result }
{
    if word.starts_with('+') {
        return None;
    }
    word.parse::<u16>().ok()
}

impl<'a> Words<'a> {
    pub fn new(text: &'a str) -> Words<'a> {
        Words {
            pieces: text.split([' ', '\t']),
        }
    }

    /// The next word; none where all are read.
    pub fn next(&mut self) -> Option<&'a str> {
        self.pieces.find(|piece| !piece.is_empty())
    }

    /// Whether all words are read.
    pub fn is_done(&mut self) -> bool {
        self.next().is_none()
    }

    pub fn number(&mut self) -> Option<u16> {
        number_of(self.next()?)
    }

    /// Any number: one out of range is for the step to refuse. So too at a place.
    pub fn controller(&mut self) -> Option<ControllerNumber> {
        let number = self.number()?;
        Some(ControllerNumber { number })
    }

    pub fn place(&mut self) -> Option<Place> {
        let number = self.number()?;
        Some(Place { number })
    }

    /// A view count, a controller and a place, whether in range or not.
    pub fn stamp(&mut self) -> Option<Stamp> {
        let view = View::of(self.number()?, self.number()?);
        let place = self.place()?;
        Some(Stamp { view, place })
    }

    pub fn question(&mut self) -> Option<Question> {
        let first = self.number()?;
        let second = self.number()?;
        Some(Question { first, second })
    }

    pub fn change<E: Written>(&mut self) -> Option<E> {
        E::read(self)
    }
}
