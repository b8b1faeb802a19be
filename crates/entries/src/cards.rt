//! Card changes: a card given or withdrawn at a set of doors.
ghost use Rattle.entries.specs.Says.{card_says};
ghost use Rattle.entries.specs.declared.kinds.Answer.TheVariants.{Red};

use crate::kinds::{Answer, Kind, Question};

/// A card given, or withdrawn, at a set of doors: bit d of `doors` is door d, from 0 to 15.
#[derive(Clone, Copy, PartialEq, Eq, Debug)]
pub struct CardChange {
    pub card: u16,
    pub doors: u16,
    pub given: bool,
}

/// The question is a card and a door.
impl Kind for CardChange {
    ghost says = { card_says };

    ghost UNSETTLED = { Red };

    const UNSETTLED: Answer = Answer::Red;

    fn say(&self, question: Question) -> Option<Answer> {
        let door = question.second;
        if self.card == question.first && door < 16 && (self.doors >> door) % 2 == 1 {
            Some(if self.given {
                Answer::Green
            } else {
                Answer::Red
            })
        } else {
            None
        }
    }
}
