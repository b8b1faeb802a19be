//! Hours changes: the minutes of the day at which a door is open.
ghost use Rattle.entries.specs.Says.{hours_says};
ghost use Rattle.entries.specs.declared.kinds.Answer.TheVariants.{Green};

use crate::kinds::{Answer, Kind, Question};

/// A door that is open from its opening minute up to its shutting minute, which is no longer open.
#[derive(Clone, Copy, PartialEq, Eq, Debug)]
pub struct HoursChange {
    pub door: u16,
    pub opening: u16,
    pub shutting: u16,
}

/// The question is a door and a minute.
impl Kind for HoursChange {
    ghost says = { hours_says };

    ghost UNSETTLED = { Green };

    const UNSETTLED: Answer = Answer::Green;

    fn say(&self, question: Question) -> Option<Answer> {
        let minute = question.second;
        if self.door == question.first {
            Some(if self.opening <= minute && minute < self.shutting {
                Answer::Green
            } else {
                Answer::Red
            })
        } else {
            None
        }
    }
}
