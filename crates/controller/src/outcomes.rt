//! What comes of a step that was taken, as one value for all steps.
use crate::verdicts::Verdict;
use entries::{Answer, Message};
use numbers::{ControllerNumber, Stamp};

/// What a step answers where it is taken.
#[derive(Clone, Copy, PartialEq, Eq, Debug)]
pub enum Outcome<E> {
    /// the stamp of the slip that was handed out
    Changed { stamp: Stamp },
    Settled { verdict: Verdict },
    Answered { answer: Answer },
    /// the controller that is to open the view
    Formed { chosen: ControllerNumber },
    /// the message that was taken
    Delivered { message: Message<E> },
    /// any other step
    Done,
}
