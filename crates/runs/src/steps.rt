//! The twelve steps as values, and what comes of them.
ghost use Rattle.std.specs.Prelude.{◌≡◌, None};

use controller::Outcome;
use entries::Question;
use numbers::{ControllerNumber, Place, Stamp};
use site::Fault;

/// An enum, and no list of closures: the guarantee is said over the list of steps, so they are values.
#[derive(Clone, Copy, PartialEq, Eq, Debug)]
pub enum Step<E> {
    Change {
        i: ControllerNumber,
        x: E,
    },
    Pass {
        i: ControllerNumber,
        to: ControllerNumber,
        place: Place,
    },
    Call {
        i: ControllerNumber,
    },
    Invite {
        i: ControllerNumber,
        to: ControllerNumber,
    },
    Form {
        i: ControllerNumber,
    },
    Deliver {
        message: u16,
    },
    Join {
        i: ControllerNumber,
        primary: ControllerNumber,
    },
    /// of the slip that is taken up from these numbers
    Settle {
        i: ControllerNumber,
        stamp: Stamp,
    },
    Lookup {
        i: ControllerNumber,
        question: Question,
    },
    Crash {
        i: ControllerNumber,
    },
    Recover {
        i: ControllerNumber,
    },
    Lose {
        message: u16,
    },
}

/// One step of a list, and what came of it: nothing before it was run.
#[derive(Clone, Copy, PartialEq, Eq, Debug)]
pub struct Turn<E> {
    pub step: Step<E>,
    pub outcome: Option<Result<Outcome<E>, Fault>>,
}

/// A step that was not run yet.
impl<E> From<Step<E>> for Turn<E> {
    ghost from_gives = { λ step turn. turn ≡ record { step = step; outcome = None } };

    fn from(step: Step<E>) -> Turn<E> {
        Turn {
            step,
            outcome: None,
        }
    }
}
