//! What came of a step, as a line of the report.
use crate::spelling::Spelled;
use crate::views::Dotted;
use numbers::{ControllerNumber, Stamp};
use runs::{Outcome, Turn};
use site::{Fault, Named};
use std::fmt;

/// A line of the report.
#[derive(Clone, Copy)]
pub enum Line {
    Made,
    Refused {
        word: &'static str,
        fault: Fault,
    },
    Changed {
        stamp: Stamp,
    },
    Formed {
        chosen: ControllerNumber,
    },
    /// a step's word, and one word more
    Taken {
        word: &'static str,
        how: &'static str,
    },
}

/// The line of a turn that was run.
impl<E: Copy> From<Turn<E>> for Line {
    fn from(turn: Turn<E>) -> Line {
        let word = turn.step.word();
        match turn.outcome {
            None => Line::Taken {
                word,
                how: "not run",
            },
            Some(Err(fault)) => Line::Refused { word, fault },
            Some(Ok(Outcome::Changed { stamp })) => Line::Changed { stamp },
            Some(Ok(Outcome::Settled { verdict })) => Line::Taken {
                word,
                how: verdict.word(),
            },
            Some(Ok(Outcome::Answered { answer })) => Line::Taken {
                word,
                how: answer.word(),
            },
            Some(Ok(Outcome::Formed { chosen })) => Line::Formed { chosen },
            Some(Ok(Outcome::Delivered { message })) => Line::Taken {
                word,
                how: message.body.word(),
            },
            Some(Ok(Outcome::Done)) => Line::Taken { word, how: "ok" },
        }
    }
}

impl fmt::Display for Line {
    fn fmt<W: fmt::Write>(&self, f: &mut fmt::Formatter<W>) -> fmt::Result {
        match *self {
            Line::Made => write!(f, "made"),
            Line::Refused { word, fault } => show_refusal(f, word, fault),
            Line::Changed { stamp } => {
                let view = Dotted(stamp.view);
                let place = stamp.place.number;
                write!(f, "change: slip {view} {place}")
            }
            Line::Formed { chosen } => {
                let number = chosen.number;
                write!(f, "form: chosen {number}")
            }
            Line::Taken { word, how } => write!(f, "{word}: {how}"),
        }
    }
}

fn show_refusal<W: fmt::Write>(f: &mut fmt::Formatter<W>, word: &str, fault: Fault) -> fmt::Result {
    let question = u8::from(fault.refusal);
    match fault.named {
        Named::Cell { cell, controller } => {
            let number = controller.number;
            write!(
                f,
                "{word}: refused {question} cell {cell} controller {number}"
            )
        }
        Named::Message { number } => write!(f, "{word}: refused {question} message {number}"),
        Named::Controller { number } => {
            let number = number.number;
            write!(f, "{word}: refused {question} controller {number}")
        }
    }
}
