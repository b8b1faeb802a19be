//! What the steps of a script amount to.
use crate::fates::Fates;
use entries::{Answer, Body, Message, Question};
use numbers::{ControllerNumber, View};
use runs::{Outcome, Step, Turn};
use std::alloc::{AllocError, Global};

mod telling;

// A view, and the controller that opened it.
#[derive(Clone, Copy)]
struct Opening {
    view: View,
    by: ControllerNumber,
}

// A lookup that was taken.
#[derive(Clone, Copy)]
struct Heard {
    question: Question,
    answer: Answer,
}

/// What the steps so far amount to.
#[derive(Drop)]
pub struct Statement {
    taken: u64,
    refused: u64,
    fates: Fates,
    opened: Vec<Opening>,
    // the last lookup at each controller
    heard: [Option<Heard>; 7],
}

impl Statement {
    pub fn new(heap: Global) -> Statement {
        Statement {
            taken: 0,
            refused: 0,
            fates: Fates::new(heap),
            opened: Vec::new(heap),
            heard: [None; 7],
        }
    }

    fn hear(&mut self, i: ControllerNumber, question: Question, answer: Answer) {
        if let Some(heard) = self.heard.get_mut(i.number as usize) {
            *heard = Some(Heard { question, answer });
        }
    }

    // A form message that is taken opens its view.
    fn take<E: Copy>(&mut self, message: Message<E>) -> Result<(), AllocError> {
        if let Body::Form = message.body {
            let by = message.addressee;
            let view = message.view;
            self.opened.push(Opening { view, by })?;
        }
        Ok(())
    }

    // A step was taken, and that came of it.
    fn count<E: Copy>(&mut self, step: Step<E>, outcome: Outcome<E>) -> Result<(), AllocError> {
        self.taken = self.taken.saturating_add(1);
        match (step, outcome) {
            (_, Outcome::Changed { stamp }) => self.fates.hand_out(stamp)?,
            (_, Outcome::Delivered { message }) => self.take(message)?,
            (Step::Settle { stamp, .. }, Outcome::Settled { verdict }) => {
                self.fates.settle(stamp, verdict);
            }
            (Step::Lookup { i, question }, Outcome::Answered { answer }) => {
                self.hear(i, question, answer);
            }
            _ => {}
        }
        Ok(())
    }

    /// One more step was run.
    pub fn note<E: Copy>(&mut self, turn: Turn<E>) -> Result<(), AllocError> {
        let Turn { step, outcome } = turn;
        match outcome {
            Some(Ok(outcome)) => self.count(step, outcome),
            Some(Err(_)) => {
                self.refused = self.refused.saturating_add(1);
                Ok(())
            }
            None => Ok(()),
        }
    }
}
