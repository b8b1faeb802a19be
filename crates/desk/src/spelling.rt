//! The words of a report for what the library names.
use controller::{Status, Verdict};
use entries::{Answer, Body, Reply};

pub trait Spelled {
    fn word(&self) -> &'static str;
}

/// The kind of a message.
impl<E: Copy> Spelled for Body<E> {
    fn word(&self) -> &'static str {
        match self {
            Body::Invitation => "invitation",
            Body::Answer { reply } => reply.word(),
            Body::Form => "form",
            Body::Entry { .. } => "entry",
            Body::Acknowledgement { .. } => "acknowledgement",
        }
    }
}

impl Spelled for Reply {
    fn word(&self) -> &'static str {
        match self {
            Reply::Normal { .. } => "normal",
            Reply::Crash { .. } => "crash",
        }
    }
}

impl Spelled for Verdict {
    fn word(&self) -> &'static str {
        match self {
            Verdict::Confirmed => "confirmed",
            Verdict::Lost => "lost",
            Verdict::Waiting => "waiting",
        }
    }
}

impl Spelled for Answer {
    fn word(&self) -> &'static str {
        match self {
            Answer::Green => "green",
            Answer::Red => "red",
        }
    }
}

impl Spelled for Status {
    fn word(&self) -> &'static str {
        match self {
            Status::Down => "down",
            Status::Waiting => "waiting",
            Status::Manager { .. } => "manager",
            Status::Backup | Status::Primary { .. } => "active",
        }
    }
}
