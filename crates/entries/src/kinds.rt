//! Kinds of change, by what they say to a question.
ghost use Rattle.std.specs.Prelude.{◌≡◌, Option};
ghost use Rattle.entries.specs.declared.kinds.Answer.{Answer};
ghost use Rattle.entries.specs.declared.kinds.Question.{Question};

/// What a door shows.
#[derive(Clone, Copy, PartialEq, Eq, Debug)]
pub enum Answer {
    Green,
    Red,
}

/// A question of two numbers, whose meaning is the kind's: a card and a door, a door and a minute.
#[derive(Clone, Copy, PartialEq, Eq, Debug)]
pub struct Question {
    pub first: u16,
    pub second: u16,
}

/// A kind of change. What its changes say, and its unsettled answer, are its whole meaning.
pub trait Kind: Copy {
    // what a change says to a question, or nothing
    ghost says: { Self → Question → Option Answer };

    // the constant of that name
    ghost UNSETTLED: { Answer };

    /// The answer to a question that no entry settles.
    const UNSETTLED: Answer;

    /// What this change says to a question: an answer, or none where the question does not concern it.
    fn say(&self, question: Question) -> Option<Answer>
        ensures { result ≡ says self.now question };
}
