//! Why a call was refused: one case for each question that a call can fail.
ghost use Rattle.std.specs.Prelude.{◌≡◌};

/// The question that a call failed.
#[derive(Clone, Copy, PartialEq, Eq, Debug)]
pub enum Refusal {
    /// n, cap or the pool is out of range, or the books are not n × cap entries; later, the site
    /// is not made, or was made with other lengths
    NotMade,
    /// a named controller is not of this site, or two named ones are the same
    NoSuchController,
    /// the message number is not below the pool's count
    NoSuchMessage,
    /// a number in the message is out of range
    BadMessage,
    /// the acting controller is down (at recover: up)
    WrongPower,
    /// the status is not the one that the step needs
    WrongStatus,
    /// the controller is not the primary
    NotPrimary,
    /// the view does not meet the step's condition
    WrongView,
    /// the book is not complete
    IncompleteBook,
    /// the place or length does not fit, or the sender's answer is counted already
    DoesNotFit,
    /// the book has no room for one more entry
    BookFull,
    /// no rule allows the view to be formed
    NoRuleAllows,
    /// the promised count is the last one
    CountsSpent,
    /// the pool has no room for one more message
    PoolFull,
    /// the cell has no writes left
    CellWorn,
    /// a cell does not hold twice the view (0, 0)
    CellsUsed,
    /// numbers or bytes do not keep the form of what is made from them
    BadForm,
}

/// The number by which users know the refusal.
impl From<Refusal> for u8 {
    ghost use Rattle.numbers.specs.Refusals.{number_of, refusal};

    ghost from_gives = { λ r n. (n ≡ number_of r) × (refusal n ≡ r) };

    fn from(refusal: Refusal) -> u8 {
        match refusal {
            Refusal::NotMade => 1,
            Refusal::NoSuchController => 2,
            Refusal::NoSuchMessage => 3,
            Refusal::BadMessage => 4,
            Refusal::WrongPower => 5,
            Refusal::WrongStatus => 6,
            Refusal::NotPrimary => 7,
            Refusal::WrongView => 8,
            Refusal::IncompleteBook => 9,
            Refusal::DoesNotFit => 10,
            Refusal::BookFull => 11,
            Refusal::NoRuleAllows => 12,
            Refusal::CountsSpent => 13,
            Refusal::PoolFull => 14,
            Refusal::CellWorn => 15,
            Refusal::CellsUsed => 16,
            Refusal::BadForm => 17,
        }
    }
}
