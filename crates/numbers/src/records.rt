//! Cell records: two views, of which the current one is never later than the promised one.
ghost use Rattle.std.specs.Prelude.{◌≡◌, true, false, MatchResult};
ghost use Rattle.numbers.specs.Refusals.{refusal};
ghost use Rattle.numbers.specs.Rows.{row_ok, zero_row};

use crate::refusals::Refusal;
use crate::rows::Row;
use crate::views::ControllerNumber;

/// A record that a cell can hold. Whoever has one may rely on its form without a test.
#[derive(Clone, Copy, PartialEq, Eq, Debug)]
pub struct CellRecord {
    row: Row,
    ghost kept: { row_ok row ≡ true },
}

/// The record of a row; refused where a number is out of range or the current view is later than
/// the promised one.
impl TryFrom<Row> for CellRecord {
    ghost use Rattle.numbers.specs.Records.{row_of};

    type Error = Refusal;

    ghost try_from_gives = { λ row r. MatchResult r (λ x. (row_ok row ≡ true) × (row_of x ≡ row)) (λ e. (row_ok row ≡ false) × (e ≡ refusal 17)) };

    // The count of the current view is no larger than that of the promised one, so it needs no
    // test of its own.
    fn try_from(row: Row) -> Result<CellRecord, Refusal> {
        if row.promised.rank() < row.current.rank()
            || !row.promised.is_ok()
            || row.current.controller.number > ControllerNumber::LAST
        {
            return Err(Refusal::BadForm);
        }
        Ok(CellRecord { row })
    }
}

impl CellRecord {
    ghost use Rattle.numbers.specs.Records.{row_of};

    /// Twice the view (0, 0), which a cell holds at first.
    pub fn zero() -> CellRecord
        ensures { row_of result ≡ zero_row }
    {
        CellRecord { row: Row::ZERO }
    }

    /// The two views as a plain row, which keeps the form.
    pub fn row(self) -> Row
        ensures value { result ≡ row_of self }
        ensures kept { row_ok result ≡ true }
    {
        self.row
    }
}
