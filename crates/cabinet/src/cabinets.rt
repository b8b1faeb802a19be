//! What a cabinet is: the cells that it means, and its three calls.
ghost use Rattle.std.specs.Prelude.{◌≡◌, if◌then◌else◌, Ok, Err};
ghost use Rattle.numbers.specs.Records.{row_of};
ghost use Rattle.cabinet.specs.Cells.{Seven, cell_at, is_worn, put_cells};

use crate::faults::Worn;
use numbers::CellRecord;

/// Seven cells, numbered from 0, each with a record and a number of writes left.
pub trait Cabinet {
    // each cell's row and writes left; there are seven, numbered from 0
    ghost cells: { Self → Seven };

    /// The record of a cell; twice the view (0, 0) for a cell of 7 or more.
    fn held(&self, cell: u16) -> CellRecord
        ensures { row_of result ≡ (cell_at (cells self.now).list cell).row };

    /// Whether the cell has no writes left; true for a cell of 7 or more.
    fn worn(&self, cell: u16) -> bool
        ensures { result ≡ is_worn (cells self.now).list cell };

    /// Puts the record into the cell, which then has one write fewer. Refused exactly where no
    /// writes are left, and then nothing changes.
    fn put(&mut self, cell: u16, new: CellRecord) -> Result<(), Worn>
        ensures result { result ≡ (if is_worn (cells self.old).list cell then Err (record { cell = cell }) else Ok tt) }
        ensures after { (cells self.new).list ≡ put_cells (cells self.old).list cell (row_of new) };
}
