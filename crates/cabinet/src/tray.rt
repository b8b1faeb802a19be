//! A tray: records in battery memory, a table of seven plain rows and one of the writes left.
ghost use Rattle.std.specs.Prelude.{◌≡◌, length, map};
ghost use Rattle.cabinet.specs.Cells.{AllKept, fresh, cell_at};

use crate::cabinets::Cabinet;
use crate::faults::Worn;
use numbers::{CellRecord, Row};

/// A cabinet in memory that a battery keeps: a row for each cell, in form, and how many writes it has left.
#[derive(Drop)]
pub struct Tray {
    rows: [Row; 7],
    left: [u16; 7],
    ghost seven: { (length rows ≡ 7) × (length left ≡ 7) },
    ghost kept: { AllKept rows },
}

impl Tray {
    ghost use Rattle.cabinet.specs.Trays.{tray_cells};

    /// Every cell holds twice the view (0, 0) and has the writes left that are given for it.
    pub fn new(left: [u16; 7]) -> Tray
        ensures { tray_cells result ≡ map fresh left }
    {
        Tray {
            rows: [Row::ZERO; 7],
            left,
        }
    }

    /// The writes left of a cell; none for a cell of 7 or more.
    pub fn left(&self, cell: u16) -> u16
        ensures { result ≡ (cell_at (tray_cells self.now) cell).left }
    {
        self.left.get(cell as usize).copied().unwrap_or(0)
    }
}

impl Cabinet for Tray {
    ghost use Rattle.cabinet.specs.Trays.{tray_seven};

    ghost cells = { tray_seven };

    fn held(&self, cell: u16) -> CellRecord {
        let Some(row) = self.rows.get(cell as usize) else {
            return CellRecord::zero();
        };
        CellRecord::try_from(*row).unwrap()
    }

    fn worn(&self, cell: u16) -> bool {
        self.left(cell) == 0
    }

    fn put(&mut self, cell: u16, new: CellRecord) -> Result<(), Worn> {
        let left = self.left(cell);
        if left == 0 {
            return Err(Worn { cell });
        }
        self.rows[cell as usize] = new.row();
        self.left[cell as usize] = left - 1;
        Ok(())
    }
}
