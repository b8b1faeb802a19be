//! Cabinets whose writes left can be shown.
ghost use Rattle.std.specs.Prelude.{◌≡◌};
ghost use Rattle.cabinet.specs.Cells.{cell_at};

use cabinet::{Cabinet, Strip, Tray};

/// The impls only call `left`. It is no part of the trait `Cabinet`: steps may ask only if a cell is worn.
pub trait Shown: Cabinet {
    /// The writes left of a cell; none for a cell of 7 or more.
    fn writes_left(&self, cell: u16) -> u16
        ensures { result ≡ (cell_at (Self.Cabinet.cells self.now).list cell).left };
}

impl Shown for Tray {
    fn writes_left(&self, cell: u16) -> u16 {
        self.left(cell)
    }
}

impl<'a> Shown for Strip<'a> {
    fn writes_left(&self, cell: u16) -> u16 {
        self.left(cell)
    }
}
