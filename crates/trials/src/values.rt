//! Rows and replies of any numbers, as the tests write them, and many puts.
use cabinet::Cabinet;
use entries::Reply;
use numbers::*;

/// What a controller says of itself to a call.
pub fn normal(current: View, length: u16, primary: bool) -> Reply {
    Reply::Normal {
        current,
        length,
        primary,
    }
}

pub fn crash(current: View) -> Reply {
    Reply::Crash { current }
}

/// The row of a current and a promised view.
pub fn row(current: (u16, u16), promised: (u16, u16)) -> Row {
    Row {
        current: View::of(current.0, current.1),
        promised: View::of(promised.0, promised.1),
    }
}

/// Puts the record so many times into the cell, and says how often it was taken.
pub fn puts<C: Cabinet>(cabinet: &mut C, cell: u16, new: CellRecord, times: usize) -> usize {
    (0..times)
        .filter(|_| cabinet.put(cell, new).is_ok())
        .count()
}
