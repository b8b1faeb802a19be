//! Trays: writes left, and a cell past the last.
use crate::values::{puts, row};
use cabinet::*;
use numbers::*;
use std::test::Fail;

#[test]
fn a_tray_wears(rt: HostRuntime) -> Result<(), Fail> {
    let first = CellRecord::try_from(row((0, 0), (1, 2)))?;
    let last = CellRecord::try_from(row((1, 2), (16_383, 6)))?;
    let mut tray = Tray::new([0, 65_535, 1, 0, 0, 0, 0]);
    for (cell, worn) in [
        (0, true),
        (1, false),
        (2, false),
        (6, true),
        (7, true),
        (65_535, true),
    ] {
        assert_eq!(rt;
            (tray.worn(cell), tray.held(cell).row()),
            (worn, row((0, 0), (0, 0)))
        );
    }
    assert_eq!(rt; puts(&mut tray, 1, first, 65_534), 65_534);
    assert_eq!(rt; puts(&mut tray, 1, last, 2), 1);
    assert_eq!(rt; (tray.worn(1), tray.held(1).row()), (true, last.row()));
    assert_eq!(rt;
        (tray.worn(2), tray.held(2).row()),
        (false, row((0, 0), (0, 0)))
    );
    Ok(())
}

// Where no writes are left the fault names the cell, and nothing changes.
#[test]
fn a_worn_cell_refuses(rt: HostRuntime) -> Result<(), Fail> {
    let new = CellRecord::try_from(row((0, 0), (1, 2)))?;
    let mut tray = Tray::new([0, 1, 1, 1, 1, 1, 1]);
    for cell in [0, 7, 300] {
        match tray.put(cell, new) {
            Ok(()) => return Err(Fail::new("a worn cell took a record")),
            Err(worn) => assert_eq!(rt; worn.cell, cell),
        }
    }
    for cell in 0..7 {
        assert_eq!(rt; tray.held(cell).row(), row((0, 0), (0, 0)));
        assert_eq!(rt; tray.worn(cell), cell == 0);
    }
    Ok(())
}
