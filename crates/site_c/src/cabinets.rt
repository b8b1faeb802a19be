//! A list of puts into the cells of a cabinet, and a list of cells that are read.
use crate::lookups::Pair;
use cabinet::{Cabinet, Strip, Tray};
use numbers::{CellRecord, Row, View};

// The record whose two views are both the first of controller 1 with that count.
fn record(count: u16) -> CellRecord {
    let view = View::of(count, 1);
    CellRecord::try_from(Row {
        current: view,
        promised: view,
    })
    .unwrap_or(CellRecord::zero())
}

// Each put is a cell and a count, whose record is put. How many were taken.
fn put_all<C: Cabinet>(cab: &mut C, puts: &[Pair]) -> u64 {
    let mut taken = 0u64;
    for put in puts {
        let took = cab.put(put.first, record(put.second)).is_ok();
        taken = taken.wrapping_add(u64::from(took));
    }
    taken
}

// The sum of the promised counts that these cells hold.
fn read_all<C: Cabinet>(cab: &C, cells: &[u16]) -> u64 {
    let mut sum = 0u64;
    for cell in cells {
        let held = cab.held(*cell).row().promised.count.number;
        sum = sum.wrapping_add(u64::from(held));
    }
    sum
}

/// On a tray: the puts, and then the cells. The puts that were taken, and the counts that were read.
#[unsafe(no_mangle)]
pub extern "C" fn site_c_tray(puts: &[Pair], cells: &[u16]) -> u64 {
    let mut tray = Tray::new([65_535; 7]);
    put_all(&mut tray, puts).wrapping_add(read_all(&tray, cells))
}

/// On a strip of these bytes, which is checked first.
#[unsafe(no_mangle)]
pub extern "C" fn site_c_strip(bytes: &mut [u8], puts: &[Pair], cells: &[u16]) -> u64 {
    let mut strip = Strip::new(bytes);
    put_all(&mut strip, puts).wrapping_add(read_all(&strip, cells))
}
