//! Strips: sizes, slots filled in order, and every way in which bytes can fail the check.
use crate::values::{puts, row};
use cabinet::*;
use numbers::*;
use std::test::Fail;

// The slot of current (5, 1), promised (128, 0), that of twice (0, 0), and an empty one whose rest
// is not 0.
const SLOT: [u8; 8] = [1, 0, 5, 1, 0, 128, 0, 0];

const ZERO: [u8; 8] = [1, 0, 0, 0, 0, 0, 0, 0];

const EMPTY: [u8; 8] = [0, 9, 9, 9, 9, 9, 9, 9];

#[test]
fn sizes(rt: HostRuntime) {
    let bytes = [0u8; 57_400];
    for (size, in_form) in [
        (0, false),
        (8, false),
        (55, false),
        (56, true),
        (57, false),
        (112, true),
        (57_288, true),
        (57_343, false),
        (57_344, true),
        (57_400, false),
    ] {
        assert!(rt; size <= 57_400);
        assert_eq!(rt; Strip::check(&bytes[0..size]).is_ok(), in_form);
    }
}

// Whether the bytes pass the check, cell 0 of their strip has a write left, takes twice (0, 0), and
// cell 2 holds anything else than that.
fn of_strip(bytes: &mut [u8]) -> [bool; 4] {
    let passes = Strip::check(bytes).is_ok();
    let mut strip = Strip::new(bytes);
    let left = !strip.worn(0);
    let takes = strip.put(0, CellRecord::zero()).is_ok();
    let holds = strip.held(2).row() != row((0, 0), (0, 0));
    [passes, left, takes, holds]
}

// One byte of a filled slot, the only one of cell 2, is changed.
#[test]
fn one_byte_changed(rt: HostRuntime) {
    for (at, byte, in_form, holds) in [
        (0, 1, true, true),
        (0, 0, true, false),
        (0, 2, false, false),
        (0, 255, false, false),
        (1, 64, false, false),
        (2, 127, true, true),
        (2, 128, false, false),
        (3, 6, true, true),
        (3, 7, false, false),
        (4, 63, true, true),
        (4, 64, false, false),
        (5, 5, false, false),
        (5, 6, true, true),
        (6, 6, true, true),
        (6, 7, false, false),
        (7, 1, false, false),
    ] {
        assert!(rt; at < 8);
        let mut slot = SLOT;
        slot[at] = byte;
        let mut bytes = [0; 56];
        bytes[16..24].copy_from_slice(&slot);
        assert_eq!(rt; of_strip(&mut bytes), [in_form, in_form, in_form, holds]);
        assert_eq!(rt; &bytes[16..24], &slot[0..8]);
    }
}

// Bytes whose number is no strip's, each 1, so that every slot among them would be filled: they fail the check, and their
// strip takes and writes nothing.
#[test]
fn bytes_of_no_strip(rt: HostRuntime) {
    let mut bytes = [1; 57_400];
    for size in [0, 8, 55, 57, 57_343, 57_400] {
        assert!(rt; size <= 57_400);
        assert_eq!(rt; of_strip(&mut bytes[0..size]), [false; 4]);
        assert!(rt; bytes.iter().all(|byte| *byte == 1));
    }
}

// The two slots of cell 0 before and after a put of twice (0, 0).
#[test]
fn the_first_empty_slot_is_filled(rt: HostRuntime) {
    for (first, second, in_form, takes, then) in [
        (EMPTY, EMPTY, true, true, (ZERO, EMPTY)),
        (SLOT, EMPTY, true, true, (SLOT, ZERO)),
        (SLOT, SLOT, true, false, (SLOT, SLOT)),
        (EMPTY, SLOT, false, false, (EMPTY, SLOT)),
    ] {
        let mut bytes = [0; 112];
        bytes[0..8].copy_from_slice(&first);
        bytes[8..16].copy_from_slice(&second);
        assert_eq!(rt; of_strip(&mut bytes), [in_form, takes, takes, false]);
        assert_eq!(rt; &bytes[0..8], &then.0[0..8]);
        assert_eq!(rt; &bytes[8..16], &then.1[0..8]);
    }
}

// With 57,344 bytes each cell has 1,024 slots.
#[test]
fn filled_to_the_last_slot(rt: HostRuntime) -> Result<(), Fail> {
    let last = CellRecord::try_from(row((5, 1), (128, 0)))?;
    let mut bytes = [0; 57_344];
    let mut strip = Strip::new(&mut bytes);
    assert_eq!(rt; puts(&mut strip, 6, CellRecord::zero(), 1_023), 1_023);
    assert_eq!(rt; puts(&mut strip, 6, last, 2), 1);
    assert_eq!(rt; puts(&mut strip, 7, last, 1), 0);
    assert_eq!(rt; strip.held(6).row(), last.row());
    assert_eq!(rt; (strip.worn(5), strip.worn(6)), (false, true));
    assert_eq!(rt; &bytes[57_336..57_344], &SLOT[0..8]);
    Ok(())
}
