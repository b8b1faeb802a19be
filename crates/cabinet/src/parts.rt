//! One part of a strip, the slots of one cell: the search for its first empty slot, its form, and
//! what it holds.
ghost use Rattle.std.specs.Prelude.{◌≡◌, ◌≤◌, Decides};
ghost use Rattle.numbers.specs.Records.{row_of};
ghost use Rattle.cabinet.specs.Slots.{slots_in, filled, part_cell, AllInForm, AllEmpty, PartForm};

use crate::slots::read_slot;
use numbers::CellRecord;

/// How many slots are filled before the first empty one.
pub fn filled_slots(part: &[u8]) -> usize
    ensures value { result ≡ filled part.now }
    ensures bound { result ≤ slots_in part.now }
{
    part.chunks_exact(8).take_while(|slot| slot[0] != 0).count()
}

/// Whether the n filled slots come first, each in form, and all the rest are empty.
pub fn is_in_form(part: &[u8], n: usize) -> bool
    requires { n ≡ filled part.now }
    ensures { Decides result (PartForm part.now) }
{
    let (first, rest) = part.split_at(8 * n);
    all_in_form(first) && all_empty(rest)
}

// Whether every slot is filled and in form.
fn all_in_form(slots: &[u8]) -> bool
    ensures { Decides result (AllInForm slots.now) }
{
    slots.chunks_exact(8).all(|slot| read_slot(slot).is_ok())
}

// Whether every slot is empty.
fn all_empty(slots: &[u8]) -> bool
    ensures { Decides result (AllEmpty slots.now) }
{
    slots.chunks_exact(8).all(|slot| slot[0] == 0)
}

/// The record of the last of n filled slots, or twice the view (0, 0).
pub fn last_record(part: &[u8], n: usize) -> CellRecord
    requires form { PartForm part.now }
    requires count { n ≡ filled part.now }
    requires bound { n ≤ slots_in part.now }
    ensures { row_of result ≡ (part_cell part.now).row }
{
    if n == 0 {
        return CellRecord::zero();
    }
    read_slot(&part[8 * (n - 1)..8 * n]).unwrap()
}
