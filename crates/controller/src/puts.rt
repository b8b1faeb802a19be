//! A put of two views into a controller's own cell.
ghost use Rattle.std.specs.Prelude.{◌≡◌, true, false, MatchResult};
ghost use Rattle.numbers.specs.Rows.{row_ok};
ghost use Rattle.cabinet.specs.Cells.{is_worn};
ghost use Rattle.controller.specs.Puts.{put_after, put_fails};

use crate::faults::Fault;
use crate::questions::refused;
use cabinet::{Cabinet, Worn};
use numbers::{CellRecord, Member, Row};

/// Puts two views into the controller's own cell. A worn cell is refused before views that do not
/// keep the form of a record.
pub fn put_views<C: Cabinet>(me: Member, cab: &mut C, views: Row) -> Result<(), Fault>
    ensures result { MatchResult result (λ _. (is_worn (C.cells cab.old).list me.number.number ≡ false) × (row_ok views ≡ true)) (λ e. put_fails (C.cells cab.old).list me.number views e) }
    ensures cells { (C.cells cab.new).list ≡ put_after (C.cells cab.old).list me.number views }
{
    let cell = me.number().number;
    match CellRecord::try_from(views) {
        Ok(new) => Ok(cab.put(cell, new)?),
        Err(_) if cab.worn(cell) => Err(Fault::from(Worn { cell })),
        Err(refusal) => Err(refused(me, refusal)),
    }
}
