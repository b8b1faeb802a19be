//! A power cut, and the recovery from it.
ghost use Rattle.std.specs.Prelude.{◌≡◌, Bool, List};
ghost use Rattle.entries.specs.declared.book.Entry.{Entry};
ghost use Rattle.cabinet.specs.Cells.{Cell};
ghost use Rattle.controller.specs.declared.outcomes.Outcome.TheVariants.{Done};
ghost use Rattle.controller.specs.Actions.{as_outcome, effect, returned, own};
ghost use Rattle.controller.specs.Power.{crash as crashes, recover as recovers};

use crate::faults::Fault;
use crate::questions::ask;
use crate::records::{Controller, Status};
use cabinet::Cabinet;
use numbers::{Member, Refusal};

/// The controller goes down and remembers nothing but its cell. `E` is the type of its changes, of which the
/// contract speaks.
pub fn crash<E>(me: Member, row: &mut Controller) -> Result<(), Fault>
    ensures { (room : Bool) (b : List (Entry E)) (cs : List Cell) → effect me.number room (own row.old b cs) crashes ≡ returned (as_outcome (λ _. Done) result) (own row.new b cs) }
{
    ask(me, row.is_up(), Refusal::WrongPower)?;
    *row = Controller::down();
    Ok(())
}

/// The controller comes back: it waits with the views of its cell, and its book is not complete.
pub fn recover<E, C: Cabinet>(me: Member, row: &mut Controller, cab: &C) -> Result<(), Fault>
    ensures { (room : Bool) (b : List (Entry E)) → effect me.number room (own row.old b (C.cells cab.now).list) recovers ≡ returned (as_outcome (λ _. Done) result) (own row.new b (C.cells cab.now).list) }
{
    ask(me, !row.is_up(), Refusal::WrongPower)?;
    *row = Controller {
        status: Status::Waiting,
        views: cab.held(me.number().number).row(),
        ..Controller::down()
    };
    Ok(())
}
