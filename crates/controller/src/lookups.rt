//! What an active controller answers from its book.
ghost use Rattle.std.specs.Prelude.{◌≡◌, Bool, List};
ghost use Rattle.cabinet.specs.Cells.{Cell};
ghost use Rattle.controller.specs.declared.outcomes.Outcome.TheVariants.{Answered};
ghost use Rattle.controller.specs.Actions.{as_outcome, effect, returned, own};
ghost use Rattle.controller.specs.Lookups.{lookup as looks_up};

use crate::books::used;
use crate::faults::Fault;
use crate::questions::ask;
use crate::records::Controller;
use entries::{Answer, Entry, Kind, Question};
use numbers::{Member, Refusal};

/// What the book answers to a question.
pub fn lookup<E: Kind>(
    me: Member,
    row: &Controller,
    book: &[Entry<E>],
    question: Question,
) -> Result<Answer, Fault>
    ensures { (room : Bool) (cs : List Cell) → effect me.number room (own row.now book.now cs) (looks_up E.says E.UNSETTLED question) ≡ returned (as_outcome Answered result) (own row.now book.now cs) }
{
    ask(me, row.is_up(), Refusal::WrongPower)?;
    ask(me, row.is_active(), Refusal::WrongStatus)?;
    Ok(entries::lookup(used(row, book), question))
}
