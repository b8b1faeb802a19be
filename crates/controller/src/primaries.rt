//! What a primary does with its book: it takes a change, and passes an entry on.
ghost use Rattle.std.specs.Prelude.{◌≡◌, Bool, List, [], Ok, Err};
ghost use Rattle.controller.specs.declared.outcomes.Outcome.TheVariants.{Changed, Done};
ghost use Rattle.controller.specs.declared.faults.Fault.TheVariants.{Refused};
ghost use Rattle.controller.specs.Primaries.{change as changes, pass as passes, primary_asks};
ghost use Rattle.cabinet.specs.Cells.{Cell};
ghost use Rattle.controller.specs.Questions.{asks};
ghost use Rattle.controller.specs.Actions.{as_outcome, effect, returned, returned_message, own};
ghost use Rattle.controller.specs.Slips.{stamp_on};

use crate::books::{append, capacity, entry_at};
use crate::faults::Fault;
use crate::questions::{ask, refused};
use crate::records::Controller;
use crate::slips::Slip;
use entries::{Body, Entry, Message};
use numbers::{ControllerNumber, Member, Place, Refusal, Stamp};

/// The questions of every step of a primary.
pub fn ask_primary(me: Member, row: &Controller) -> Result<(), Fault>
    ensures { result ≡ asks (primary_asks row.now []) (λ k. Err (Refused k me.number)) (Ok tt) }
{
    ask(me, row.is_up(), Refusal::WrongPower)?;
    ask(me, row.is_active(), Refusal::WrongStatus)?;
    ask(me, row.is_primary(), Refusal::NotPrimary)
}

/// Appends a change in the current view, and hands out its slip.
pub fn change<E: Copy>(
    me: Member,
    row: &mut Controller,
    book: &mut [Entry<E>],
    x: E,
) -> Result<Slip, Fault>
    ensures { (room : Bool) (cs : List Cell) → effect me.number room (own row.old book.old cs) (changes x) ≡ returned (as_outcome (λ slip. Changed (stamp_on slip)) result) (own row.new book.new cs) }
{
    ask_primary(me, row)?;
    ask(me, row.length < capacity(book), Refusal::BookFull)?;
    let view = row.views.current;
    append(me, row, book, Entry { view, change: x });
    let place = Place { number: row.length };
    Ok(Slip::of(Stamp { view, place }))
}

/// The entry at a place is to go to another controller.
pub fn pass<E: Copy>(
    me: Member,
    row: &Controller,
    book: &[Entry<E>],
    to: ControllerNumber,
    place: Place,
    room: bool,
) -> Result<Message<E>, Fault>
    ensures { (cs : List Cell) → effect me.number room (own row.now book.now cs) (passes to place) ≡ returned_message (λ _. Done) result (own row.now book.now cs) }
{
    ask_primary(me, row)?;
    let entry = entry_at(row, book, place).ok_or(refused(me, Refusal::DoesNotFit))?;
    ask(me, room, Refusal::PoolFull)?;
    Ok(Message {
        sender: me.number(),
        addressee: to,
        view: row.views.current,
        body: Body::Entry { place, entry },
    })
}
