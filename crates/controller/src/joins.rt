//! A waiting controller joins the view of an active primary.
ghost use Rattle.std.specs.Prelude.{◌≡◌, [], Ok, Err};
ghost use Rattle.controller.specs.Books.{in_use};
ghost use Rattle.controller.specs.declared.outcomes.Outcome.TheVariants.{Done};
ghost use Rattle.controller.specs.declared.faults.Fault.TheVariants.{Refused};
ghost use Rattle.controller.specs.Actions.{effect, returned_message, own};
ghost use Rattle.controller.specs.Joins.{follow as follows, join as joins, join_asks, taken_over};
ghost use Rattle.controller.specs.Questions.{asks};

use crate::books::{capacity, used};
use crate::faults::Fault;
use crate::puts::put_views;
use crate::questions::ask;
use crate::records::{Controller, Status};
use cabinet::Cabinet;
use entries::{Body, Entry, Message};
use numbers::{ControllerNumber, Member, Refusal, Row, View};

/// Follows the primary of a view, whose entries are the log: puts the view as current and
/// acknowledges the log's length. Taking the log over into the book is the caller's business, in
/// whose memory both lie.
pub fn follow<E: Copy, C: Cabinet>(
    me: Member,
    row: &mut Controller,
    cab: &mut C,
    book: &[Entry<E>],
    primary: ControllerNumber,
    view: View,
    log: &[Entry<E>],
    room: bool,
) -> Result<Message<E>, Fault>
    ensures { effect me.number room (own row.old book.now (C.cells cab.old).list) (follows primary view log.now) ≡ returned_message (λ _. Done) result (own row.new (taken_over result log.now book.now) (C.cells cab.new).list) }
{
    ask(me, view == row.views.promised, Refusal::WrongView)?;
    ask(me, row.views.current < view, Refusal::WrongView)?;
    ask(
        me,
        log.len() <= capacity(book) as usize,
        Refusal::DoesNotFit,
    )?;
    ask(me, room, Refusal::PoolFull)?;
    let views = Row {
        current: view,
        promised: view,
    };
    put_views(me, cab, views)?;
    let length = log.len() as u16;
    *row = Controller {
        status: Status::Backup,
        views,
        complete: true,
        length,
        primary,
    };
    Ok(Message {
        sender: me.number(),
        addressee: primary,
        view,
        body: Body::Acknowledgement { length },
    })
}

// Whether the one may join and the other be joined.
fn may_join(me: Member, row: &Controller, led: &Controller) -> Result<(), Fault>
    ensures { result ≡ asks (join_asks row.now led.now []) (λ k. Err (Refused k me.number)) (Ok tt) }
{
    ask(me, row.is_up(), Refusal::WrongPower)?;
    ask(me, led.is_up(), Refusal::WrongPower)?;
    ask(me, row.is_waiting(), Refusal::WrongStatus)?;
    ask(me, led.is_active(), Refusal::WrongStatus)?;
    ask(me, led.is_primary(), Refusal::NotPrimary)
}

/// Joins the view of the controller `leader`, whose record and book are lent for reading. Where it
/// is taken, the caller takes over the leader's entries in use.
pub fn join<E: Copy, C: Cabinet>(
    me: Member,
    row: &mut Controller,
    cab: &mut C,
    book: &[Entry<E>],
    leader: Member,
    led: &Controller,
    led_book: &[Entry<E>],
    room: bool,
) -> Result<Message<E>, Fault>
    ensures { effect me.number room (own row.old book.now (C.cells cab.old).list) (joins leader.number led.now (in_use led.now led_book.now)) ≡ returned_message (λ _. Done) result (own row.new (taken_over result (in_use led.now led_book.now) book.now) (C.cells cab.new).list) }
{
    may_join(me, row, led)?;
    follow(
        me,
        row,
        cab,
        book,
        leader.number(),
        led.views.current,
        used(led, led_book),
        room,
    )
}
