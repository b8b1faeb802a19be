//! Calling a view, inviting to it and forming it.
ghost use Rattle.std.specs.Prelude.{◌≡◌, Bool, List, Option, take};
ghost use Rattle.entries.specs.declared.book.Entry.{Entry};
ghost use Rattle.entries.specs.declared.messages.Reply.{Reply as Replied};
ghost use Rattle.cabinet.specs.Cells.{Cell};
ghost use Rattle.controller.specs.declared.outcomes.Outcome.TheVariants.{Done, Formed};
ghost use Rattle.controller.specs.Actions.{as_outcome, effect, returned, returned_message, own};
ghost use Rattle.controller.specs.declared.records.Status.TheVariants.{Manager};
ghost use Rattle.controller.specs.Forms.{FormsByRules, chosen_in};
ghost use Rattle.controller.specs.Records.{reply_of};
ghost use Rattle.controller.specs.ViewChanges.{call as calls, form as forms, form_choice, invite as invites};

use crate::faults::Fault;
use crate::puts::put_views;
use crate::questions::{ask, refused};
use crate::records::{Controller, Status, only};
use cabinet::Cabinet;
use entries::{Body, Message, Reply};
use forming::choice_of_first;
use numbers::{ControllerNumber, Member, Refusal, Row, View, ViewCount};

/// What the controller says of itself to a call.
pub fn reply(me: Member, row: &Controller) -> Reply
    ensures { result ≡ reply_of me.number row.now }
{
    let current = row.views.current;
    if row.complete {
        Reply::Normal {
            current,
            length: row.length,
            primary: row.primary == me.number(),
        }
    } else {
        Reply::Crash { current }
    }
}

/// Calls the next view of this controller: promises it, and manages it with its own answer counted.
pub fn call<E, C: Cabinet>(me: Member, row: &mut Controller, cab: &mut C) -> Result<(), Fault>
    ensures { (room : Bool) (b : List (Entry E)) → effect me.number room (own row.old b (C.cells cab.old).list) calls ≡ returned (as_outcome (λ _. Done) result) (own row.new b (C.cells cab.new).list) }
{
    ask(me, row.is_up(), Refusal::WrongPower)?;
    let count = row.views.promised.count.number;
    ask(me, count < ViewCount::LAST, Refusal::CountsSpent)?;
    let promised = View {
        count: ViewCount { number: count + 1 },
        controller: me.number(),
    };
    let views = Row {
        promised,
        ..row.views
    };
    put_views(me, cab, views)?;
    let answers = only(me, reply(me, row));
    row.status = Status::Manager { answers };
    row.views = views;
    Ok(())
}

/// Invites a controller to the view that this one manages.
pub fn invite<E>(
    me: Member,
    row: &Controller,
    to: ControllerNumber,
    room: bool,
) -> Result<Message<E>, Fault>
    ensures { (b : List (Entry E)) (cs : List Cell) → effect me.number room (own row.now b cs) (invites to) ≡ returned_message (λ _. Done) result (own row.now b cs) }
{
    ask(me, row.is_up(), Refusal::WrongPower)?;
    ask(me, row.is_manager(), Refusal::WrongStatus)?;
    ask(me, room, Refusal::PoolFull)?;
    Ok(Message {
        sender: me.number(),
        addressee: to,
        view: row.views.promised,
        body: Body::Invitation,
    })
}

// The controller that the rules choose from the answers counted.
#[tactic(auto, unfolding(crate::specs::ViewChanges::form_choice))]
fn chosen(me: Member, row: &Controller) -> Option<ControllerNumber>
    ensures { result ≡ form_choice me.n row.now }
{
    let Status::Manager { answers } = row.status else {
        return None;
    };
    let number = choice_of_first(me, answers)? as u16;
    Some(ControllerNumber { number })
}

/// Forms the view by the rules: the chosen controller is to open it, and this one waits.
pub fn form<E>(me: Member, row: &mut Controller, room: bool) -> Result<Message<E>, Fault>
    ensures rules { (answers : List (Option Replied)) → row.old.status ≡ Manager answers → FormsByRules (take me.n answers) me.n (chosen_in result) }
    ensures step { (b : List (Entry E)) (cs : List Cell) → effect me.number room (own row.old b cs) (forms me.n) ≡ returned_message (λ m. Formed m.addressee) result (own row.new b cs) }
{
    ask(me, row.is_up(), Refusal::WrongPower)?;
    ask(me, row.is_manager(), Refusal::WrongStatus)?;
    let addressee = chosen(me, row).ok_or(refused(me, Refusal::NoRuleAllows))?;
    ask(me, room, Refusal::PoolFull)?;
    row.status = Status::Waiting;
    Ok(Message {
        sender: me.number(),
        addressee,
        view: row.views.promised,
        body: Body::Form,
    })
}
