//! What a message does to its addressee.
ghost use Rattle.std.specs.Prelude.{◌≡◌, ◌<◌, ◌≤◌, Bool, true, List, is_some, None, slice_index_or};
ghost use Rattle.controller.specs.Records.{is_manager, is_primary, answers_of, lengths_of};
ghost use Rattle.controller.specs.Books.{cap_of};
ghost use Rattle.entries.specs.declared.book.Entry.{Entry};
ghost use Rattle.cabinet.specs.Cells.{Cell};
ghost use Rattle.controller.specs.declared.outcomes.Outcome.TheVariants.{Delivered};
ghost use Rattle.controller.specs.Actions.{effect, returned_reply, own};
ghost use Rattle.controller.specs.Deliveries.{deliver as delivers, takes, takes_acknowledgement, takes_answer, takes_entry, takes_form, takes_invitation};
ghost use Rattle.controller.specs.Messages.{body_ok, message_ok, reply_ok, view_below};

use crate::books::{append, capacity};
use crate::faults::Fault;
use crate::puts::put_views;
use crate::questions::{ask, refused};
use crate::records::{Controller, Status, only};
use crate::view_changes::reply;
use cabinet::Cabinet;
use entries::{Body, Entry, Message, Reply};
use numbers::{Member, Place, Refusal, Row, View, ViewCount};

// The sizes of a site: n controllers, and cap entries a book.
#[derive(Clone, Copy)]
struct Sizes {
    n: u16,
    cap: u16,
}

impl Sizes {
    fn view_is_below(self, view: View) -> bool
        ensures { result ≡ view_below self.n view }
    {
        view.count.number <= ViewCount::LAST && view.controller.number < self.n
    }

    fn reply_is_ok(self, reply: Reply) -> bool
        ensures { result ≡ reply_ok self.n self.cap reply }
    {
        match reply {
            Reply::Normal {
                current,
                length,
                ..
            } => self.view_is_below(current) && length <= self.cap,
            Reply::Crash { current } => self.view_is_below(current),
        }
    }

    fn body_is_ok<E: Copy>(self, body: Body<E>) -> bool
        ensures { result ≡ body_ok self.n self.cap body }
    {
        match body {
            Body::Invitation | Body::Form => true,
            Body::Answer { reply } => self.reply_is_ok(reply),
            Body::Entry { place, entry } => {
                self.view_is_below(entry.view) && place.number <= self.cap
            }
            Body::Acknowledgement { length } => length <= self.cap,
        }
    }

    // Whether every number of the message is in range.
    fn message_is_ok<E: Copy>(self, message: Message<E>) -> bool
        ensures { result ≡ message_ok self.n self.cap message }
    {
        message.sender.number < self.n
            && message.addressee.number < self.n
            && self.view_is_below(message.view)
            && self.body_is_ok(message.body)
    }
}

// An invitation to a view: it is promised and answered.
fn take_invitation<E: Copy, C: Cabinet>(
    me: Member,
    row: &mut Controller,
    cab: &mut C,
    message: Message<E>,
    room: bool,
) -> Result<Option<Message<E>>, Fault>
    ensures { (b : List (Entry E)) → effect me.number room (own row.old b (C.cells cab.old).list) (takes_invitation message) ≡ returned_reply (Delivered message) result (own row.new b (C.cells cab.new).list) }
{
    ask(me, row.views.promised < message.view, Refusal::WrongView)?;
    ask(me, room, Refusal::PoolFull)?;
    let views = Row {
        promised: message.view,
        ..row.views
    };
    put_views(me, cab, views)?;
    let body = Body::Answer {
        reply: reply(me, row),
    };
    row.status = Status::Waiting;
    row.views = views;
    Ok(Some(Message {
        sender: me.number(),
        addressee: message.sender,
        view: message.view,
        body,
    }))
}

// Whether a manager has counted an answer of that controller.
fn has_answered(row: &Controller, from: usize) -> bool
    requires { from < 7 }
    ensures { result ≡ is_some (slice_index_or (answers_of row.now.status) from None) }
{
    match &row.status {
        Status::Manager { answers } => answers[from].is_some(),
        _ => false,
    }
}

// An answer to this manager: it is counted.
fn take_answer<E: Copy>(
    me: Member,
    row: &mut Controller,
    message: Message<E>,
    reply: Reply,
) -> Result<Option<Message<E>>, Fault>
    requires { (message.sender.number < 7) × (is_manager row.old ≡ true) }
    ensures { (room : Bool) (b : List (Entry E)) (cs : List Cell) → effect me.number room (own row.old b cs) (λ i o. takes_answer message i o (answers_of row.old.status) reply) ≡ returned_reply (Delivered message) result (own row.new b cs) }
{
    let from = message.sender.number as usize;
    ask(me, message.view == row.views.promised, Refusal::WrongView)?;
    ask(me, !has_answered(row, from), Refusal::DoesNotFit)?;
    if let Status::Manager { answers } = &mut row.status {
        answers[from] = Some(reply);
    }
    Ok(None)
}

// A form message: its view is opened, with this controller as primary.
fn take_form<E: Copy, C: Cabinet>(
    me: Member,
    row: &mut Controller,
    cab: &mut C,
    message: Message<E>,
) -> Result<Option<Message<E>>, Fault>
    ensures { (room : Bool) (b : List (Entry E)) → effect me.number room (own row.old b (C.cells cab.old).list) (takes_form message) ≡ returned_reply (Delivered message) result (own row.new b (C.cells cab.new).list) }
{
    ask(me, message.view == row.views.promised, Refusal::WrongView)?;
    ask(me, row.complete, Refusal::IncompleteBook)?;
    let views = Row {
        current: message.view,
        ..row.views
    };
    put_views(me, cab, views)?;
    row.status = Status::Primary {
        lengths: only(me, row.length),
    };
    row.views = views;
    row.primary = me.number();
    Ok(None)
}

// An entry of the current view: the next one is appended, and the new length acknowledged.
fn take_entry<E: Copy>(
    me: Member,
    row: &mut Controller,
    book: &mut [Entry<E>],
    message: Message<E>,
    place: Place,
    entry: Entry<E>,
    room: bool,
) -> Result<Option<Message<E>>, Fault>
    requires { place.number ≤ cap_of book.old }
    ensures { (cs : List Cell) → effect me.number room (own row.old book.old cs) (λ i o. takes_entry message i o place entry) ≡ returned_reply (Delivered message) result (own row.new book.new cs) }
{
    ask(me, message.view == row.views.current, Refusal::WrongView)?;
    ask(
        me,
        place.number as u32 == row.length as u32 + 1,
        Refusal::DoesNotFit,
    )?;
    ask(me, room, Refusal::PoolFull)?;
    append(me, row, book, entry);
    let body = Body::Acknowledgement { length: row.length };
    Ok(Some(Message {
        sender: me.number(),
        addressee: message.sender,
        view: message.view,
        body,
    }))
}

// An acknowledgement to this primary: the larger of the sender's lengths is kept.
fn take_acknowledgement<E: Copy>(
    me: Member,
    row: &mut Controller,
    message: Message<E>,
    length: u16,
) -> Result<Option<Message<E>>, Fault>
    requires { (message.sender.number < 7) × (is_primary row.old ≡ true) }
    ensures { (room : Bool) (b : List (Entry E)) (cs : List Cell) → effect me.number room (own row.old b cs) (λ i o. takes_acknowledgement message i o (lengths_of row.old.status) length) ≡ returned_reply (Delivered message) result (own row.new b cs) }
{
    let from = message.sender.number as usize;
    ask(me, message.view == row.views.current, Refusal::WrongView)?;
    ask(me, length <= row.length, Refusal::DoesNotFit)?;
    if let Status::Primary { lengths } = &mut row.status {
        lengths[from] = lengths[from].max(Some(length));
    }
    Ok(None)
}

// A message in range, by the addressee's status and the kind of message.
// A `match` on both: what a delivery does depends on the two together.
// The functions above return what this one does, also where nothing is sent, so each arm is a plain call.
fn take<E: Copy, C: Cabinet>(
    me: Member,
    row: &mut Controller,
    cab: &mut C,
    book: &mut [Entry<E>],
    message: Message<E>,
    room: bool,
) -> Result<Option<Message<E>>, Fault>
    requires { message_ok me.n (cap_of book.old) message ≡ true }
    ensures { effect me.number room (own row.old book.old (C.cells cab.old).list) (takes message) ≡ returned_reply (Delivered message) result (own row.new book.new (C.cells cab.new).list) }
{
    match (row.status, message.body) {
        (Status::Down, _) => Err(refused(me, Refusal::WrongPower)),
        (_, Body::Invitation) => take_invitation(me, row, cab, message, room),
        (Status::Manager { .. }, Body::Answer { reply }) => take_answer(me, row, message, reply),
        (Status::Waiting, Body::Form) => take_form(me, row, cab, message),
        // two arms: the borrow checker covers neither an or-pattern nor a guard beside a field of type E
        (Status::Backup, Body::Entry { place, entry }) => take_entry(
            me, row, book, message, place, entry, room,
        ),
        (Status::Primary { .. }, Body::Entry { place, entry }) => take_entry(
            me, row, book, message, place, entry, room,
        ),
        (Status::Backup, Body::Acknowledgement { .. }) => Err(refused(me, Refusal::NotPrimary)),
        (Status::Primary { .. }, Body::Acknowledgement { length }) => take_acknowledgement(
            me, row, message, length,
        ),
        _ => Err(refused(me, Refusal::WrongStatus)),
    }
}

/// A message at the controller that it is addressed to. What is to be sent in return comes back.
pub fn deliver<E: Copy, C: Cabinet>(
    me: Member,
    row: &mut Controller,
    cab: &mut C,
    book: &mut [Entry<E>],
    message: Message<E>,
    room: bool,
) -> Result<Option<Message<E>>, Fault>
    ensures { effect me.number room (own row.old book.old (C.cells cab.old).list) (delivers me.n message) ≡ returned_reply (Delivered message) result (own row.new book.new (C.cells cab.new).list) }
{
    let sizes = Sizes {
        n: me.n(),
        cap: capacity(book),
    };
    ask(me, sizes.message_is_ok(message), Refusal::BadMessage)?;
    take(me, row, cab, book, message, room)
}
