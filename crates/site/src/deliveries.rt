//! Messages of the pool: one is delivered, or lost.
ghost use Rattle.std.specs.Prelude.{◌≡◌, ◌*◌, true, List, length, Some, Ok, MatchResult};
ghost use Rattle.cabinet.specs.Cells.{Cell};
ghost use Rattle.controller.specs.declared.outcomes.Outcome.TheVariants.{Delivered, Done};
ghost use Rattle.controller.specs.Actions.{as_outcome};
ghost use Rattle.controller.specs.Deliveries.{deliver as delivers};
ghost use Rattle.site.specs.States.{HasMessage, MessageFails, done, has_room, state};
ghost use Rattle.site.specs.Steps.{acts, deliver_step, lose_step, replied};

use crate::faults::Fault;
use crate::records::Site;
use cabinet::Cabinet;
use entries::{Entry, Message};
use numbers::{Member, Refusal};

impl Site {
    // Whether the pool has a message j.
    fn in_pool<E>(&self, books: &[Entry<E>], pool: &[Message<E>], j: u16) -> Result<(), Fault>
        ensures { MatchResult result (λ _. HasMessage self.now (length books.now) (length pool.now) j) (λ e. MessageFails self.now (length books.now) (length pool.now) j e) }
    {
        if !self.is_made(books, pool) {
            return Err(Fault::at_message(Refusal::NotMade, j));
        }
        if j >= self.count {
            return Err(Fault::at_message(Refusal::NoSuchMessage, j));
        }
        Ok(())
    }

    // A message at its addressee, which has to be `me`; what is to be sent in return comes back.
    fn take<E: Copy, C: Cabinet>(
        &mut self,
        me: Member,
        cab: &mut C,
        books: &mut [Entry<E>],
        message: Message<E>,
        room: bool,
    ) -> Result<Option<Message<E>>, Fault>
        requires { (length books.old ≡ self.old.n * self.old.cap) × (me.n ≡ self.old.n) }
        ensures count { self.new.count ≡ self.old.count }
        ensures sent { (m : Message E) → result ≡ Ok (Some m) → room ≡ true }
        ensures taken { (pool : List (Message E)) → room ≡ has_room (state self.old (C.cells cab.old).list books.old pool) → acts (state self.old (C.cells cab.old).list books.old pool) me.number (delivers me.n message) ≡ replied (state self.new (C.cells cab.new).list books.new pool) message result }
    {
        let part = self.part(me);
        let row = &mut self.rows[me.index()];
        let reply = controller::deliver(me, row, cab, &mut books[part], message, room)?;
        Ok(reply)
    }

    /// Message j is taken by its addressee; it comes back. What it is answered with is sent.
    pub fn deliver<E: Copy, C: Cabinet>(
        &mut self,
        cab: &mut C,
        books: &mut [Entry<E>],
        pool: &mut [Message<E>],
        j: u16,
    ) -> Result<Message<E>, Fault>
        ensures { deliver_step (state self.old (C.cells cab.old).list books.old pool.old) j ≡ done (as_outcome Delivered result) (state self.new (C.cells cab.new).list books.new pool.new) }
    {
        self.in_pool(books, pool, j)?;
        let message = pool[j as usize];
        let Ok(me) = Member::new(message.addressee, self.n) else {
            return Err(Fault::at_message(Refusal::BadMessage, j));
        };
        let room = self.has_room(pool);
        let taken = self.take(me, cab, books, message, room);
        let reply = taken.map_err(|fault| fault.about(j))?;
        if let Some(reply) = reply {
            self.send(pool, reply);
        }
        Ok(message)
    }

    /// Message j is lost: the last one takes its place.
    pub fn lose<E: Copy>(
        &mut self,
        books: &[Entry<E>],
        pool: &mut [Message<E>],
        j: u16,
    ) -> Result<(), Fault>
        ensures { (cs : List Cell) → lose_step (state self.old cs books.now pool.old) j ≡ done (as_outcome (λ _. Done) result) (state self.new cs books.now pool.new) }
    {
        self.in_pool(books, pool, j)?;
        self.count -= 1;
        pool[j as usize] = pool[self.count as usize];
        Ok(())
    }
}
