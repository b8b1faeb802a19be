//! Calling a view, inviting to it and forming it.
ghost use Rattle.std.specs.Prelude.{◌≡◌, List, Option, take};
ghost use Rattle.entries.specs.declared.messages.Reply.{Reply};
ghost use Rattle.cabinet.specs.Cells.{Cell};
ghost use Rattle.controller.specs.declared.outcomes.Outcome.TheVariants.{Done, Formed};
ghost use Rattle.controller.specs.Actions.{as_outcome};
ghost use Rattle.controller.specs.ViewChanges.{call as calls, form as forms, invite as invites};
ghost use Rattle.controller.specs.Forms.{FormsByRules};
ghost use Rattle.site.specs.Faults.{refusal_alone};
ghost use Rattle.site.specs.States.{Manages, done, state};
ghost use Rattle.site.specs.Steps.{step_at, step_between};

use crate::faults::Fault;
use crate::records::Site;
use cabinet::Cabinet;
use entries::{Entry, Message};
use numbers::ControllerNumber;

impl Site {
    /// Controller i calls its next view: it promises and manages it.
    pub fn call<E, C: Cabinet>(
        &mut self,
        cab: &mut C,
        books: &[Entry<E>],
        pool: &[Message<E>],
        i: ControllerNumber,
    ) -> Result<(), Fault>
        ensures { step_at (state self.old (C.cells cab.old).list books.now pool.now) i calls ≡ done (as_outcome (λ _. Done) result) (state self.new (C.cells cab.new).list books.now pool.now) }
    {
        let me = self.member(books, pool, i)?;
        controller::call::<E, C>(me, &mut self.rows[me.index()], cab)?;
        Ok(())
    }

    /// Controller i, a manager, invites another to its view.
    pub fn invite<E: Copy>(
        &mut self,
        books: &[Entry<E>],
        pool: &mut [Message<E>],
        i: ControllerNumber,
        to: ControllerNumber,
    ) -> Result<(), Fault>
        ensures { (cs : List Cell) → step_between (state self.old cs books.now pool.old) i to (invites to) ≡ done (as_outcome (λ _. Done) result) (state self.new cs books.now pool.new) }
    {
        let (me, other) = self.pair(books, pool, i, to)?;
        let room = self.has_room(pool);
        let message = controller::invite(me, &self.rows[me.index()], other.number(), room)?;
        self.send(pool, message);
        Ok(())
    }

    /// Controller i, a manager, forms its view by the rules; the chosen controller comes back.
    pub fn form<E: Copy>(
        &mut self,
        books: &[Entry<E>],
        pool: &mut [Message<E>],
        i: ControllerNumber,
    ) -> Result<ControllerNumber, Fault>
        ensures rules { (cs : List Cell) (answers : List (Option Reply)) → Manages (state self.old cs books.now pool.old) i answers → FormsByRules (take self.old.n answers) self.old.n (refusal_alone result) }
        ensures step { (cs : List Cell) → step_at (state self.old cs books.now pool.old) i (forms self.old.n) ≡ done (as_outcome Formed result) (state self.new cs books.now pool.new) }
    {
        let me = self.member(books, pool, i)?;
        let room = self.has_room(pool);
        let message = controller::form(me, &mut self.rows[me.index()], room)?;
        self.send(pool, message);
        Ok(message.addressee)
    }
}
