//! What a primary does with its book, and what any active controller answers from it.
ghost use Rattle.std.specs.Prelude.{◌≡◌, List};
ghost use Rattle.cabinet.specs.Cells.{Cell};
ghost use Rattle.controller.specs.declared.outcomes.Outcome.TheVariants.{Answered, Changed, Done};
ghost use Rattle.controller.specs.Actions.{as_outcome};
ghost use Rattle.controller.specs.Lookups.{lookup as looks_up};
ghost use Rattle.controller.specs.Primaries.{change as changes, pass as passes};
ghost use Rattle.controller.specs.Slips.{stamp_on};
ghost use Rattle.controller.specs.Verdicts.{settle as settles, settled_by};
ghost use Rattle.site.specs.States.{done, state};
ghost use Rattle.site.specs.Steps.{step_at, step_between};

use crate::faults::Fault;
use crate::records::Site;
use controller::{Settled, Slip};
use entries::{Answer, Entry, Kind, Message, Question};
use numbers::{ControllerNumber, Place};

impl Site {
    /// Controller i, the primary, takes a change and hands out its slip.
    pub fn change<E: Copy>(
        &mut self,
        books: &mut [Entry<E>],
        pool: &[Message<E>],
        i: ControllerNumber,
        x: E,
    ) -> Result<Slip, Fault>
        ensures { (cs : List Cell) → step_at (state self.old cs books.old pool.now) i (changes x) ≡ done (as_outcome (λ slip. Changed (stamp_on slip)) result) (state self.new cs books.new pool.now) }
    {
        let me = self.member(books, pool, i)?;
        let part = self.part(me);
        let row = &mut self.rows[me.index()];
        let slip = controller::change(me, row, &mut books[part], x)?;
        Ok(slip)
    }

    /// Controller i, the primary, passes its entry at a place on to another.
    pub fn pass<E: Copy>(
        &mut self,
        books: &[Entry<E>],
        pool: &mut [Message<E>],
        i: ControllerNumber,
        to: ControllerNumber,
        place: Place,
    ) -> Result<(), Fault>
        ensures { (cs : List Cell) → step_between (state self.old cs books.now pool.old) i to (passes to place) ≡ done (as_outcome (λ _. Done) result) (state self.new cs books.now pool.new) }
    {
        let (me, other) = self.pair(books, pool, i, to)?;
        let room = self.has_room(pool);
        let book = &books[self.part(me)];
        let row = &self.rows[me.index()];
        let message = controller::pass(me, row, book, other.number(), place, room)?;
        self.send(pool, message);
        Ok(())
    }

    /// Controller i, the primary, settles a slip: it is spent where it is confirmed or lost, and
    /// else handed back.
    pub fn settle<E: Copy>(
        &self,
        books: &[Entry<E>],
        pool: &[Message<E>],
        i: ControllerNumber,
        slip: Slip,
    ) -> Result<Settled, (Fault, Slip)>
        ensures { (cs : List Cell) → settled_by slip (step_at (state self.now cs books.now pool.now) i (settles self.now.n (stamp_on slip))).result ≡ result }
    {
        // the slip comes back with the fault, and no closure can capture it
        let me = match self.member(books, pool, i) {
            Ok(me) => me,
            Err(fault) => return Err((fault, slip)),
        };
        let book = &books[self.part(me)];
        let row = &self.rows[me.index()];
        controller::settle(me, row, book, slip).map_err(|(fault, slip)| (fault.into(), slip))
    }

    /// What the book of controller i, which is active, answers to a question.
    pub fn lookup<E: Kind>(
        &self,
        books: &[Entry<E>],
        pool: &[Message<E>],
        i: ControllerNumber,
        question: Question,
    ) -> Result<Answer, Fault>
        ensures { (cs : List Cell) → step_at (state self.now cs books.now pool.now) i (looks_up E.says E.UNSETTLED question) ≡ done (as_outcome Answered result) (state self.now cs books.now pool.now) }
    {
        let me = self.member(books, pool, i)?;
        let book = &books[self.part(me)];
        let row = &self.rows[me.index()];
        let answer = controller::lookup(me, row, book, question)?;
        Ok(answer)
    }
}
