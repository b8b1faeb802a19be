//! A power cut, and the recovery from it.
ghost use Rattle.std.specs.Prelude.{◌≡◌, List};
ghost use Rattle.cabinet.specs.Cells.{Cell};
ghost use Rattle.controller.specs.declared.outcomes.Outcome.TheVariants.{Done};
ghost use Rattle.controller.specs.Actions.{as_outcome};
ghost use Rattle.controller.specs.Power.{crash as crashes, recover as recovers};
ghost use Rattle.site.specs.States.{done, state};
ghost use Rattle.site.specs.Steps.{step_at};

use crate::faults::Fault;
use crate::records::Site;
use cabinet::Cabinet;
use entries::{Entry, Message};
use numbers::ControllerNumber;

impl Site {
    /// Controller i loses its power: it is down, and nothing is left of it but its cell.
    pub fn crash<E>(
        &mut self,
        books: &[Entry<E>],
        pool: &[Message<E>],
        i: ControllerNumber,
    ) -> Result<(), Fault>
        ensures { (cs : List Cell) → step_at (state self.old cs books.now pool.now) i crashes ≡ done (as_outcome (λ _. Done) result) (state self.new cs books.now pool.now) }
    {
        let me = self.member(books, pool, i)?;
        controller::crash::<E>(me, &mut self.rows[me.index()])?;
        Ok(())
    }

    /// Controller i comes back: it waits, with the views of its cell and no book.
    pub fn recover<E, C: Cabinet>(
        &mut self,
        cab: &C,
        books: &[Entry<E>],
        pool: &[Message<E>],
        i: ControllerNumber,
    ) -> Result<(), Fault>
        ensures { step_at (state self.old (C.cells cab.now).list books.now pool.now) i recovers ≡ done (as_outcome (λ _. Done) result) (state self.new (C.cells cab.now).list books.now pool.now) }
    {
        let me = self.member(books, pool, i)?;
        controller::recover::<E, C>(me, &mut self.rows[me.index()], cab)?;
        Ok(())
    }
}
