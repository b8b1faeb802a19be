//! Steps are played on a site: one step, more steps, and a make with all that follows it.
//! Site, cabinet, books and pool go apart: they are the caller's memory, and contracts name each.
ghost use Rattle.std.specs.Prelude.{◌≡◌, if◌then◌else◌, List, Ok, Err};
ghost use Rattle.numbers.specs.declared.refusals.Refusal.TheVariants.{BadForm};
ghost use Rattle.numbers.specs.Views.{controller_of, stamp_ok};
ghost use Rattle.cabinet.specs.Cells.{Cell};
ghost use Rattle.controller.specs.declared.outcomes.Outcome.TheVariants.{Settled as Said};
ghost use Rattle.controller.specs.Actions.{as_outcome};
ghost use Rattle.controller.specs.Slips.{slip_of};
ghost use Rattle.site.specs.Making.{make_step};
ghost use Rattle.site.specs.States.{done, fault_by, state};
ghost use Rattle.runs.specs.Guarantee.{GoesOn, Guarantee};
ghost use Rattle.runs.specs.Records.{InOrder, StaysInOrder};
ghost use Rattle.runs.specs.Runs.{made_and_ran, played, ran, ran_to, settle_step, step as step_of, steps_of, verdict_in};

use crate::steps::{Step, Turn};
use cabinet::Cabinet;
use controller::{Outcome, Settled, Slip, Verdict};
use entries::{Entry, Kind, Message};
use numbers::{ControllerNumber, Stamp};
use site::{Fault, Site};

// What a settle said; a slip that waits is set aside.
fn verdict(settled: Settled) -> Verdict
    ensures { result ≡ verdict_in settled }
{
    match settled {
        Settled::Confirmed => Verdict::Confirmed,
        Settled::Lost => Verdict::Lost,
        Settled::Waiting { slip } => {
            slip.set_aside();
            Verdict::Waiting
        }
    }
}

// The slip of a stamp, taken up from its numbers.
fn take_up(stamp: Stamp) -> Result<Slip, Fault>
    ensures { result ≡ (if stamp_ok stamp then Ok (slip_of stamp) else Err (fault_by (controller_of 0) BadForm)) }
{
    let (count, controller) = (stamp.view.count.number, stamp.view.controller.number);
    Slip::take_up(count, controller, stamp.place.number).map_err(|refusal| Fault::at_controller(
        refusal,
        ControllerNumber::ZERO,
    ))
}

// A stamp's slip is taken up, settled, and set aside again where it comes back.
fn settle<E: Copy>(
    site: &Site,
    books: &[Entry<E>],
    pool: &[Message<E>],
    i: ControllerNumber,
    stamp: Stamp,
) -> Result<Verdict, Fault>
    ensures { (cs : List Cell) → settle_step (state site.now cs books.now pool.now) i stamp ≡ done (as_outcome Said result) (state site.now cs books.now pool.now) }
{
    let slip = take_up(stamp)?;
    // a match, and no `?`: a slip comes back with the fault, and has to be ended
    match site.settle(books, pool, i, slip) {
        Ok(settled) => Ok(verdict(settled)),
        Err((fault, slip)) => {
            slip.set_aside();
            Err(fault)
        }
    }
}

// One step: the site's call of that name.
fn play<E: Kind, C: Cabinet>(
    site: &mut Site,
    cab: &mut C,
    books: &mut [Entry<E>],
    pool: &mut [Message<E>],
    step: Step<E>,
) -> Result<Outcome<E>, Fault>
    ensures { step_of E.says E.UNSETTLED (state site.old (C.cells cab.old).list books.old pool.old) step ≡ done result (state site.new (C.cells cab.new).list books.new pool.new) }
{
    match step {
        Step::Change { i, x } => Ok(Outcome::Changed {
            stamp: site.change(books, pool, i, x)?.set_aside(),
        }),
        Step::Pass { i, to, place } => site.pass(books, pool, i, to, place).map(|()| Outcome::Done),
        Step::Call { i } => site.call(cab, books, pool, i).map(|()| Outcome::Done),
        Step::Invite { i, to } => site.invite(books, pool, i, to).map(|()| Outcome::Done),
        Step::Form { i } => Ok(Outcome::Formed {
            chosen: site.form(books, pool, i)?,
        }),
        Step::Deliver { message } => Ok(Outcome::Delivered {
            message: site.deliver(cab, books, pool, message)?,
        }),
        Step::Join { i, primary } => site
            .join(cab, books, pool, i, primary)
            .map(|()| Outcome::Done),
        Step::Settle { i, stamp } => Ok(Outcome::Settled {
            verdict: settle(site, books, pool, i, stamp)?,
        }),
        Step::Lookup { i, question } => Ok(Outcome::Answered {
            answer: site.lookup(books, pool, i, question)?,
        }),
        Step::Crash { i } => site.crash(books, pool, i).map(|()| Outcome::Done),
        Step::Recover { i } => site.recover(cab, books, pool, i).map(|()| Outcome::Done),
        Step::Lose { message } => site.lose(books, pool, message).map(|()| Outcome::Done),
    }
}

/// Plays more steps on a site, in order, and writes down what came of each.
pub fn resume<E: Kind, C: Cabinet>(
    site: &mut Site,
    cab: &mut C,
    books: &mut [Entry<E>],
    pool: &mut [Message<E>],
    turns: &mut [Turn<E>],
)
    ensures state { ran E.says E.UNSETTLED (state site.old (C.cells cab.old).list books.old pool.old) (steps_of turns.old) ≡ state site.new (C.cells cab.new).list books.new pool.new }
    ensures turns { played E.says E.UNSETTLED (state site.old (C.cells cab.old).list books.old pool.old) turns.old ≡ turns.new }
    ensures records { StaysInOrder E.says E.UNSETTLED (state site.old (C.cells cab.old).list books.old pool.old) (state site.new (C.cells cab.new).list books.new pool.new) }
    ensures guarantee { GoesOn E.says E.UNSETTLED (state site.old (C.cells cab.old).list books.old pool.old) (steps_of turns.old) (state site.new (C.cells cab.new).list books.new pool.new) }
{
    for turn in turns.iter_mut() {
        turn.outcome = Some(play(site, cab, books, pool, turn.step));
    }
}

/// Makes a site and plays a list of steps on it. Where the make is refused, nothing is played.
pub fn run<E: Kind, C: Cabinet>(
    site: &mut Site,
    cab: &mut C,
    books: &mut [Entry<E>],
    pool: &mut [Message<E>],
    n: u16,
    cap: u16,
    turns: &mut [Turn<E>],
) -> Result<(), Fault>
    ensures gives { made_and_ran E.says E.UNSETTLED (make_step (state site.old (C.cells cab.old).list books.old pool.old) n cap) turns.old ≡ ran_to result (state site.new (C.cells cab.new).list books.new pool.new) turns.new }
    ensures records { result ≡ Ok tt → InOrder (state site.new (C.cells cab.new).list books.new pool.new) }
    ensures guarantee { result ≡ Ok tt → Guarantee E.says E.UNSETTLED (make_step (state site.old (C.cells cab.old).list books.old pool.old) n cap).state (steps_of turns.old) }
{
    site.make(cab, books, pool, n, cap)?;
    resume(site, cab, books, pool, turns);
    Ok(())
}
