//! What becomes of a slip: confirmed, lost or waiting.
ghost use Rattle.std.specs.Prelude.{◌≡◌, ℕ, Bool, List, Option};
ghost use Rattle.cabinet.specs.Cells.{Cell};
ghost use Rattle.controller.specs.declared.outcomes.Outcome.TheVariants.{Settled as Said};
ghost use Rattle.controller.specs.Actions.{as_outcome, effect, returned, own};
ghost use Rattle.controller.specs.Slips.{stamp_on};
ghost use Rattle.std.specs.Fn.{FnReturnsAt};
ghost use Rattle.numbers.specs.Counting.{Computes};
ghost use Rattle.controller.specs.Verdicts.{ThreeWays, holds as book_holds, is_confirmed, is_lost, most as most_of, settle as settles, settled_by, verdict_of, with_slip};

use crate::books::entry_at;
use crate::faults::Fault;
use crate::primaries::ask_primary;
use crate::questions::ask;
use crate::records::{Controller, Status};
use crate::slips::{Settled, Slip};
use entries::Entry;
use numbers::{Member, Refusal, Stamp, count, majority};

#[derive(Clone, Copy, PartialEq, Eq, Debug)]
pub enum Verdict {
    Confirmed,
    Lost,
    Waiting,
}

// Whether a majority of the lengths that a primary has passes a test.
#[tactic(auto, unfolding(crate::specs::Verdicts::lengths_in))]
fn most<F: Fn(&Option<u16>) -> bool>(me: Member, row: &Controller, test: F) -> bool
    requires { F.IsAlwaysCallable test }
    ensures { (passes : Option ℕ → Bool) → Computes (FnReturnsAt F.Fn test) passes → result ≡ most_of me.n passes row.now }
{
    let Status::Primary { lengths } = row.status else {
        return false;
    };
    count(me.of_site(&lengths), test) >= majority(me.n()) as usize
}

// Whether the book holds the entry of a stamp.
fn holds<E: Copy>(row: &Controller, book: &[Entry<E>], stamp: Stamp) -> bool
    ensures { result ≡ book_holds row.now book.now stamp }
{
    entry_at(row, book, stamp.place).is_some_and(|entry| entry.view == stamp.view)
}

/// The verdict on a stamp.
pub fn judge<E: Copy>(
    me: Member,
    row: &Controller,
    book: &[Entry<E>],
    stamp: Stamp,
) -> Result<Verdict, Fault>
    ensures { (room : Bool) (cs : List Cell) → effect me.number room (own row.now book.now cs) (settles me.n stamp) ≡ returned (as_outcome Said result) (own row.now book.now cs) }
{
    ask_primary(me, row)?;
    ask(me, row.views.current >= stamp.view, Refusal::WrongView)?;
    Ok(weigh(me, row, book, stamp))
}

fn weigh<E: Copy>(me: Member, row: &Controller, book: &[Entry<E>], stamp: Stamp) -> Verdict
    ensures value { result ≡ verdict_of me.n row.now book.now stamp }
    ensures ways { ThreeWays (is_confirmed me.n row.now book.now stamp) (is_lost me.n row.now book.now stamp) result }
{
    let place = stamp.place.number;
    if holds(row, book, stamp) {
        if most(me, row, |length| length.is_some_and(|l| place <= l)) {
            return Verdict::Confirmed;
        }
        return Verdict::Waiting;
    }
    if stamp.view < row.views.current && most(me, row, |length| length.is_some()) {
        Verdict::Lost
    } else {
        Verdict::Waiting
    }
}

/// Settles a slip. It is spent where it is confirmed or lost; a refusal hands it back, and so does waiting.
pub fn settle<E: Copy>(
    me: Member,
    row: &Controller,
    book: &[Entry<E>],
    slip: Slip,
) -> Result<Settled, (Fault, Slip)>
    ensures { (room : Bool) (cs : List Cell) → settled_by slip (effect me.number room (own row.now book.now cs) (settles me.n (stamp_on slip))).result ≡ result }
{
    match judge(me, row, book, slip.stamp()) {
        Err(fault) => Err((fault, slip)),
        Ok(verdict) => Ok(spend(slip, verdict)),
    }
}

// Ends the slip by the verdict, or hands it back.
fn spend(slip: Slip, verdict: Verdict) -> Settled
    ensures { result ≡ with_slip slip verdict }
{
    match verdict {
        Verdict::Waiting => Settled::Waiting { slip },
        Verdict::Confirmed => {
            let _ = slip.set_aside();
            Settled::Confirmed
        }
        Verdict::Lost => {
            let _ = slip.set_aside();
            Settled::Lost
        }
    }
}
