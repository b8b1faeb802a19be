//! One controller's steps, on records that were made for them.
use crate::values::row;
use cabinet::*;
use controller::{
    Controller, Fault, Member, Settled, Slip, Status, Verdict, change, crash, deliver, recover,
    settle,
};
use entries::{Body, Entry, Message, Reply};
use numbers::*;
use std::test::Fail;

fn member(number: u16) -> Result<Member, Refusal> {
    Member::new(ControllerNumber { number }, 3)
}

fn refusal_of(fault: Fault) -> Refusal {
    match fault {
        Fault::Worn { .. } => Refusal::CellWorn,
        Fault::Refused { refusal, .. } => refusal,
    }
}

// Controller 0, primary of view (1, 0), with the length that another has acknowledged.
fn primary(length: u16, other: Option<u16>) -> Controller {
    Controller {
        status: Status::Primary {
            lengths: [Some(length), other, None, None, None, None, None],
        },
        views: row((1, 0), (1, 0)),
        complete: true,
        length,
        primary: ControllerNumber::ZERO,
    }
}

// A book of three places, whose entries are of view (0, 0).
fn book() -> [Entry<u16>; 3] {
    [Entry {
        view: View::of(0, 0),
        change: 7,
    }; 3]
}

// The stamp of a change that is taken at that length.
fn stamp_at(length: u16) -> Result<Stamp, Refusal> {
    let me = member(0)?;
    match change(me, &mut primary(length, None), &mut book(), 8) {
        Ok(slip) => Ok(slip.set_aside()),
        Err(fault) => Err(refusal_of(fault)),
    }
}

#[test]
fn a_book_fills(rt: HostRuntime) {
    assert_eq!(rt; stamp_at(2), Stamp::new(1, 0, 3));
    assert_eq!(rt; stamp_at(3), Err(Refusal::BookFull));
}

// What becomes of a slip at the primary of (1, 0), whose book has one entry, of view (0, 0).
fn outcome(other: Option<u16>, count: u16, place: u16) -> Result<Verdict, Refusal> {
    let me = member(0)?;
    let slip = Slip::take_up(count, 0, place)?;
    match settle(me, &primary(1, other), &book(), slip) {
        Ok(Settled::Confirmed) => Ok(Verdict::Confirmed),
        Ok(Settled::Lost) => Ok(Verdict::Lost),
        Ok(Settled::Waiting { slip }) => {
            let _ = slip.set_aside();
            Ok(Verdict::Waiting)
        }
        Err((fault, slip)) => {
            let _ = slip.set_aside();
            Err(refusal_of(fault))
        }
    }
}

#[test]
fn slips_settle(rt: HostRuntime) {
    for (other, count, place, expected) in [
        (None, 0, 1, Ok(Verdict::Waiting)),
        (Some(0), 0, 1, Ok(Verdict::Waiting)),
        (Some(1), 0, 1, Ok(Verdict::Confirmed)),
        (None, 0, 2, Ok(Verdict::Waiting)),
        (Some(0), 0, 2, Ok(Verdict::Lost)),
        (Some(1), 1, 2, Ok(Verdict::Waiting)),
        (Some(1), 2, 1, Err(Refusal::WrongView)),
    ] {
        assert_eq!(rt; outcome(other, count, place), expected);
    }
}

// What a controller of view (0, 0) sends on an invitation to (3, 2), after a power cut or without one.
fn invited(me: Member, cab: &mut Tray, cut: bool) -> Result<Option<Message<u16>>, Fault> {
    let mut row = Controller::first(me.number());
    if cut {
        crash::<u16>(me, &mut row)?;
        recover::<u16, Tray>(me, &mut row, &*cab)?;
    }
    let invitation = Message {
        sender: ControllerNumber { number: 2 },
        addressee: me.number(),
        view: View::of(3, 2),
        body: Body::Invitation,
    };
    deliver(me, &mut row, cab, &mut book(), invitation, true)
}

fn answer(me: Member, cab: &mut Tray, cut: bool) -> Option<Reply> {
    match invited(me, cab, cut) {
        Ok(
            Some(
                Message {
                    body: Body::Answer { reply },
                    ..
                },
            ),
        ) => Some(reply),
        _ => None,
    }
}

// The views after a recovery are those of the cell.
#[test]
fn a_recovered_controller_answers_crash(rt: HostRuntime) -> Result<(), Fail> {
    let me = member(1)?;
    let mut cab = Tray::new([9; 7]);
    let held = CellRecord::try_from(row((1, 0), (2, 1)))?;
    assert!(rt; cab.put(1, held).is_ok());
    // `matches!`, since only kind and view are compared
    let after_a_cut = answer(me, &mut cab, true);
    assert!(rt; matches!(after_a_cut, Some(Reply::Crash { current }) if current == View::of(1, 0)));
    let without_one = answer(me, &mut cab, false);
    assert!(rt;
        matches!(without_one, Some(Reply::Normal { current, .. }) if current == View::of(0, 0))
    );
    Ok(())
}
