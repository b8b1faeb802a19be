//! The examples of the README.
use cabinet::*;
use controller::{Settled, Verdict};
use entries::*;
use numbers::*;
use runs::{Outcome, Step, Turn, run};
use site::{Fault, Site};
use std::test::Fail;

// Card 7 is withdrawn at doors 0 and 3, passed on to controller 1, and confirmed.
fn evening(turns: &mut [Turn<CardChange>]) -> Result<(), Fault> {
    let (zero, one) = (ControllerNumber::ZERO, ControllerNumber { number: 1 });
    let withdrawn = CardChange {
        card: 7,
        doors: 9,
        given: false,
    };
    // The caller owns the memory: three books of 100 entries, a pool of 8 messages, and a strip with
    // ten slots for each of its seven cells.
    let view = View::ZERO;
    let mut books = [Entry {
        view,
        change: withdrawn,
    }; 300];
    let mut pool = [Message {
        sender: zero,
        addressee: one,
        view,
        body: Body::Invitation,
    }; 8];
    let mut bytes = [0; 560];
    let mut strip = Strip::new(&mut bytes);
    let mut site = Site::new();
    run(&mut site, &mut strip, &mut books, &mut pool, 3, 100, turns)
}

fn steps() -> [Turn<CardChange>; 6] {
    let (zero, one) = (ControllerNumber::ZERO, ControllerNumber { number: 1 });
    let place = Place { number: 1 };
    let view = View::ZERO;
    [
        Turn::from(Step::Change {
            i: zero,
            x: CardChange {
                card: 7,
                doors: 9,
                given: false,
            },
        }),
        Turn::from(Step::Pass {
            i: zero,
            to: one,
            place,
        }),
        Turn::from(Step::Deliver { message: 0 }),
        Turn::from(Step::Deliver { message: 1 }),
        Turn::from(Step::Settle {
            i: zero,
            stamp: Stamp { view, place },
        }),
        Turn::from(Step::Lookup {
            i: one,
            question: Question {
                first: 7,
                second: 3,
            },
        }),
    ]
}

#[test]
fn example(rt: HostRuntime) -> Result<(), Fail> {
    let mut turns = steps();
    assert!(rt; evening(&mut turns).is_ok());
    let Some(Ok(Outcome::Settled { verdict })) = turns[4].outcome else {
        return Err(Fail::new("the slip was not settled"));
    };
    assert_eq!(rt; verdict, Verdict::Confirmed);
    let Some(Ok(Outcome::Answered { answer })) = turns[5].outcome else {
        return Err(Fail::new("the question was not answered"));
    };
    assert_eq!(rt; answer, Answer::Red);
    Ok(())
}

// A change at controller 0, settled at once: the stamp of its slip, where it waits.
fn settled(
    site: &mut Site,
    books: &mut [Entry<CardChange>],
    pool: &[Message<CardChange>],
) -> Result<Option<Stamp>, Fault> {
    let zero = ControllerNumber::ZERO;
    let given = CardChange {
        card: 7,
        doors: 9,
        given: true,
    };
    let slip = site.change(books, pool, zero, given)?;
    match site.settle(books, pool, zero, slip) {
        Ok(Settled::Confirmed) => Ok(None),
        Ok(Settled::Lost) => Ok(None),
        Ok(Settled::Waiting { slip }) => Ok(Some(slip.set_aside())),
        Err((fault, slip)) => {
            let _ = slip.set_aside();
            Err(fault)
        }
    }
}

// Nobody but the primary has the change.
#[test]
fn a_slip_waits(rt: HostRuntime) -> Result<(), Fail> {
    let zero = ControllerNumber::ZERO;
    let view = View::ZERO;
    let change = CardChange {
        card: 0,
        doors: 0,
        given: false,
    };
    let mut books = [Entry { view, change }; 9];
    let pool = [Message {
        sender: zero,
        addressee: zero,
        view,
        body: Body::Invitation,
    }; 8];
    let mut site = Site::new();
    assert!(rt; site.make(&Tray::new([9; 7]), &books, &pool, 3, 3).is_ok());
    let place = Place { number: 1 };
    assert_eq!(rt;
        settled(&mut site, &mut books, &pool),
        Ok(Some(Stamp { view, place }))
    );
    Ok(())
}
