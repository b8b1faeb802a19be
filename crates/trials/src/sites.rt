//! Calls of a site on memory made for them: what no script can reach.
use crate::values;
use crate::values::row;
use cabinet::{Cabinet, Tray};
use controller::{Settled, Slip};
use entries::{Body, CardChange, Entry, Message, Question};
use numbers::*;
use site::{Fault, Named, Site};
use std::test::Fail;

// Card 7 is given doors 0 and 3.
const GIVEN: CardChange = CardChange {
    card: 7,
    doors: 9,
    given: true,
};

const ONE: ControllerNumber = ControllerNumber { number: 1 };

// Three controllers with books of three entries, and all that the site is lent.
#[derive(Drop)]
struct Bench {
    site: Site,
    tray: Tray,
    books: [Entry<CardChange>; 9],
    pool: [Message<CardChange>; 8],
}

fn entry(count: u16, controller: u16) -> Entry<CardChange> {
    Entry {
        view: View::of(count, controller),
        change: GIVEN,
    }
}

// A message of view (0, 0) from 1 to 0.
fn message(body: Body<CardChange>) -> Message<CardChange> {
    Message {
        sender: ONE,
        addressee: ControllerNumber::ZERO,
        view: View::of(0, 0),
        body,
    }
}

fn normal(count: u16, controller: u16, length: u16) -> Body<CardChange> {
    let reply = values::normal(View::of(count, controller), length, false);
    Body::Answer { reply }
}

fn crash(count: u16, controller: u16) -> Body<CardChange> {
    let reply = values::crash(View::of(count, controller));
    Body::Answer { reply }
}

fn carries(place: u16, count: u16, controller: u16) -> Body<CardChange> {
    Body::Entry {
        place: Place { number: place },
        entry: entry(count, controller),
    }
}

// The number of the question that refused a call; none where it was taken.
fn refused<T: Drop>(res: Result<T, Fault>) -> Option<u8> {
    res.err().map(|fault| u8::from(fault.refusal))
}

fn unmade(tray: Tray) -> Bench {
    Bench {
        site: Site::new(),
        tray,
        books: [entry(0, 0); 9],
        pool: [message(Body::Invitation); 8],
    }
}

fn change(b: &mut Bench) -> Option<u8> {
    let me = ControllerNumber::ZERO;
    let res = b.site.change(&mut b.books, &b.pool, me, GIVEN);
    refused(res.map(|slip| slip.set_aside()))
}

// A made site with one change, whose entry lies in the pool as message 0.
fn started() -> Bench {
    let mut b = unmade(Tray::new([9; 7]));
    let _ = b.site.make(&b.tray, &b.books, &b.pool, 3, 3);
    let _ = change(&mut b);
    let _ = b.site.pass(
        &b.books,
        &mut b.pool,
        ControllerNumber::ZERO,
        ONE,
        Place { number: 1 },
    );
    b
}

// What comes of message 0 when it says this.
fn delivered(said: Message<CardChange>) -> Option<u8> {
    let mut b = started();
    b.pool[0] = said;
    refused(b.site.deliver(&mut b.tray, &mut b.books, &mut b.pool, 0))
}

// Each kind of message, all numbers in range.
fn bodies() -> [Body<CardChange>; 6] {
    [
        Body::Invitation,
        normal(0, 0, 0),
        crash(0, 0),
        Body::Form,
        carries(1, 0, 0),
        Body::Acknowledgement { length: 0 },
    ]
}

// Question 4 looks at sender, addressee and view of every kind of message.
#[test]
fn every_kind_is_asked_4(rt: HostRuntime) {
    for body in bodies() {
        let mut said = [message(body); 4];
        said[0].sender.number = 3;
        said[1].addressee.number = 3;
        said[2].view.count.number = 16_384;
        said[3].view.controller.number = 3;
        for m in said {
            assert_eq!(rt; delivered(m), Some(4));
        }
    }
}

// And at each number that a kind has of its own; at most cap is still in range, and place 0 is 10's.
#[test]
fn every_number_is_asked_4(rt: HostRuntime) {
    for (body, expected) in [
        (normal(16_384, 0, 0), Some(4)),
        (normal(0, 3, 0), Some(4)),
        (normal(0, 0, 4), Some(4)),
        (normal(16_383, 2, 3), Some(6)),
        (crash(16_384, 0), Some(4)),
        (crash(0, 3), Some(4)),
        (crash(16_383, 2), Some(6)),
        (carries(4, 0, 0), Some(4)),
        (carries(1, 16_384, 0), Some(4)),
        (carries(1, 0, 3), Some(4)),
        (carries(0, 0, 0), Some(10)),
        (carries(3, 16_383, 2), Some(10)),
        (carries(2, 16_383, 2), None),
        (Body::Acknowledgement { length: 4 }, Some(4)),
        (Body::Acknowledgement { length: 3 }, Some(10)),
        (Body::Acknowledgement { length: 2 }, Some(10)),
        (Body::Acknowledgement { length: 1 }, None),
    ] {
        assert_eq!(rt; delivered(message(body)), expected);
    }
}

// Whether two sites and all that they are lent are the same.
fn alike(a: &Bench, b: &Bench) -> bool {
    let rows = (0..7).all(|c| a.site.controller(c) == b.site.controller(c));
    let records = (0..7).all(|c| a.tray.held(c).row() == b.tray.held(c).row());
    let left = (0..7).all(|c| a.tray.left(c) == b.tray.left(c));
    rows && records
        && left
        && a.site.count() == b.site.count()
        && a.books == b.books
        && a.pool == b.pool
}

// A refused delivery names the message, and leaves all as it was.
#[test]
fn a_refused_delivery_changes_nothing(rt: HostRuntime) {
    let (mut stranger, mut later) = (message(Body::Invitation), message(carries(2, 0, 0)));
    stranger.sender.number = 3;
    later.view = View::of(1, 0);
    for (said, refusal) in [
        (stranger, Refusal::BadMessage),
        (message(carries(4, 0, 0)), Refusal::BadMessage),
        (message(normal(0, 0, 0)), Refusal::WrongStatus),
        (message(crash(0, 0)), Refusal::WrongStatus),
        (message(Body::Form), Refusal::WrongStatus),
        (message(Body::Invitation), Refusal::WrongView),
        (later, Refusal::WrongView),
        (message(carries(1, 0, 0)), Refusal::DoesNotFit),
        (message(carries(3, 0, 0)), Refusal::DoesNotFit),
        (
            message(Body::Acknowledgement { length: 2 }),
            Refusal::DoesNotFit,
        ),
    ] {
        let (mut before, mut b) = (started(), started());
        before.pool[0] = said;
        b.pool[0] = said;
        let res = b.site.deliver(&mut b.tray, &mut b.books, &mut b.pool, 0);
        let named = Named::Message { number: 0 };
        assert_eq!(rt; res.err(), Some(Fault { refusal, named }));
        assert!(rt; alike(&b, &before));
    }
}

// 4 is asked before 5: whether the message is in range, and then whether its addressee is up.
#[test]
fn range_before_power(rt: HostRuntime) {
    let (mut stranger, mut nobody) = (message(Body::Invitation), message(Body::Invitation));
    stranger.sender.number = 3;
    nobody.addressee.number = 3;
    for (said, expected) in [
        (stranger, Some(4)),
        (nobody, Some(4)),
        (message(normal(0, 3, 0)), Some(4)),
        (message(carries(4, 0, 0)), Some(4)),
        (message(Body::Acknowledgement { length: 4 }), Some(4)),
        (message(Body::Invitation), Some(5)),
        (message(carries(0, 0, 0)), Some(5)),
    ] {
        let mut b = started();
        let me = ControllerNumber::ZERO;
        assert_eq!(rt; refused(b.site.crash(&b.books, &b.pool, me)), None);
        b.pool[0] = said;
        let res = b.site.deliver(&mut b.tray, &mut b.books, &mut b.pool, 0);
        assert_eq!(rt; refused(res), expected);
    }
}

// 13: the count of a call can't rise above 16,383.
#[test]
fn counts_are_spent(rt: HostRuntime) {
    let mut b = unmade(Tray::new([65_535; 7]));
    assert_eq!(rt;
        refused(b.site.make(&b.tray, &b.books, &b.pool, 3, 3)),
        None
    );
    let me = ControllerNumber { number: 2 };
    let mut last = None;
    for _ in 0..16_383 {
        last = refused(b.site.call(&mut b.tray, &b.books, &b.pool, me));
    }
    assert_eq!(rt; last, None);
    assert_eq!(rt; b.site.controller(2).views.promised, View::of(16_383, 2));
    assert_eq!(rt;
        refused(b.site.call(&mut b.tray, &b.books, &b.pool, me)),
        Some(13)
    );
}

// 16: cells 0 to n - 1 have to hold twice (0, 0), and only these.
#[test]
fn used_cells(rt: HostRuntime) -> Result<(), Fail> {
    // as many as three books of 14, six of 7 and seven of 6
    let books = [entry(0, 0); 42];
    let pool = [message(Body::Invitation); 8];
    for (n, cap, cell, current, expected) in [
        (3, 14, 0, (0, 0), Some(16)),
        (3, 14, 2, (0, 0), Some(16)),
        (3, 14, 3, (0, 0), None),
        (3, 14, 6, (0, 0), None),
        (3, 14, 0, (1, 0), Some(16)),
        (3, 14, 2, (0, 1), Some(16)),
        (3, 14, 3, (1, 0), None),
        (6, 7, 5, (0, 0), Some(16)),
        (6, 7, 6, (1, 0), None),
        (7, 6, 6, (0, 0), Some(16)),
        (7, 6, 6, (1, 0), Some(16)),
    ] {
        let mut tray = Tray::new([9; 7]);
        let used = CellRecord::try_from(row(current, (1, 0)))?;
        assert!(rt; tray.put(cell, used).is_ok());
        let made = Site::new().make(&tray, &books, &pool, n, cap);
        assert_eq!(rt; refused(made), expected);
    }
    Ok(())
}

fn settle(site: &Site, books: &[Entry<CardChange>], pool: &[Message<CardChange>]) -> Option<u8> {
    let Ok(slip) = Slip::take_up(0, 0, 1) else {
        return None;
    };
    match site.settle(books, pool, ControllerNumber::ZERO, slip) {
        Ok(Settled::Waiting { slip }) => {
            let _ = slip.set_aside();
            None
        }
        Ok(Settled::Confirmed) => None,
        Ok(Settled::Lost) => None,
        Err((fault, slip)) => {
            let _ = slip.set_aside();
            Some(u8::from(fault.refusal))
        }
    }
}

// What refuses each of the twelve steps, one after the other, over this memory.
fn twelve(
    site: &mut Site,
    tray: &mut Tray,
    books: &mut [Entry<CardChange>],
    pool: &mut [Message<CardChange>],
) -> [Option<u8>; 12] {
    let me = ControllerNumber::ZERO;
    let place = Place { number: 1 };
    let question = Question {
        first: 7,
        second: 3,
    };
    [
        refused(
            site.change(books, pool, me, GIVEN)
                .map(|slip| slip.set_aside()),
        ),
        refused(site.pass(books, pool, me, ONE, place)),
        refused(site.call(tray, books, pool, me)),
        refused(site.invite(books, pool, me, ONE)),
        refused(site.form(books, pool, me)),
        refused(site.deliver(tray, books, pool, 0)),
        refused(site.join(tray, books, pool, ONE, me)),
        settle(site, books, pool),
        refused(site.lookup(books, pool, me, question)),
        refused(site.crash(books, pool, me)),
        refused(site.recover(tray, books, pool, me)),
        refused(site.lose(books, pool, 0)),
    ]
}

// 1 at each step: a record that was never made.
#[test]
fn never_made(rt: HostRuntime) {
    let mut b = unmade(Tray::new([9; 7]));
    assert_eq!(rt;
        twelve(&mut b.site, &mut b.tray, &mut b.books, &mut b.pool),
        [Some(1); 12]
    );
}

// 1 at each step: memory of other lengths than at make. As long as then, it may be any.
#[test]
fn other_memory(rt: HostRuntime) {
    let mut b = started();
    let mut books = [entry(0, 0); 10];
    let mut pool = [message(Body::Invitation); 9];
    for (entries, messages) in [(8, 8), (10, 8), (0, 8), (9, 7), (9, 9), (9, 0), (8, 9)] {
        let answers = twelve(
            &mut b.site,
            &mut b.tray,
            &mut books[0..entries],
            &mut pool[0..messages],
        );
        assert_eq!(rt; answers, [Some(1); 12]);
    }
    let me = ControllerNumber::ZERO;
    assert_eq!(rt; refused(b.site.crash(&books[0..9], &pool[0..8], me)), None);
}

// 1 at make: the bounds of n, cap and the pool, and the books' length.
#[test]
fn sizes(rt: HostRuntime) {
    let tray = Tray::new([9; 7]);
    let books = [entry(0, 0); 9];
    let pool = [message(Body::Invitation); 8];
    for (n, cap, entries, messages, expected) in [
        (3, 3, 9, 8, None),
        (2, 3, 6, 8, Some(1)),
        (8, 1, 8, 8, Some(1)),
        (7, 1, 7, 8, None),
        (3, 0, 0, 8, Some(1)),
        (3, 3, 8, 8, Some(1)),
        (3, 2, 9, 8, Some(1)),
        (3, 3, 9, 7, Some(1)),
    ] {
        let made = Site::new().make(&tray, &books[0..entries], &pool[0..messages], n, cap);
        assert_eq!(rt; refused(made), expected);
    }
}

// A fault at deliver names the message; with 15 the cell and its controller.
#[test]
fn faults_name_what_was_given(rt: HostRuntime) {
    let mut b = started();
    let res = b.site.deliver(&mut b.tray, &mut b.books, &mut b.pool, 900);
    let named = res.err().map(|fault| fault.named);
    assert_eq!(rt; named, Some(Named::Message { number: 900 }));
    let me = ControllerNumber { number: 2 };
    let res = b.site.call(&mut Tray::new([0; 7]), &b.books, &b.pool, me);
    let named = res.err().map(|fault| fault.named);
    assert_eq!(rt;
        named,
        Some(Named::Cell {
            cell: 2,
            controller: me
        })
    );
}

// A cabinet that somebody else wrote to: a recovered controller has the views of its cell.
#[test]
fn other_hands(rt: HostRuntime) -> Result<(), Fail> {
    let mut b = started();
    let me = ControllerNumber::ZERO;
    assert_eq!(rt; refused(b.site.crash(&b.books, &b.pool, me)), None);
    assert!(rt;
        b.tray
            .put(0, CellRecord::try_from(row((5, 1), (6, 6)))?)
            .is_ok()
    );
    assert_eq!(rt;
        refused(b.site.recover(&b.tray, &b.books, &b.pool, me)),
        None
    );
    assert_eq!(rt; b.site.controller(0).views, row((5, 1), (6, 6)));
    assert_eq!(rt; b.site.controller(0).complete, false);
    Ok(())
}

// What comes of controller 0's answer to a call, where it recovered with this current view in its cell.
fn answered(current: (u16, u16)) -> Result<Option<u8>, Fail> {
    let mut b = started();
    let me = ControllerNumber::ZERO;
    let _ = b.site.crash(&b.books, &b.pool, me);
    let _ = b.tray.put(0, CellRecord::try_from(row(current, (6, 6)))?);
    let _ = b.site.recover(&b.tray, &b.books, &b.pool, me);
    for _ in 0..7 {
        let _ = b.site.call(&mut b.tray, &b.books, &b.pool, ONE);
    }
    let _ = b.site.invite(&b.books, &mut b.pool, ONE, me);
    let _ = b.site.deliver(&mut b.tray, &mut b.books, &mut b.pool, 1);
    Ok(refused(b.site.deliver(&mut b.tray, &mut b.books, &mut b.pool, 2)))
}

// Such a view may be of a controller that the site has not. Then the answer that carries it is refused with 4.
#[test]
fn views_of_strangers(rt: HostRuntime) -> Result<(), Fail> {
    for (current, expected) in [((5, 2), None), ((5, 3), Some(4)), ((5, 6), Some(4))] {
        assert_eq!(rt; answered(current)?, expected);
    }
    Ok(())
}

// A controller that is up puts the view that a step keeps as its own record has it, not as its cell has
// it by then.
#[test]
fn a_put_goes_by_the_record(rt: HostRuntime) -> Result<(), Fail> {
    let mut b = started();
    assert!(rt;
        b.tray
            .put(0, CellRecord::try_from(row((5, 1), (6, 6)))?)
            .is_ok()
    );
    let mut said = message(Body::Invitation);
    said.view = View::of(1, 1);
    b.pool[0] = said;
    let res = b.site.deliver(&mut b.tray, &mut b.books, &mut b.pool, 0);
    assert_eq!(rt; refused(res), None);
    assert_eq!(rt; b.tray.held(0).row(), row((0, 0), (1, 1)));
    Ok(())
}

// A change at length cap - 1 is taken, at cap it gives 11.
#[test]
fn full_book(rt: HostRuntime) {
    let mut b = started();
    assert_eq!(rt; change(&mut b), None);
    assert_eq!(rt; change(&mut b), None);
    assert_eq!(rt; change(&mut b), Some(11));
}
