//! Rounds of steps that are played on a site. Each tells how many messages were taken.
use cabinet::Tray;
use controller::{Settled, Slip};
use entries::{CardChange, Entry, Message};
use numbers::ControllerNumber;
use site::{Fault, Site};

type Card = Entry<CardChange>;

type Letter = Message<CardChange>;

const ONE: ControllerNumber = ControllerNumber { number: 1 };

/// A card that is given at doors 0 and 3.
pub fn given(card: u16) -> CardChange {
    CardChange {
        card,
        doors: 9,
        given: true,
    }
}

// The messages from j on are delivered, as many as there are now.
fn deliver(
    site: &mut Site,
    tray: &mut Tray,
    books: &mut [Card],
    pool: &mut [Letter],
    j: u16,
) -> u32 {
    let mut taken = 0u32;
    for k in j..site.count() {
        let took = site.deliver(tray, books, pool, k).is_ok();
        taken = taken.wrapping_add(u32::from(took));
    }
    taken
}

// The pool is emptied.
fn empty(site: &mut Site, books: &[Card], pool: &mut [Letter]) {
    for _ in 0..site.count() {
        let _ = site.lose(books, pool, 0);
    }
}

// Whether a slip was confirmed; one that is not spent is set aside.
fn is_confirmed(settled: Result<Settled, (Fault, Slip)>) -> bool {
    match settled {
        Ok(Settled::Confirmed) => true,
        Ok(Settled::Lost) => false,
        Ok(Settled::Waiting { slip }) => {
            slip.set_aside();
            false
        }
        Err((_, slip)) => {
            slip.set_aside();
            false
        }
    }
}

/// A change at controller 0 that goes to nobody.
pub fn keep(site: &mut Site, books: &mut [Card], pool: &[Letter], card: u16) {
    if let Ok(slip) = site.change(books, pool, ControllerNumber::ZERO, given(card)) {
        slip.set_aside();
    }
}

/// A change at controller 0 goes to all others, is acknowledged by all, and settled; the pool is
/// emptied. One more counts where the slip was confirmed.
pub fn confirm(
    site: &mut Site,
    tray: &mut Tray,
    books: &mut [Card],
    pool: &mut [Letter],
    card: u16,
) -> u32 {
    let zero = ControllerNumber::ZERO;
    let Ok(slip) = site.change(books, pool, zero, given(card)) else {
        return 0;
    };
    let place = slip.stamp().place;
    for b in 1..site.n() {
        let _ = site.pass(books, pool, zero, ControllerNumber { number: b }, place);
    }
    let passed = site.count();
    let entries = deliver(site, tray, books, pool, 0);
    let lengths = deliver(site, tray, books, pool, passed);
    let confirmed = is_confirmed(site.settle(books, pool, zero, slip));
    empty(site, books, pool);
    entries
        .wrapping_add(lengths)
        .wrapping_add(u32::from(confirmed))
}

// All controllers but the primary join its view; it is refused itself.
fn join_all(
    site: &mut Site,
    tray: &mut Tray,
    books: &mut [Card],
    pool: &mut [Letter],
    primary: ControllerNumber,
) {
    for i in 0..site.n() {
        let _ = site.join(tray, books, pool, ControllerNumber { number: i }, primary);
    }
}

/// Controller 1 calls a view, invites all others and gets their answers; the chosen one opens it, all
/// others join, and the pool is emptied.
pub fn change_view(
    site: &mut Site,
    tray: &mut Tray,
    books: &mut [Card],
    pool: &mut [Letter],
) -> u32 {
    let _ = site.call(tray, books, pool, ONE);
    for b in 0..site.n() {
        let _ = site.invite(books, pool, ONE, ControllerNumber { number: b });
    }
    let invited = site.count();
    let mut taken = deliver(site, tray, books, pool, 0);
    let answered = site.count();
    taken = taken.wrapping_add(deliver(site, tray, books, pool, invited));
    if let Ok(primary) = site.form(books, pool, ONE) {
        taken = taken.wrapping_add(deliver(site, tray, books, pool, answered));
        let opened = site.count();
        join_all(site, tray, books, pool, primary);
        taken = taken.wrapping_add(deliver(site, tray, books, pool, opened));
    }
    empty(site, books, pool);
    taken
}
