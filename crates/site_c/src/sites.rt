//! Rounds of steps on a new site of card changes, and what they come to.
use crate::rounds::{change_view, confirm, given, keep};
use cabinet::Tray;
use entries::{Body, CardChange, Entry, Message};
use numbers::{ControllerNumber, View};
use site::Site;
use std::alloc::{AllocError, Global};

/// What a list of rounds comes to. All are 0 where there is no memory for the books.
#[repr(C)]
#[derive(Clone, Copy)]
pub struct Tally {
    /// the messages that were taken, and the slips that were confirmed
    pub taken: u32,
    /// over all controllers: the lengths of their books, and the counts of their views
    pub lengths: u32,
    pub views: u32,
}

const NOTHING: Tally = Tally {
    taken: 0,
    lengths: 0,
    views: 0,
};

// Books for n controllers of cap entries.
fn books(heap: Global, n: u16, cap: u16) -> Result<Vec<Entry<CardChange>>, AllocError> {
    let entry = Entry {
        view: View::ZERO,
        change: given(0),
    };
    Vec::from_elem(heap, entry, n as usize * cap as usize)
}

fn pool() -> [Message<CardChange>; 64] {
    [Message {
        sender: ControllerNumber::ZERO,
        addressee: ControllerNumber::ZERO,
        view: View::ZERO,
        body: Body::Invitation,
    }; 64]
}

fn tallied(site: &Site, taken: u32) -> Tally {
    let mut tally = Tally { taken, ..NOTHING };
    for c in 0..7 {
        let row = site.controller(c);
        tally.lengths = tally.lengths.wrapping_add(u32::from(row.length));
        tally.views = tally
            .views
            .wrapping_add(u32::from(row.views.current.count.number));
    }
    tally
}

/// So many changes, each passed to all others, acknowledged and settled.
#[unsafe(no_mangle)]
pub extern "C" fn site_c_changes(heap: Global, n: u16, cap: u16, rounds: u16) -> Tally {
    let Ok(mut books) = books(heap, n, cap) else {
        return NOTHING;
    };
    let (mut site, mut tray, mut pool) = (Site::new(), Tray::new([65_535; 7]), pool());
    let _ = site.make(&tray, &books, &pool, n, cap);
    let mut taken = 0u32;
    for card in 0..rounds {
        taken = taken.wrapping_add(confirm(&mut site, &mut tray, &mut books, &mut pool, card));
    }
    tallied(&site, taken)
}

/// So many view changes, with so many changes in the primary's book from the start.
#[unsafe(no_mangle)]
pub extern "C" fn site_c_view_changes(
    heap: Global,
    n: u16,
    cap: u16,
    changes: u16,
    rounds: u16,
) -> Tally {
    let Ok(mut books) = books(heap, n, cap) else {
        return NOTHING;
    };
    let (mut site, mut tray, mut pool) = (Site::new(), Tray::new([65_535; 7]), pool());
    let _ = site.make(&tray, &books, &pool, n, cap);
    for card in 0..changes {
        keep(&mut site, &mut books, &pool, card);
    }
    let mut taken = 0u32;
    for _ in 0..rounds {
        taken = taken.wrapping_add(change_view(&mut site, &mut tray, &mut books, &mut pool));
    }
    tallied(&site, taken)
}
