//! What became of the changes that were handed out.
ghost use Rattle.std.specs.Prelude.{◌≡◌, ◌-◌};

use controller::Verdict;
use numbers::{Stamp, View};
use std::alloc::{AllocError, Global};
use std::collections::BTreeMap;

// The changes that one view handed out, from the first that waited on: their places follow one another.
#[derive(Drop)]
struct Handed {
    first: u16,
    // of each whether it is neither confirmed nor lost
    waits: Vec<bool>,
    // how many are
    left: u32,
}

#[derive(Drop)]
pub struct Fates {
    // of each view in which a change is neither confirmed nor lost
    views: BTreeMap<View, Handed>,
    heap: Global,
    pub handed: u64,
    pub confirmed: u64,
    pub lost: u64,
}

impl Handed {
    fn add(&mut self) -> Result<(), AllocError> {
        self.waits.push(true)?;
        self.left = self.left.saturating_add(1);
        Ok(())
    }

    // The change at a place waits no more. Whether it waited until now.
    fn take(&mut self, place: u16) -> bool {
        let Some(index) = place.checked_sub(self.first) else {
            return false;
        };
        match self.waits.get_mut(index as usize) {
            Some(waits) if *waits => {
                *waits = false;
                self.left = self.left.saturating_sub(1);
                true
            }
            _ => false,
        }
    }
}

impl Fates {
    pub fn new(heap: Global) -> Fates {
        Fates {
            views: BTreeMap::new(heap),
            heap,
            handed: 0,
            confirmed: 0,
            lost: 0,
        }
    }

    /// A change is handed out; it waits. In one view a change is at the place after that of the last, since a view is
    /// opened once, and its primary appends.
    pub fn hand_out(&mut self, stamp: Stamp) -> Result<(), AllocError> {
        let none = Handed {
            first: stamp.place.number,
            waits: Vec::new(self.heap),
            left: 0,
        };
        self.views.entry(stamp.view)?.or_insert(none).add()?;
        self.handed = self.handed.saturating_add(1);
        Ok(())
    }

    // The change waits no more. Whether it waited until now. A view without one that waits is forgotten.
    fn take(&mut self, stamp: Stamp) -> bool {
        let Some(handed) = self.views.get_mut(&stamp.view) else {
            return false;
        };
        let waited = handed.take(stamp.place.number);
        if handed.left == 0 {
            self.views.remove(&stamp.view);
        }
        waited
    }

    /// A slip was settled. One that no change handed out, or that was settled before, does not count.
    pub fn settle(&mut self, stamp: Stamp, verdict: Verdict) {
        match verdict {
            Verdict::Confirmed if self.take(stamp) => {
                self.confirmed = self.confirmed.saturating_add(1);
            }
            Verdict::Lost if self.take(stamp) => {
                self.lost = self.lost.saturating_add(1);
            }
            _ => {}
        }
    }

    /// How many changes are neither confirmed nor lost.
    pub fn waiting(&self) -> u64
        ensures { result ≡ self.now.handed - self.now.confirmed - self.now.lost }
    {
        self.handed
            .saturating_sub(self.confirmed)
            .saturating_sub(self.lost)
    }
}
