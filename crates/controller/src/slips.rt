//! Slips: a slip is the token of a change that was handed out and is not settled yet.
ghost use Rattle.std.specs.Prelude.{◌≡◌, if◌then◌else◌, Ok, Err};
ghost use Rattle.numbers.specs.Refusals.{refusal};
ghost use Rattle.numbers.specs.Views.{stamp_of, stamp_ok};

use numbers::{Refusal, Stamp};

/// It is no `Drop`, so a program that forgets one is rejected: it ends by being settled or set aside.
pub struct Slip {
    stamp: Stamp,
}

/// What became of a slip. While it waits it is handed back. Beside `Verdict`, which is a plain value:
/// a slip can be neither copied nor dropped.
pub enum Settled {
    Confirmed,
    Lost,
    Waiting { slip: Slip },
}

impl Slip {
    ghost use Rattle.controller.specs.Slips.{slip_of, stamp_on};

    // The slip of a stamp. In this crate alone: whoever has but numbers takes a slip up, and is asked 17.
    pub(crate) fn of(stamp: Stamp) -> Slip
        ensures { result ≡ slip_of stamp }
    {
        Slip { stamp }
    }

    /// Takes a slip up from its numbers; refused where they do not keep the form of a stamp.
    pub fn take_up(count: u16, controller: u16, place: u16) -> Result<Slip, Refusal>
        ensures { result ≡ (if stamp_ok (stamp_of count controller place) then Ok (slip_of (stamp_of count controller place)) else Err (refusal 17)) }
    {
        Ok(Slip::of(Stamp::new(count, controller, place)?))
    }

    /// The stamp that the slip stands for.
    pub fn stamp(&self) -> Stamp
        ensures { result ≡ stamp_on self.now }
    {
        self.stamp
    }

    /// Gives the slip's numbers, and ends it.
    pub fn set_aside(self) -> Stamp
        ensures { result ≡ stamp_on self }
    {
        let Slip { stamp } = self;
        stamp
    }
}
