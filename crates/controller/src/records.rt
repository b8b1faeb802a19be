//! A controller's record.
ghost use Rattle.std.specs.Prelude.{◌≡◌};
ghost use Rattle.controller.specs.Records.{is_up, is_waiting, is_manager, is_active, is_primary, down_record, first_record, only as only_of};

use entries::Reply;
use numbers::{ControllerNumber, Member, Row};

/// What a controller is at, with what belongs to it. Active is Backup or Primary.
#[derive(Clone, Copy, PartialEq, Eq, Debug)]
pub enum Status {
    Down,
    Waiting,
    /// it called a view: the answers counted so far, its own among them
    Manager { answers: [Option<Reply>; 7] },
    Backup,
    /// the length that each controller has acknowledged in this view, its own among them
    Primary { lengths: [Option<u16>; 7] },
}

/// The views are those of the controller's cell while it is up. `primary` is that of the current view.
/// `complete` is a flag, and the length no `Option`: the rules keep both, and name both of a crash.
#[derive(Clone, Copy, PartialEq, Eq, Debug)]
pub struct Controller {
    pub status: Status,
    pub views: Row,
    pub complete: bool,
    pub length: u16,
    pub primary: ControllerNumber,
}

/// A table of seven with nothing in it but x, at the member's own number.
pub fn only<A: Copy>(me: Member, x: A) -> [Option<A>; 7]
    ensures { result ≡ only_of me.number x }
{
    let mut table = [None; 7];
    table[me.index()] = Some(x);
    table
}

impl Controller {
    /// A controller that is down: it remembers nothing.
    pub fn down() -> Controller
        ensures { result ≡ down_record }
    {
        Controller {
            status: Status::Down,
            views: Row::ZERO,
            complete: false,
            length: 0,
            primary: ControllerNumber::ZERO,
        }
    }

    /// A controller at the start: active in view (0, 0), whose primary is controller 0.
    pub fn first(number: ControllerNumber) -> Controller
        ensures { result ≡ first_record number }
    {
        let status = if number.number == 0 {
            Status::Primary {
                lengths: [Some(0), None, None, None, None, None, None],
            }
        } else {
            Status::Backup
        };
        Controller {
            status,
            complete: true,
            ..Controller::down()
        }
    }

    pub fn is_up(&self) -> bool
        ensures { result ≡ is_up self.now }
    {
        !matches!(self.status, Status::Down)
    }

    pub fn is_waiting(&self) -> bool
        ensures { result ≡ is_waiting self.now }
    {
        matches!(self.status, Status::Waiting)
    }

    pub fn is_manager(&self) -> bool
        ensures { result ≡ is_manager self.now }
    {
        matches!(self.status, Status::Manager { .. })
    }

    pub fn is_active(&self) -> bool
        ensures { result ≡ is_active self.now }
    {
        matches!(self.status, Status::Backup | Status::Primary { .. })
    }

    /// Whether it is active and the primary of its view.
    pub fn is_primary(&self) -> bool
        ensures { result ≡ is_primary self.now }
    {
        matches!(self.status, Status::Primary { .. })
    }
}
