//! Why a call of the site was refused, and what the fault names.
ghost use Rattle.std.specs.Prelude.{◌≡◌};
ghost use Rattle.site.specs.Faults.{about_message, site_fault};

use controller::Fault as ControllerFault;
use numbers::{ControllerNumber, Refusal};

#[derive(Clone, Copy, PartialEq, Eq, Debug)]
pub enum Named {
    /// the worn cell, and the controller that it belongs to
    Cell {
        cell: u16,
        controller: ControllerNumber,
    },
    /// the message that was to be delivered or lost
    Message {
        number: u16,
    },
    /// the acting controller
    Controller {
        number: ControllerNumber,
    },
}

#[derive(Clone, Copy, PartialEq, Eq, Debug)]
pub struct Fault {
    pub refusal: Refusal,
    pub named: Named,
}

impl Fault {
    /// A refusal that names the acting controller.
    pub fn at_controller(refusal: Refusal, number: ControllerNumber) -> Fault
        ensures { result ≡ record { refusal = refusal; named = Named.Controller number } }
    {
        Fault {
            refusal,
            named: Named::Controller { number },
        }
    }

    // A refusal that names the message, whose number is no controller's.
    pub(crate) fn at_message(refusal: Refusal, number: u16) -> Fault
        ensures { result ≡ record { refusal = refusal; named = Named.Message number } }
    {
        Fault {
            refusal,
            named: Named::Message { number },
        }
    }

    // At a delivery the message is named in place of the acting controller; a worn cell stays named.
    pub(crate) fn about(self, number: u16) -> Fault
        ensures { result ≡ about_message number self }
    {
        match self.named {
            Named::Controller { .. } => Fault::at_message(self.refusal, number),
            _ => self,
        }
    }
}

/// A controller's fault gains the question's number; that of a worn cell is 15.
impl From<ControllerFault> for Fault {
    ghost from_gives = { λ f r. r ≡ site_fault f };

    fn from(fault: ControllerFault) -> Fault {
        match fault {
            ControllerFault::Worn { cell, controller } => Fault {
                refusal: Refusal::CellWorn,
                named: Named::Cell { cell, controller },
            },
            ControllerFault::Refused {
                refusal,
                controller,
            } => Fault::at_controller(refusal, controller),
        }
    }
}
