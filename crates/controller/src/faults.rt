//! Why a controller's step was refused.
ghost use Rattle.std.specs.Prelude.{◌≡◌};
ghost use Rattle.controller.specs.Faults.{worn_fault};

use cabinet::Worn;
use numbers::{ControllerNumber, Refusal};

#[derive(Clone, Copy, PartialEq, Eq, Debug)]
pub enum Fault {
    /// the cell has no writes left, and whose it is: of one number, but two things to be told
    Worn {
        cell: u16,
        controller: ControllerNumber,
    },
    /// the question that was answered no, and the acting controller
    Refused {
        refusal: Refusal,
        controller: ControllerNumber,
    },
}

/// The cabinet's fault gains the controller, whose number is its cell's.
impl From<Worn> for Fault {
    ghost from_gives = { λ w f. f ≡ worn_fault w.cell };

    fn from(worn: Worn) -> Fault {
        Fault::Worn {
            cell: worn.cell,
            controller: ControllerNumber { number: worn.cell },
        }
    }
}
