//! Asking a question: a no ends the step with its refusal.
ghost use Rattle.std.specs.Prelude.{◌≡◌, true, false, MatchResult};
ghost use Rattle.controller.specs.declared.faults.Fault.TheVariants.{Refused};

use crate::faults::Fault;
use numbers::{Member, Refusal};

/// The fault of a controller whose step was refused.
pub fn refused(me: Member, refusal: Refusal) -> Fault
    ensures { result ≡ Refused refusal me.number }
{
    Fault::Refused {
        refusal,
        controller: me.number(),
    }
}

pub fn ask(me: Member, yes: bool, refusal: Refusal) -> Result<(), Fault>
    ensures { MatchResult result (λ _. yes ≡ true) (λ e. (yes ≡ false) × (e ≡ Refused refusal me.number)) }
{
    if yes {
        Ok(())
    } else {
        Err(refused(me, refusal))
    }
}
