//! A question put to a book.
ghost use Rattle.std.specs.Prelude.{◌≡◌};
ghost use Rattle.entries.specs.Lookups.{looked, Rule};

use crate::book::Entry;
use crate::kinds::{Answer, Kind, Question};

/// Goes back from the last entry and ends at the first that settles the question; where none
/// does, the kind's own answer. A loop that yields its answer by `break`, as the rule is told.
pub fn lookup<E: Kind>(book: &[Entry<E>], question: Question) -> Answer
    ensures value { result ≡ looked E.says E.UNSETTLED book.now question }
    ensures rule { Rule E.says E.UNSETTLED book.now question result }
{
    let Some((mut last, mut rest)) = book.split_last() else {
        return E::UNSETTLED;
    };
    loop {
        if let Some(answer) = last.change.say(question) {
            break answer;
        }
        // what is left is asked here and not at the top: so the loop needs one counter, also in machine code
        let Some((next, before)) = rest.split_last() else {
            break E::UNSETTLED;
        };
        last = next;
        rest = before;
    }
}
