//! The worked examples: a contract proves them of the written definitions, and the tests run the code on
//! them.
ghost use Rattle.std.specs.Prelude.{◌≡◌, true, false, [], ◌∷◌, Some, None, Ok, Err};
ghost use Rattle.numbers.specs.Majorities.{majority_of};
ghost use Rattle.numbers.specs.declared.refusals.Refusal.TheVariants.{NoRuleAllows};
ghost use Rattle.numbers.specs.Views.{controller_of, earlier, view_of};
ghost use Rattle.entries.specs.declared.messages.Reply.TheVariants.{Normal, Crash};
ghost use Rattle.cabinet.specs.Slots.{slot_bytes};
ghost use Rattle.forming.specs.Rules.{choice as choice_of};
ghost use Rattle.controller.specs.declared.faults.Fault.TheVariants.{Refused};
ghost use Rattle.controller.specs.declared.outcomes.Outcome.TheVariants.{Formed};
ghost use Rattle.trials.specs.Examples.{formed};

use crate::values;
use crate::values::row;
use cabinet::*;
use controller::{Controller, Fault, Status, choice, form};
use entries::{CardChange, Reply};
use numbers::*;
use std::test::Fail;

// The examples, as the definitions have them.
fn stated()
    ensures majorities { (majority_of 3 ≡ 2) × (majority_of 4 ≡ 3) × (majority_of 7 ≡ 4) }
    ensures order { (earlier (view_of 1 2) (view_of 2 0) ≡ true) × (earlier (view_of 1 2) (view_of 1 3) ≡ true) }
    ensures slot { slot_bytes (record { current = view_of 5 1; promised = view_of 128 0 }) ≡ 1 ∷ 0 ∷ 5 ∷ 1 ∷ 0 ∷ 128 ∷ 0 ∷ 0 ∷ [] }
    ensures refused { (choice_of (None ∷ Some (Normal (view_of 0 0) 0 false) ∷ Some (Crash (view_of 0 0)) ∷ []) 3 ≡ None) × (formed (controller_of 1) (None ∷ Some (Normal (view_of 0 0) 0 false) ∷ Some (Crash (view_of 0 0)) ∷ []) ≡ Err (Refused NoRuleAllows (controller_of 1))) }
    ensures led { (choice_of (Some (Normal (view_of 0 0) 0 true) ∷ None ∷ Some (Crash (view_of 0 0)) ∷ []) 3 ≡ Some 0) × (formed (controller_of 0) (Some (Normal (view_of 0 0) 0 true) ∷ None ∷ Some (Crash (view_of 0 0)) ∷ []) ≡ Ok (Formed (controller_of 0))) }
    ensures later { (choice_of (None ∷ Some (Normal (view_of 1 1) 0 false) ∷ Some (Crash (view_of 0 0)) ∷ []) 3 ≡ Some 1) × (formed (controller_of 1) (None ∷ Some (Normal (view_of 1 1) 0 false) ∷ Some (Crash (view_of 0 0)) ∷ []) ≡ Ok (Formed (controller_of 1))) }
    ensures longer { (choice_of (None ∷ Some (Normal (view_of 0 0) 3 false) ∷ Some (Normal (view_of 0 0) 5 false) ∷ []) 3 ≡ Some 2) × (formed (controller_of 1) (None ∷ Some (Normal (view_of 0 0) 3 false) ∷ Some (Normal (view_of 0 0) 5 false) ∷ []) ≡ Ok (Formed (controller_of 2))) }
    ensures smaller { (choice_of (None ∷ Some (Normal (view_of 0 0) 5 false) ∷ Some (Normal (view_of 0 0) 5 false) ∷ []) 3 ≡ Some 1) × (formed (controller_of 1) (None ∷ Some (Normal (view_of 0 0) 5 false) ∷ Some (Normal (view_of 0 0) 5 false) ∷ []) ≡ Ok (Formed (controller_of 1))) }
{}

fn normal(current: (u16, u16), length: u16, primary: bool) -> Option<Reply> {
    let (count, controller) = current;
    Some(values::normal(View::of(count, controller), length, primary))
}

fn crash(current: (u16, u16)) -> Option<Reply> {
    let (count, controller) = current;
    Some(values::crash(View::of(count, controller)))
}

#[test]
fn worked_examples(rt: HostRuntime) -> Result<(), Fail> {
    stated();
    for (n, expected) in [(3, 2), (4, 3), (5, 3), (6, 4), (7, 4)] {
        assert_eq!(rt; majority(n), expected);
    }
    assert!(rt; View::of(1, 2).is_earlier(View::of(2, 0)));
    assert!(rt; View::of(1, 2).is_earlier(View::of(1, 3)));
    let held = CellRecord::try_from(row((5, 1), (128, 0)))?;
    assert_eq!(rt; slot_of(held), [1, 0, 5, 1, 0, 128, 0, 0]);
    Ok(())
}

// The record of a manager that has counted these answers of controllers 0, 1 and 2.
fn manager(me: Member, answers: [Option<Reply>; 3]) -> Controller {
    let [zero, one, two] = answers;
    Controller {
        status: Status::Manager {
            answers: [zero, one, two, None, None, None, None],
        },
        ..Controller::first(me.number())
    }
}

// The manager, the answers that it has counted, and the controller that is chosen: by the rules, and by
// the manager's step.
#[test]
fn forming(rt: HostRuntime) -> Result<(), Fail> {
    for (i, answers, expected) in [
        (1, [None, normal((0, 0), 0, false), crash((0, 0))], None),
        (0, [normal((0, 0), 0, true), None, crash((0, 0))], Some(0)),
        (1, [None, normal((1, 1), 0, false), crash((0, 0))], Some(1)),
        (
            1,
            [None, normal((0, 0), 3, false), normal((0, 0), 5, false)],
            Some(2),
        ),
        (
            1,
            [None, normal((0, 0), 5, false), normal((0, 0), 5, false)],
            Some(1),
        ),
    ] {
        assert_eq!(rt; choice(3, &answers), expected);
        let me = Member::new(ControllerNumber { number: i }, 3)?;
        let chosen = match form::<CardChange>(me, &mut manager(me, answers), true) {
            Ok(message) => Some(message.addressee.number as usize),
            Err(fault) => {
                let (refusal, controller) = (Refusal::NoRuleAllows, me.number());
                assert_eq!(rt;
                    fault,
                    Fault::Refused {
                        refusal,
                        controller
                    }
                );
                None
            }
        };
        assert_eq!(rt; chosen, expected);
    }
    Ok(())
}
