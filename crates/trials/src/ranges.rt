//! The bounds of every range, the order of views, and the number of every refusal.
use crate::values::row;
use numbers::*;

// The value, or the refusal of what does not keep its form.
fn taken<T: Drop>(value: T, in_form: bool) -> Result<T, Refusal> {
    in_form.then_some(value).ok_or(Refusal::BadForm)
}

#[test]
fn plain_numbers(rt: HostRuntime) {
    for (number, place, count, controller) in [
        (0, false, true, true),
        (1, true, true, true),
        (6, true, true, true),
        (7, true, true, false),
        (300, true, true, false),
        (16_383, true, true, false),
        (16_384, true, false, false),
        (65_535, true, false, false),
    ] {
        assert_eq!(rt; Place::try_from(number), taken(Place { number }, place));
        assert_eq!(rt;
            ViewCount::try_from(number),
            taken(ViewCount { number }, count)
        );
        assert_eq!(rt;
            ControllerNumber::try_from(number),
            taken(ControllerNumber { number }, controller)
        );
    }
}

#[test]
fn views_and_stamps(rt: HostRuntime) {
    for (count, controller, place, made, stamped) in [
        (0, 0, 0, true, false),
        (0, 0, 1, true, true),
        (16_383, 6, 65_535, true, true),
        (16_384, 6, 1, false, false),
        (16_383, 7, 1, false, false),
    ] {
        let made_view = View::of(count, controller);
        let stamp = Stamp {
            view: made_view,
            place: Place { number: place },
        };
        assert_eq!(rt; View::new(count, controller), taken(made_view, made));
        assert_eq!(rt; made_view.is_ok(), made);
        assert_eq!(rt; Stamp::new(count, controller, place), taken(stamp, stamped));
    }
}

#[test]
fn order(rt: HostRuntime) {
    for (v, w, earlier, same) in [
        ((1, 2), (2, 0), true, false),
        ((2, 0), (1, 2), false, false),
        ((1, 2), (1, 3), true, false),
        ((1, 3), (1, 2), false, false),
        ((1, 3), (1, 3), false, true),
        ((0, 6), (16_383, 0), true, false),
    ] {
        let v = View::of(v.0, v.1);
        let w = View::of(w.0, w.1);
        assert_eq!(rt; v.is_earlier(w), earlier);
        assert_eq!(rt; v.is_same(w), same);
    }
}

// The row of the record that is made of the row.
fn through(row: Row) -> Result<Row, Refusal> {
    Ok(CellRecord::try_from(row)?.row())
}

#[test]
fn records(rt: HostRuntime) {
    assert_eq!(rt; CellRecord::zero().row(), row((0, 0), (0, 0)));
    for (current, promised, in_form) in [
        ((0, 0), (0, 0), true),
        ((16_383, 6), (16_383, 6), true),
        ((5, 1), (128, 0), true),
        ((1, 2), (1, 3), true),
        ((1, 3), (1, 2), false),
        ((2, 0), (1, 6), false),
        ((0, 7), (1, 0), false),
        ((0, 0), (1, 7), false),
        ((0, 0), (16_384, 0), false),
        ((16_384, 0), (16_384, 0), false),
    ] {
        let both = row(current, promised);
        assert_eq!(rt; through(both), taken(both, in_form));
    }
}

#[test]
fn refusals(rt: HostRuntime) {
    let refusals = [
        Refusal::NotMade,
        Refusal::NoSuchController,
        Refusal::NoSuchMessage,
        Refusal::BadMessage,
        Refusal::WrongPower,
        Refusal::WrongStatus,
        Refusal::NotPrimary,
        Refusal::WrongView,
        Refusal::IncompleteBook,
        Refusal::DoesNotFit,
        Refusal::BookFull,
        Refusal::NoRuleAllows,
        Refusal::CountsSpent,
        Refusal::PoolFull,
        Refusal::CellWorn,
        Refusal::CellsUsed,
        Refusal::BadForm,
    ];
    assert_eq!(rt; refusals.len(), 17);
    for (refusal, number) in refusals.iter().zip(1..) {
        assert_eq!(rt; u8::from(*refusal), number);
    }
}
