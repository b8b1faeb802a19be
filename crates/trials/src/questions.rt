//! What card and hours changes say, and what a book answers.
use entries::*;
use numbers::View;

fn card(card: u16, doors: u16, given: bool) -> CardChange {
    CardChange { card, doors, given }
}

fn hours(door: u16, opening: u16, shutting: u16) -> HoursChange {
    HoursChange {
        door,
        opening,
        shutting,
    }
}

const GREEN: Option<Answer> = Some(Answer::Green);

const RED: Option<Answer> = Some(Answer::Red);

// Doors 0, 3 and 15 are set 32,777.
#[test]
fn a_card_change_says(rt: HostRuntime) {
    for (given, first, second, expected) in [
        (true, 7, 0, GREEN),
        (true, 7, 3, GREEN),
        (true, 7, 15, GREEN),
        (true, 7, 1, None),
        (true, 7, 14, None),
        (true, 7, 16, None),
        (true, 7, 19, None),
        (true, 7, 65_535, None),
        (true, 8, 3, None),
        (false, 7, 3, RED),
        (false, 7, 1, None),
        (false, 8, 3, None),
    ] {
        let question = Question { first, second };
        assert_eq!(rt; card(7, 32_777, given).say(question), expected);
    }
}

#[test]
fn an_hours_change_says(rt: HostRuntime) {
    for (opening, shutting, first, second, expected) in [
        (480, 1_080, 2, 479, RED),
        (480, 1_080, 2, 480, GREEN),
        (480, 1_080, 2, 1_079, GREEN),
        (480, 1_080, 2, 1_080, RED),
        (480, 1_080, 3, 600, None),
        (600, 600, 2, 600, RED),
        (600, 599, 2, 600, RED),
        (600, 599, 2, 599, RED),
        (0, 65_535, 2, 0, GREEN),
        (0, 65_535, 2, 65_535, RED),
    ] {
        let question = Question { first, second };
        assert_eq!(rt; hours(2, opening, shutting).say(question), expected);
    }
}

fn entry<E>(count: u16, change: E) -> Entry<E> {
    Entry {
        view: View::of(count, 0),
        change,
    }
}

#[test]
fn an_empty_book_answers(rt: HostRuntime) {
    let question = Question {
        first: 7,
        second: 3,
    };
    let cards: [Entry<CardChange>; 0] = [];
    let times: [Entry<HoursChange>; 0] = [];
    assert_eq!(rt; lookup(&cards, question), Answer::Red);
    assert_eq!(rt; lookup(&times, question), Answer::Green);
}

// Card 7 is given doors 0 and 3 and loses door 3; card 8 is given door 3. The views play no part.
#[test]
fn the_last_entry_wins(rt: HostRuntime) {
    let book = [
        entry(9, card(7, 9, true)),
        entry(0, card(7, 8, false)),
        entry(4, card(8, 8, true)),
    ];
    for (first, second, length, expected) in [
        (7, 3, 0, Answer::Red),
        (7, 3, 1, Answer::Green),
        (7, 3, 2, Answer::Red),
        (7, 3, 3, Answer::Red),
        (7, 0, 3, Answer::Green),
        (8, 3, 2, Answer::Red),
        (8, 3, 3, Answer::Green),
        (8, 16, 3, Answer::Red),
    ] {
        assert_eq!(rt;
            lookup(&book[0..length], Question { first, second }),
            expected
        );
    }
}
