//! A list of questions put to one book; how many are answered with green.
ghost use Rattle.std.specs.Prelude.{◌≡◌, ◌⊎◌, ◌≤◌, length, map, take};
ghost use Rattle.numbers.specs.Counting.{count as count_of};
ghost use Rattle.entries.specs.Says.{card_says, hours_says};
ghost use Rattle.entries.specs.declared.kinds.Answer.TheVariants.{Green, Red};
ghost use Rattle.site_c.specs.Lookups.{answers_green, card_entry, hours_entry};

use entries::{Answer, CardChange, Entry, HoursChange, Kind, Question, lookup};
use numbers::{View, count};
use std::alloc::{AllocError, Global};

/// An entry as five numbers: its view's two, and its change's three.
#[repr(C)]
#[derive(Clone, Copy)]
pub struct Numbers {
    pub count: u16,
    pub controller: u16,
    pub x: u16,
    pub y: u16,
    pub z: u16,
}

/// Two numbers: a question, or a cell and the count of the view that is put there.
#[repr(C)]
#[derive(Clone, Copy)]
pub struct Pair {
    pub first: u16,
    pub second: u16,
}

fn card(row: &Numbers) -> Entry<CardChange>
    ensures { result ≡ card_entry row.now }
{
    Entry {
        view: View::of(row.count, row.controller),
        change: CardChange {
            card: row.x,
            doors: row.y,
            given: row.z != 0,
        },
    }
}

fn hours(row: &Numbers) -> Entry<HoursChange>
    ensures { result ≡ hours_entry row.now }
{
    Entry {
        view: View::of(row.count, row.controller),
        change: HoursChange {
            door: row.x,
            opening: row.y,
            shutting: row.z,
        },
    }
}

// Whether the first so many entries answer with green. Not inlined: a door asks one question at a time.
#[inline(never)]
fn is_green<E: Kind>(book: &[Entry<E>], used: u16, asked: &Pair) -> bool
    requires { used ≤ length book.now }
    ensures { result ≡ answers_green E.says E.UNSETTLED (take used book.now) asked.now }
{
    let question = Question {
        first: asked.first,
        second: asked.second,
    };
    matches!(lookup(&book[..used as usize], question), Answer::Green)
}

// How many of the questions the book answers with green. A book has 65,535 entries at most; what is
// beyond is left out.
fn greens<E: Kind>(book: &[Entry<E>], questions: &[Pair]) -> usize
    ensures { result ≡ count_of (answers_green E.says E.UNSETTLED (take 65535 book.now)) questions.now }
{
    let used = book.len().min(65_535) as u16;
    count(questions, |asked| is_green(book, used, asked))
}

/// Of a book of card changes. Where there is no memory for the book, none is green.
#[unsafe(no_mangle)]
pub extern "C" fn site_c_lookup_cards(heap: Global, rows: &[Numbers], questions: &[Pair]) -> usize
    ensures { (result ≡ 0) ⊎ (result ≡ count_of (answers_green card_says Red (take 65535 (map card_entry rows.now))) questions.now) }
{
    let book: Result<Vec<Entry<CardChange>>, AllocError> = rows.iter().map(card).collect(heap);
    match book {
        Ok(book) => greens(&book, questions),
        Err(_) => 0,
    }
}

/// Of a book of hours changes.
#[unsafe(no_mangle)]
pub extern "C" fn site_c_lookup_hours(heap: Global, rows: &[Numbers], questions: &[Pair]) -> usize
    ensures { (result ≡ 0) ⊎ (result ≡ count_of (answers_green hours_says Green (take 65535 (map hours_entry rows.now))) questions.now) }
{
    let book: Result<Vec<Entry<HoursChange>>, AllocError> = rows.iter().map(hours).collect(heap);
    match book {
        Ok(book) => greens(&book, questions),
        Err(_) => 0,
    }
}
