//! The whole state of a site, a line for each record, cell, entry and message.
use crate::cabinets::Shown;
use crate::kinds::Written;
use crate::report::Line;
use crate::spelling::Spelled;
use crate::views::Dotted;
use cabinet::Cabinet;
use controller::{Controller, Status};
use entries::{Body, Entry, Message, Reply};
use numbers::{ControllerNumber, Refusal};
use site::{Fault, Site};
use std::io::Write;
use std::{fmt, io};

// A row of the table of controllers, in a site of n.
#[derive(Clone, Copy)]
struct Ranked {
    number: u16,
    n: u16,
    record: Controller,
}

// What is there, or a dash.
#[derive(Clone, Copy)]
struct OrDash<T>(Option<T>);

// One answer.
#[derive(Clone, Copy)]
struct Answered(Reply);

// What an answer says, a mark before each part.
#[derive(Clone, Copy)]
struct Marked {
    mark: char,
    reply: Reply,
}

impl<T: fmt::Display> fmt::Display for OrDash<T> {
    fn fmt<W: fmt::Write>(&self, f: &mut fmt::Formatter<W>) -> fmt::Result {
        match &self.0 {
            None => write!(f, "-"),
            Some(x) => write!(f, "{x}"),
        }
    }
}

impl fmt::Display for Answered {
    fn fmt<W: fmt::Write>(&self, f: &mut fmt::Formatter<W>) -> fmt::Result {
        let word = self.0.word();
        let parts = Marked {
            mark: ':',
            reply: self.0,
        };
        write!(f, "{word}{parts}")
    }
}

impl fmt::Display for Marked {
    fn fmt<W: fmt::Write>(&self, f: &mut fmt::Formatter<W>) -> fmt::Result {
        let mark = self.mark;
        match self.reply {
            Reply::Normal {
                current,
                length,
                primary,
            } => {
                let view = Dotted(current);
                let leads = u8::from(primary);
                write!(f, "{mark}{view}{mark}{length}{mark}{leads}")
            }
            Reply::Crash { current } => {
                let view = Dotted(current);
                write!(f, "{mark}{view}")
            }
        }
    }
}

// The first n of a table of seven, after its name.
fn show_table<W: fmt::Write, T: fmt::Display + Copy>(
    f: &mut fmt::Formatter<W>,
    name: &str,
    n: u16,
    table: [Option<T>; 7],
) -> fmt::Result {
    write!(f, " {name}")?;
    for slot in table.iter().take(n as usize) {
        let slot = OrDash(*slot);
        write!(f, " {slot}")?;
    }
    Ok(())
}

impl fmt::Display for Ranked {
    fn fmt<W: fmt::Write>(&self, f: &mut fmt::Formatter<W>) -> fmt::Result {
        let Controller {
            status,
            views,
            complete,
            length,
            primary: ControllerNumber { number: primary },
        } = self.record;
        let number = self.number;
        let word = status.word();
        let current = Dotted(views.current);
        let promised = Dotted(views.promised);
        let whole = if complete { "complete" } else { "incomplete" };
        write!(
            f,
            "controller {number} {word} current {current} promised {promised} {whole} length {length} primary {primary}"
        )?;
        match status {
            Status::Primary { lengths } => show_table(f, "lengths", self.n, lengths),
            Status::Manager { answers } => {
                let answers = answers.map(|answer| answer.map(Answered));
                show_table(f, "answers", self.n, answers)
            }
            Status::Down | Status::Waiting | Status::Backup => Ok(()),
        }
    }
}

fn show_controllers<O: Write>(out: &mut O, site: &Site) -> io::Result<()> {
    for number in 0..7 {
        let line = Ranked {
            number,
            n: site.n(),
            record: site.controller(number),
        };
        writeln!(out, "{line}")?;
    }
    Ok(())
}

fn show_cells<O: Write, C: Shown>(out: &mut O, cab: &C) -> io::Result<()> {
    for cell in 0..7 {
        let row = cab.held(cell).row();
        let current = Dotted(row.current);
        let promised = Dotted(row.promised);
        let left = cab.writes_left(cell);
        writeln!(
            out,
            "cell {cell} current {current} promised {promised} left {left}"
        )?;
    }
    Ok(())
}

// The entries of controller c that are in use, the first of its part of the books.
fn show_book<O: Write, E: Written>(
    out: &mut O,
    c: u16,
    length: u16,
    part: &[Entry<E>],
) -> io::Result<()> {
    for (k, entry) in part.iter().take(length as usize).enumerate() {
        let place = k + 1;
        let view = Dotted(entry.view);
        let [a, b, x] = entry.change.numbers();
        writeln!(out, "book {c} {place} {view} {a} {b} {x}")?;
    }
    Ok(())
}

fn show_books<O: Write, E: Written>(
    out: &mut O,
    site: &Site,
    books: &[Entry<E>],
) -> io::Result<()> {
    let parts = books.chunks(site.cap().max(1) as usize);
    for (c, part) in (0..site.n()).zip(parts) {
        show_book(out, c, site.controller(c).length, part)?;
    }
    Ok(())
}

// What a message holds besides its view.
fn show_body<O: Write, E: Written>(out: &mut O, body: Body<E>) -> io::Result<()> {
    match body {
        Body::Invitation | Body::Form => Ok(()),
        Body::Answer { reply } => {
            let parts = Marked { mark: ' ', reply };
            write!(out, "{parts}")
        }
        Body::Entry { place, entry } => {
            let place = place.number;
            let view = Dotted(entry.view);
            let [a, b, x] = entry.change.numbers();
            write!(out, " {place} {view} {a} {b} {x}")
        }
        Body::Acknowledgement { length } => write!(out, " {length}"),
    }
}

fn show_pool<O: Write, E: Written>(
    out: &mut O,
    site: &Site,
    pool: &[Message<E>],
) -> io::Result<()> {
    for (j, message) in pool.iter().take(site.count() as usize).enumerate() {
        let kind = message.body.word();
        let sender = message.sender.number;
        let addressee = message.addressee.number;
        let view = Dotted(message.view);
        write!(out, "message {j} {kind} {sender} {addressee} {view}")?;
        show_body(out, message.body)?;
        writeln!(out)?;
    }
    Ok(())
}

/// All of it; refused where the site is not made.
pub fn show<O: Write, E: Written, C: Shown>(
    out: &mut O,
    site: &Site,
    cab: &C,
    books: &[Entry<E>],
    pool: &[Message<E>],
) -> io::Result<()> {
    if !site.is_ready() {
        let fault = Fault::at_controller(Refusal::NotMade, ControllerNumber::ZERO);
        let word = "show";
        let line = Line::Refused { word, fault };
        return writeln!(out, "{line}");
    }
    let n = site.n();
    let cap = site.cap();
    let count = site.count();
    let capacity = site.capacity();
    writeln!(out, "show: n {n} cap {cap} pool {count}/{capacity}")?;
    show_controllers(out, site)?;
    show_cells(out, cab)?;
    show_books(out, site, books)?;
    show_pool(out, site, pool)
}
