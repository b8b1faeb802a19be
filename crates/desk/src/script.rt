//! The lines of a script, counted, without their ends and comments.
use crate::troubles::{Expected, Trouble};
use crate::words::Words;
use std::alloc::Global;
use std::io;
use std::io::{BufRead, Read};

// A line has at most so many bytes, its line feed not counted.
const LONGEST: usize = 65_536;

/// What a line may say.
pub trait Said: Drop + Sized {
    /// What it says by its first word and those after it; none where they do not fit.
    fn read(first: &str, words: &mut Words) -> Option<Self>;

    /// What is expected of a line with this first word.
    fn form(first: &str) -> Expected;
}

#[derive(Drop)]
pub struct Script<R> {
    source: R,
    // the last line; the next one is read into the same memory
    line: Vec<u8>,
    // the number of the last line, from 1; the end of the script counts as a line too
    number: u64,
}

impl<R: BufRead + Drop> Script<R> {
    pub fn new(source: R, heap: Global) -> Script<R> {
        Script {
            source,
            line: Vec::new(heap),
            number: 0,
        }
    }

    /// The last line is not what was expected.
    pub fn expected(&self, expected: Expected) -> Trouble {
        Trouble::Line {
            number: self.number,
            expected,
        }
    }

    // Goes on to the next line; false at the end. Of a line that is too long, one byte more than a line may have is
    // read.
    fn advance(&mut self) -> io::Result<bool> {
        self.number = self.number.saturating_add(1);
        self.line.clear();
        let mut source = self.source.by_ref().take(LONGEST as u64 + 1);
        let read = source.read_until(b'\n', &mut self.line)?;
        Ok(read > 0)
    }

    /// What the next line says that says something; none at the end of the script.
    pub fn next<T: Said>(&mut self) -> Result<Option<T>, Trouble> {
        // an input may have no end, but a loop has one
        for _ in 0..u64::MAX {
            match self.advance() {
                Ok(true) => {}
                Ok(false) => break,
                Err(error) => return Err(Trouble::Reading(error)),
            }
            let line = without_feed(self.line.as_slice());
            if line.len() > LONGEST {
                return Err(self.expected(Expected::ShortLine));
            }
            match read(text(line)) {
                Ok(Some(said)) => return Ok(Some(said)),
                Ok(None) => {}
                Err(expected) => return Err(self.expected(expected)),
            }
        }
        Ok(None)
    }
}

// What a line says; none where it has no word. One that is no text has no first word that anybody knows.
fn read<T: Said>(text: Option<&str>) -> Result<Option<T>, Expected> {
    let mut words = Words::new(text.unwrap_or_default());
    let first = match (text, words.next()) {
        (Some(_), None) => return Ok(None),
        (_, first) => first.unwrap_or_default(),
    };
    match T::read(first, &mut words) {
        Some(said) if words.is_done() => Ok(Some(said)),
        _ => Err(T::form(first)),
    }
}

fn without_feed(line: &[u8]) -> &[u8] {
    line.strip_suffix(b"\n").unwrap_or(line)
}

// What stands before the first '#'.
fn before_comment(line: &[u8]) -> &[u8] {
    match line.iter().position(|b| *b == b'#') {
        Some(at) => &line[..at],
        None => line,
    }
}

// What is written on a line, without a carriage return at its end and its comment; none where that
// is no text.
fn text(line: &[u8]) -> Option<&str> {
    let line = line.strip_suffix(b"\r").unwrap_or(line);
    std::str::from_utf8(before_comment(line)).ok()
}
