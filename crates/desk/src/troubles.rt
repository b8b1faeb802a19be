//! Why the desk stopped.
use std::alloc::AllocError;
use std::io;
use thiserror::Error;

/// What was expected of a line, as a trouble says it.
#[derive(Clone, Copy, Debug, Drop, Error)]
pub enum Expected {
    #[error("{0}")]
    Words(&'static str),
    /// a line with one number
    #[error("{0}, with a number from 0 to 65535")]
    Number(&'static str),
    /// a line with more
    #[error("{0}, with numbers from 0 to 65535")]
    Numbers(&'static str),
    #[error("a line of at most 65536 bytes")]
    ShortLine,
}

#[derive(Debug, Drop, Error)]
pub enum Trouble {
    /// the line of this number is none of those that were expected
    #[error("line {number}: expected {expected}")]
    Line { number: u64, expected: Expected },
    /// the program was given more than the name of a script
    #[error("desk: expected at most one argument, a script")]
    Arguments,
    /// the script of this name can't be read
    #[error("desk: {name}: {error}")]
    Script { name: String, error: io::Error },
    /// the script can't be read; it comes from standard input, unless `in_file` names a file
    #[error("desk: standard input: {0}")]
    Reading(io::Error),
    /// the report can't be written, or the arguments not read
    #[error("desk: {0}")]
    Writing(#[from] io::Error),
    #[error("desk: out of memory")]
    Memory(#[from(alloc)] AllocError),
}

impl Trouble {
    /// The same trouble, with a script from the file of this name.
    pub fn in_file(self, name: String) -> Trouble {
        match self {
            Trouble::Reading(error) => Trouble::Script { name, error },
            other => other,
        }
    }
}
