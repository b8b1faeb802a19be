//! Serving a script: its steps are gathered, run a buffer at a time, and reported.
use crate::cabinets::Shown;
use crate::kinds::Written;
use crate::memory::blanks;
use crate::orders::Order;
use crate::report::Line;
use crate::script::Script;
use crate::setup::Setup;
use crate::showing::show;
use crate::statement::Statement;
use crate::troubles::Trouble;
use entries::{Entry, Message};
use runs::{Step, Turn, resume, run};
use site::{Fault, Site};
use std::alloc::{AllocError, Global};
use std::io::{BufRead, Write};

// So many steps are gathered before they are run.
const BUFFER: usize = 1_024;

/// A site with its memory and cabinet, the steps that are not run yet, and where reports go.
#[derive(Drop)]
pub struct Desk<'a, E, C, O> {
    // how to make the site, until that was tried
    setup: Option<Setup>,
    site: Site,
    cab: &'a mut C,
    out: &'a mut O,
    books: Vec<Entry<E>>,
    pool: Vec<Message<E>>,
    turns: Vec<Turn<E>>,
    statement: Statement,
}

// Reports steps that were run, a line each.
fn report_turns<E: Written, O: Write>(
    turns: &[Turn<E>],
    statement: &mut Statement,
    out: &mut O,
) -> Result<(), Trouble> {
    for turn in turns {
        let line = Line::from(*turn);
        writeln!(out, "{line}")?;
        statement.note(*turn)?;
    }
    Ok(())
}

impl<'a, E: Written, C: Shown, O: Write> Desk<'a, E, C, O> {
    /// A site that is refused whatever its memory gets none.
    pub fn new(
        heap: Global,
        setup: Setup,
        cab: &'a mut C,
        out: &'a mut O,
    ) -> Result<Desk<'a, E, C, O>, AllocError> {
        let (entry, message) = blanks::<E>();
        let (entries, messages) = if setup.n > 7 || setup.room > 4_096 {
            (0, 0)
        } else {
            (setup.n as usize * setup.cap as usize, setup.room as usize)
        };
        let books = vec![in heap; entry; entries]?;
        let pool = vec![in heap; message; messages]?;
        Ok(Desk {
            setup: Some(setup),
            site: Site::new(),
            cab,
            out,
            books,
            pool,
            turns: Vec::new(heap),
            statement: Statement::new(heap),
        })
    }

    // Makes the site, and runs the steps gathered so far on it.
    fn begin(&mut self, setup: Setup) -> Result<(), Fault> {
        run(
            &mut self.site,
            self.cab,
            self.books.as_mut_slice(),
            self.pool.as_mut_slice(),
            setup.n,
            setup.cap,
            self.turns.as_mut_slice(),
        )
    }

    fn go_on(&mut self) {
        resume(
            &mut self.site,
            self.cab,
            self.books.as_mut_slice(),
            self.pool.as_mut_slice(),
            self.turns.as_mut_slice(),
        )
    }

    // Runs the steps gathered so far; before the first ones the site is made. Says how make went.
    fn play(&mut self) -> Option<Line> {
        let Some(setup) = self.setup.take() else {
            self.go_on();
            return None;
        };
        match self.begin(setup) {
            Ok(()) => Some(Line::Made),
            Err(fault) => {
                self.go_on();
                Some(Line::Refused {
                    word: "site",
                    fault,
                })
            }
        }
    }

    // Runs the steps gathered so far, and reports them.
    fn clear(&mut self) -> Result<(), Trouble> {
        if let Some(line) = self.play() {
            writeln!(self.out, "{line}")?;
        }
        report_turns(self.turns.as_slice(), &mut self.statement, self.out)?;
        self.turns.clear();
        Ok(())
    }

    fn add(&mut self, step: Step<E>) -> Result<(), Trouble> {
        self.turns.push(Turn::from(step))?;
        if self.turns.len() >= BUFFER {
            self.clear()?;
            self.out.flush()?;
        }
        Ok(())
    }

    fn show(&mut self) -> Result<(), Trouble> {
        self.clear()?;
        show(
            self.out,
            &self.site,
            self.cab,
            self.books.as_slice(),
            self.pool.as_slice(),
        )?;
        self.out.flush()?;
        Ok(())
    }

    // States what happened.
    fn tell(&mut self) -> Result<(), Trouble> {
        self.statement.tell(self.out, &self.site)?;
        Ok(())
    }
}

/// Runs the lines that follow the site's, and states what happened. Where the script stops short, what
/// was gathered is run first.
pub fn serve<E: Written, C: Shown, R: BufRead + Drop, O: Write>(
    mut desk: Desk<E, C, O>,
    script: &mut Script<R>,
) -> Result<(), Trouble> {
    // an input may have no end, but a loop has one
    for _ in 0..u64::MAX {
        match script.next::<Order<E>>() {
            Ok(Some(Order::Step { step })) => desk.add(step)?,
            Ok(Some(Order::Show)) => desk.show()?,
            Ok(None) => break,
            Err(trouble) => {
                desk.clear()?;
                return Err(trouble);
            }
        }
    }
    desk.clear()?;
    desk.tell()
}
