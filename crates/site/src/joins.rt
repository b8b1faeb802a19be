//! A waiting controller joins the view of another, and takes over its book.
ghost use Rattle.std.specs.Prelude.{◌≡◌, ◌⊎◌, ◌+◌, ◌≤◌, drop, length, min};
ghost use lib.Seq.{paste};
ghost use Rattle.controller.specs.declared.outcomes.Outcome.TheVariants.{Done};
ghost use Rattle.controller.specs.Actions.{as_outcome};
ghost use Rattle.site.specs.States.{done, state};
ghost use Rattle.site.specs.Steps.{join_step};

use crate::faults::Fault;
use crate::records::Site;
use cabinet::Cabinet;
use controller::Controller;
use entries::{Entry, Message};
use numbers::ControllerNumber;

// How many entries of a book of cap entries are in use: a number, since the copy wants one.
fn used(row: &Controller, cap: u16) -> usize
    ensures { result ≡ min row.now.length cap }
{
    row.length.min(cap) as usize
}

// Copies so many entries over those at another place, which lie apart from them. In two parts, and not
// by `copy_within`, which goes entry by entry.
fn copy_apart<E: Copy>(books: &mut [Entry<E>], from: usize, to: usize, count: usize)
    requires within { (from + count ≤ length books.old) × (to + count ≤ length books.old) }
    requires apart { (from + count ≤ to) ⊎ (to + count ≤ from) }
    ensures { books.new ≡ paste books.old to (drop from books.old) count }
{
    if from < to {
        let (before, after) = books.split_at_mut(to);
        let before: &[Entry<E>] = before;
        after[..count].copy_from_slice(&before[from..from + count]);
    } else {
        let (before, after) = books.split_at_mut(from);
        let after: &[Entry<E>] = after;
        before[to..to + count].copy_from_slice(&after[..count]);
    }
}

impl Site {
    /// Controller i, which waits, joins the view of another, an active primary: the entries in use
    /// of its book are copied over its own.
    pub fn join<E: Copy, C: Cabinet>(
        &mut self,
        cab: &mut C,
        books: &mut [Entry<E>],
        pool: &mut [Message<E>],
        i: ControllerNumber,
        primary: ControllerNumber,
    ) -> Result<(), Fault>
        ensures { join_step (state self.old (C.cells cab.old).list books.old pool.old) i primary ≡ done (as_outcome (λ _. Done) result) (state self.new (C.cells cab.new).list books.new pool.new) }
    {
        let (me, leader) = self.pair(books, pool, i, primary)?;
        let room = self.has_room(pool);
        let (mine, theirs) = (self.part(me), self.part(leader));
        let (to, from) = (mine.start, theirs.start);
        let led = self.rows[leader.index()];
        let row = &mut self.rows[me.index()];
        let shared: &[Entry<E>] = books;
        let (book, log) = (&shared[mine], &shared[theirs]);
        let message = controller::join(me, row, cab, book, leader, &led, log, room)?;
        copy_apart(books, from, to, used(&led, self.cap));
        self.send(pool, message);
        Ok(())
    }
}
