//! Making a site.
ghost use Rattle.std.specs.Prelude.{◌≡◌, ◌≤◌, true};
ghost use Rattle.site.specs.Making.{cells_zero, made_row as row_made, made_site, make_step, no_site, made_rows as rows_made, sizes_ok};
ghost use Rattle.site.specs.States.{done, state};

use crate::faults::Fault;
use crate::records::Site;
use cabinet::Cabinet;
use controller::Controller;
use entries::{Entry, Message};
use numbers::{ControllerNumber, Refusal, Row};
use std::array::from_fn;

// The record of controller c of a site of n as it is made.
fn made_row(n: u16, c: u16) -> Controller
    ensures { result ≡ row_made n c }
{
    if c < n {
        Controller::first(ControllerNumber { number: c })
    } else {
        Controller::down()
    }
}

// The seven records of a site of n as it is made.
fn made_rows(n: u16) -> [Controller; 7]
    ensures { result ≡ rows_made n }
{
    from_fn(|c| made_row(n, c as u16))
}

// Whether cells 0 to n - 1 hold twice the view (0, 0).
fn cells_are_zero<C: Cabinet>(cab: &C, n: u16) -> bool
    ensures { result ≡ cells_zero (C.cells cab.now).list n }
{
    (0..n).all(|k| cab.held(k).row() == Row::ZERO)
}

// Whether the sizes are in range and the books have n × cap entries.
fn sizes_are_ok(n: u16, cap: u16, books: usize, pool: usize) -> bool
    ensures value { result ≡ sizes_ok n cap books pool }
    ensures few { result ≡ true → pool ≤ 4096 }
{
    (3..=7).contains(&n)
        && 1 <= cap
        && (8..=4_096).contains(&pool)
        && books == n as usize * cap as usize
}

impl Site {
    /// A site that is not made yet.
    pub fn new() -> Site
        ensures { result ≡ no_site }
    {
        Site {
            made: false,
            n: 0,
            cap: 0,
            pool: 0,
            count: 0,
            rows: [Controller::down(); 7],
        }
    }

    /// Makes a site of n controllers with books of cap entries each, over this memory: all are active in
    /// view (0, 0) with controller 0 as primary, and the pool is empty.
    pub fn make<E, C: Cabinet>(
        &mut self,
        cab: &C,
        books: &[Entry<E>],
        pool: &[Message<E>],
        n: u16,
        cap: u16,
    ) -> Result<(), Fault>
        ensures { make_step (state self.old (C.cells cab.now).list books.now pool.now) n cap ≡ done result (state self.new (C.cells cab.now).list books.now pool.now) }
    {
        let first = ControllerNumber::ZERO;
        if !sizes_are_ok(n, cap, books.len(), pool.len()) {
            return Err(Fault::at_controller(Refusal::NotMade, first));
        }
        if !cells_are_zero(cab, n) {
            return Err(Fault::at_controller(Refusal::CellsUsed, first));
        }
        let rows = made_rows(n);
        *self = Site {
            made: true,
            n,
            cap,
            pool: pool.len() as u16,
            count: 0,
            rows,
        };
        Ok(())
    }
}
