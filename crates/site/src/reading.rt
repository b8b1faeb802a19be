//! What a caller can read off the site's record.
ghost use Rattle.std.specs.Prelude.{◌≡◌, slice_index_or};
ghost use Rattle.controller.specs.Records.{down_record};

use crate::records::Site;
use controller::Controller;

impl Site {
    /// Whether the site is made.
    pub fn is_ready(&self) -> bool
        ensures { result ≡ self.now.made }
    {
        self.made
    }

    /// How many controllers the site has.
    pub fn n(&self) -> u16
        ensures { result ≡ self.now.n }
    {
        self.n
    }

    /// How many entries fit into one book.
    pub fn cap(&self) -> u16
        ensures { result ≡ self.now.cap }
    {
        self.cap
    }

    /// How many messages the pool can hold.
    pub fn capacity(&self) -> u16
        ensures { result ≡ self.now.pool }
    {
        self.pool
    }

    /// How many messages the pool has.
    pub fn count(&self) -> u16
        ensures { result ≡ self.now.count }
    {
        self.count
    }

    /// The record of controller c; that of one that is down for 7 and more.
    pub fn controller(&self, c: u16) -> Controller
        ensures { result ≡ slice_index_or self.now.rows c down_record }
    {
        self.rows
            .get(c as usize)
            .copied()
            .unwrap_or_else(Controller::down)
    }
}
