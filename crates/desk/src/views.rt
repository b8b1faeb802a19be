//! A view as reports write it.
use numbers::View;
use std::fmt;

/// COUNT.CONTROLLER
#[derive(Clone, Copy)]
pub struct Dotted(pub View);

impl fmt::Display for Dotted {
    fn fmt<W: fmt::Write>(&self, f: &mut fmt::Formatter<W>) -> fmt::Result {
        let count = self.0.count.number;
        let controller = self.0.controller.number;
        write!(f, "{count}.{controller}")
    }
}
