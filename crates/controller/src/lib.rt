//! One controller's behaviour: every step as a function of its own record, cell and book and of
//! the message or step at hand, and of nothing else. A step says what is to be sent; sending it is
//! the caller's business, who says beforehand whether there is room for a message. The member, the
//! record, the cabinet and the book stay parameters of their own: a signature then shows which of
//! them a step may change, and those that only read look like the rest.
#![tactic(auto)]

mod books;
mod deliveries;
mod faults;
mod joins;
mod lookups;
mod outcomes;
mod power;
mod primaries;
mod puts;
mod questions;
mod records;
mod slips;
mod verdicts;
mod view_changes;

pub use deliveries::deliver;
pub use faults::Fault;
pub use forming::choice;
pub use joins::join;
pub use lookups::lookup;
pub use numbers::Member;
pub use outcomes::Outcome;
pub use power::{crash, recover};
pub use primaries::{change, pass};
pub use records::{Controller, Status};
pub use slips::{Settled, Slip};
pub use verdicts::{Verdict, judge, settle};
pub use view_changes::{call, form, invite};
