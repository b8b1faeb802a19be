//! Entries of any kind of change, the messages that carry them, and the rule of lookup.
#![tactic(auto)]

mod book;
mod cards;
mod hours;
mod kinds;
mod lookups;
mod messages;

pub use book::Entry;
pub use cards::CardChange;
pub use hours::HoursChange;
pub use kinds::{Answer, Kind, Question};
pub use lookups::lookup;
pub use messages::{Body, Message, Reply};
