//! Numbers, views, stamps and the members of a site, each of a type of its own, and counting over a table: the
//! lowest layer.
#![tactic(auto)]

mod counting;
mod majorities;
mod members;
mod order;
mod records;
mod refusals;
mod rows;
mod views;

pub use counting::{count, every, first, some};
pub use majorities::majority;
pub use members::Member;
pub use order::{stamps_are_ordered, views_are_ordered};
pub use records::CellRecord;
pub use refusals::Refusal;
pub use rows::Row;
pub use views::{ControllerNumber, Place, Stamp, View, ViewCount};
