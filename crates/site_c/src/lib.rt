//! The library for a program in another language: each export does a whole list of calls, on memory of its own.
#![tactic(auto)]

mod cabinets;
mod lookups;
mod rounds;
mod sites;

pub use cabinets::{site_c_strip, site_c_tray};
pub use lookups::{Numbers, Pair, site_c_lookup_cards, site_c_lookup_hours};
pub use sites::{Tally, site_c_changes, site_c_view_changes};
