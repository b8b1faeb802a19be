//! The site: seven controller records, and the twelve steps over the caller's books and pool and any cabinet.
//! Books and pool are two arguments, and no struct: each call shows which of them it changes. A step is
//! a call of its own, however short, since its contract names the step. One that takes no cabinet
//! promises its step for whatever cells there are.
#![tactic(auto)]

mod asking;
mod deliveries;
mod faults;
mod joins;
mod making;
mod power;
mod primaries;
mod reading;
mod records;
mod view_changes;

pub use faults::{Fault, Named};
pub use records::Site;
