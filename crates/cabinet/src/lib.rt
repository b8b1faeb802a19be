//! Cabinets: seven cells that keep their records through a power cut, each good for so many writes.
#![tactic(auto)]

mod cabinets;
mod faults;
mod parts;
mod slots;
mod strip;
mod tray;

pub use cabinets::Cabinet;
pub use faults::Worn;
pub use slots::{read_slot, slot_of};
pub use strip::Strip;
pub use tray::Tray;
