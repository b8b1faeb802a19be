//! Runs: any list of steps of a site, and what is guaranteed of every one.
#![tactic(auto)]

mod example_runs;
mod guarantees;
mod playing;
mod steps;

pub use controller::Outcome;
pub use example_runs::guarantee_is_not_empty;
pub use guarantees::confirmed_changes_stand;
pub use playing::{resume, run};
pub use steps::{Step, Turn};
