//! Forming a view: the rules that choose the new primary.
#![tactic(auto)]

mod rules;

pub use rules::{choice, choice_of_first};
