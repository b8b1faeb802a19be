//! Tests of the layers, with expected values worked out by hand from the rules.
#![tactic(auto)]

#[cfg(test)]
mod examples;
#[cfg(test)]
mod questions;
#[cfg(test)]
mod ranges;
#[cfg(test)]
mod readme;
#[cfg(test)]
mod sites;
#[cfg(test)]
mod steps;
#[cfg(test)]
mod strips;
#[cfg(test)]
mod trays;
#[cfg(test)]
mod values;
