//! Confirmed changes survive every later view, of every run of the protocol.
#![tactic(auto)]

ghost use Rattle.protocol.specs.Guarantee.{Statement};

pub fn confirmed_changes_survive<E>()
    ensures { Statement E }
{}
