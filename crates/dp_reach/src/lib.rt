//! Which entries of a dialplan a phone call can ever run: areas of places, the duties of each application, and the law of every run.
#![tactic(auto)]

pub mod laws;
