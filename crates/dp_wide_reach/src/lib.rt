//! Which entries of a dialplan a phone call can run over the wide table: the duties of each of its applications.
#![tactic(auto)]

pub mod laws;
