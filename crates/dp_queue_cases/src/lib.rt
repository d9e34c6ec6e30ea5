//! Cases of queues, as tables with their answers.
//!
//! A crate with tests is proved twice, so the cases of the libraries are in crates of their own, where each is proved once.
#![tactic(auto)]

#[cfg(test)]
mod queues;
