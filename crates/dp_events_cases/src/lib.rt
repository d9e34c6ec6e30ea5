//! Cases of events that are given again after memory ran out, of events from outside, and of large events; of a debugged run that goes on,
//! and a listing that is requested again, after memory ran out; and of where debugged runs halt.
//!
//! A crate with tests is proved twice, so the cases of the libraries are in crates of their own, where each is proved once.
#![tactic(auto)]

#[cfg(test)]
mod again;
#[cfg(test)]
mod debug;
#[cfg(test)]
mod halts;
#[cfg(test)]
mod list;
#[cfg(test)]
mod outside;
