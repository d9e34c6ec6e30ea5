//! Cases of dialplans: how they load and are listed, what is read from them, and the codes of their faults. They are tables with
//! answers.
//!
//! A crate with tests is proved twice, so the cases of the libraries are in crates of their own, where each is proved once.
#![tactic(auto)]

#[cfg(test)]
mod codes;
#[cfg(test)]
mod lines;
#[cfg(test)]
mod lister;
#[cfg(test)]
mod notices;
#[cfg(test)]
mod plan;
#[cfg(test)]
mod queue_files;
#[cfg(test)]
mod readers;
