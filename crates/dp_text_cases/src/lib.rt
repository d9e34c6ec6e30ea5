//! Cases of configuration texts and files, names and expressions, as tables with their answers.
//!
//! A crate with tests is proved twice, so the cases of the libraries are in crates of their own, where each is proved once.
#![tactic(auto)]

#[cfg(test)]
mod conf;
#[cfg(test)]
mod expr;
#[cfg(test)]
mod files;
#[cfg(test)]
mod folders;
#[cfg(test)]
mod pattern;
#[cfg(test)]
mod readings;
