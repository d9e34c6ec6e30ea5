//! Cases of machines: what happens in a dialplan, as stories and tables with their answers; of applications, of variables in their
//! arguments, of a machine with another table of applications, and of what a table does not know.
//!
//! A crate with tests is proved twice, so the cases of the libraries are in crates of their own, where each is proved once.
#![tactic(auto)]

#[cfg(test)]
mod applications;
#[cfg(test)]
mod apps;
#[cfg(test)]
mod codes;
#[cfg(test)]
mod dial;
#[cfg(test)]
mod example;
#[cfg(test)]
mod machines;
#[cfg(test)]
mod nameless;
#[cfg(test)]
mod numbers;
#[cfg(test)]
mod own;
#[cfg(test)]
mod scripts;
#[cfg(test)]
mod stories;
#[cfg(test)]
mod unknown;
#[cfg(test)]
mod variables;
