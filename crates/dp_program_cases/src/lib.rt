//! Cases of the program's command lines, as tables with their answers, and of the examples of the documents, which `docs/check` compares
//! with the documents byte for byte.
//!
//! A crate with tests is proved twice, so the cases of the libraries are in crates of their own, where each is proved once.
#![tactic(auto)]

#[cfg(test)]
mod manual;
#[cfg(test)]
mod program;
