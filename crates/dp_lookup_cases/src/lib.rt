//! Cases of look-ups through lists of entries and through tries, of their use in an audit, of what answers differently after a
//! change, and what is reached, of pictures of dialplans, and of findings, answers and tests as JSON, as tables with their answers.
//!
//! A crate with tests is proved twice, so the cases of the libraries are in crates of their own, where each is proved once.
#![tactic(auto)]

#[cfg(test)]
mod differences;
#[cfg(test)]
mod endless;
#[cfg(test)]
mod graph;
#[cfg(test)]
mod graph_exec_if;
#[cfg(test)]
mod graph_fills;
#[cfg(test)]
mod lookup;
#[cfg(test)]
mod objects;
#[cfg(test)]
mod reached_objects;
#[cfg(test)]
mod reaches;
#[cfg(test)]
mod trie;
