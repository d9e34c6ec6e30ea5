//! Cases of runs, of runs in threads, and of runs and audits over the wide table, as tables with their whole output.
//!
//! A crate with tests is proved twice, so the cases of the libraries are in crates of their own, where each is proved once.
#![tactic(auto)]

#[cfg(test)]
mod runs;
#[cfg(test)]
mod test_files;
#[cfg(test)]
mod test_runs;
#[cfg(test)]
mod threads;
#[cfg(test)]
mod verbose;
#[cfg(test)]
mod wide_audits;
#[cfg(test)]
mod wide_debug;
#[cfg(test)]
mod wide_runs;
#[cfg(test)]
mod wide_verbose;
