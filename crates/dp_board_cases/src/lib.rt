//! Cases of boards, whose seats act in threads of their own.
//!
//! A crate with tests is proved twice, so the cases of the libraries are in crates of their own, where each is proved once.
#![tactic(auto)]

#[cfg(test)]
mod acts;
#[cfg(test)]
mod again;
#[cfg(test)]
mod differences;
#[cfg(test)]
mod gates;
#[cfg(test)]
mod pauses;
#[cfg(test)]
mod play;
#[cfg(test)]
mod releases;
#[cfg(test)]
mod reloads;
#[cfg(test)]
mod turns;
