//! Cases of the wide table, and of the plain functions over texts and moments on which it is built, as tables with their answers.
#![tactic(auto)]

#[cfg(test)]
mod choices;
#[cfg(test)]
mod functions;
#[cfg(test)]
mod names;
#[cfg(test)]
mod settings;
#[cfg(test)]
mod texts;
#[cfg(test)]
mod times;
#[cfg(test)]
mod wide;
