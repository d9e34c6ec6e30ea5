//! The examples of the documents, each run by the program.
mod calls;
mod dialplans;
mod entries;
mod examples;
mod faults;
mod office;
mod reaches;
mod shelf;
mod values;
mod wide;
