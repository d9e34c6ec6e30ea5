//! Cases of the program's command lines.
mod commands;
mod json;
mod large;
mod mistakes;
