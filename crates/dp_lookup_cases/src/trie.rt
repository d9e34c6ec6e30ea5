//! Look-ups in tries, worked out by hand from the rules, and compared with those in dialplans.
mod agreement;
mod large;
mod render;
mod rows;
