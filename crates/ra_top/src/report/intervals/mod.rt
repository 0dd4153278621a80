//! The text that says what is live where in a function made ready for the run of the allocator: how
//! often its blocks run, and for each range its weight and the segments of its lanes.

mod lanes;
mod numbers;
mod parts;
mod prepared;
mod segments;
mod text;
mod uses;

pub use crate::report::intervals::prepared::text_of_intervals;
