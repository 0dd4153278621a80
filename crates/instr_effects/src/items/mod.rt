//! What each instruction reads, writes and does, as values: the items of its meaning in code.

pub mod counted;
pub mod lanes;
pub mod results;
pub mod silent;
pub mod ways;
pub mod writes;
