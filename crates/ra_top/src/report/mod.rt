//! What the commands print besides functions.

pub mod intervals;
pub mod run;
pub mod summary;
