//! Laws of points: at which points of a function the lanes of a computed table are live or occupied.
//!
//! Each is the contract of a function, so that a check proves it. Begin with `extent_laws`.
#![tactic(auto)]

pub mod extent_laws;
