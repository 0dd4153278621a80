//! Laws of segments: from where up to where the lanes of a computed table are live or occupied, as the
//! command `intervals` prints them.
//!
//! Each is the contract of a function, so that a check proves it. Begin with `segment_laws`.
#![tactic(auto)]

pub mod segment_laws;
