//! Laws of the states of an allocation: what each gives to the matrix and to the passes that take it on.
//!
//! Each is the contract of a function, so that a check proves it. Begin with `clear`: in each state no two ranges clash, as
//! edits ask of a matrix, and what its lists tell as free is free. `passes` says that each range may be spilled and split, and
//! what steps leave as it was.
#![tactic(auto)]

pub mod clear;
pub mod passes;
