//! Places: which choices of registers the variables of a place admit.
//!
//! A place is an instruction with the copies beside it. The answer is exactly the first choice in the
//! stated order that the table's tests admit, or that there is none. Begin with `check` (the places of
//! a source) and `tinies` (the places of spilled ranges); the search is in `search` and `nogoods`.
#![tactic(auto)]

mod check;
mod copies;
mod cover;
mod domains;
mod nogoods;
pub mod position;
mod search;
pub mod solve_laws;
mod tinies;
pub mod variables;
mod widths;

pub use check::{PlaceStop, check_live_places, check_places};
pub use tinies::{Choices, solve, solve_at};
