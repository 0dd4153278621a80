//! Laws of what is live: what instructions do to numbered lanes is what the meaning of a function says,
//! a computed table is exact, and it tells which instructions touch a range.
//!
//! Each is the contract of a function, so that a check proves it. Begin with `exact_laws`.
#![tactic(auto)]

pub mod effect_laws;
pub mod exact_laws;
pub mod place_laws;
pub mod touch_laws;
