//! Laws of the allocator over a computed table and an exact matrix: clashes, evictions and the basic
//! choice (`clash_laws`), and what offers of splits ask (`offer_laws`, `view_laws`).
//!
//! Each is the contract of a function, so that a check proves it. Begin with `clash_laws`.
#![tactic(auto)]

pub mod clash_laws;
pub mod offer_laws;
pub mod view_laws;
