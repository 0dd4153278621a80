//! Coalescing: copies between live ranges go where the ranges can be one (LLVM's RegisterCoalescer).
//!
//! The copies are tried in the order of the definition (`order`), each join is the one that the copy asks
//! for (`joins`), and whether it loses a value is asked of the table of live lanes (`quiet`), which tells
//! that exactly (`quiet_laws`). So the joins are those of the definition. Begin with `joins`.
#![tactic(auto)]

mod joins;
mod order;
mod quiet;
mod quiet_laws;
mod sides;

pub use joins::{Joins, coalesce};
pub use quiet_laws::quiet_law;
