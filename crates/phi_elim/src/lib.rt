//! Phi elimination (LLVM's PHIElimination): each phi becomes copies at the ends of the blocks before
//! its own and one in its place.
//!
//! The answer is exactly the lowered function of the definition; that it does what the source does is
//! proved in lowering_laws. Begin with `phis`.
#![tactic(auto)]

pub mod amount;
mod arrivals;
mod blocks;
pub mod ids;
pub mod moves;
pub mod phis;

pub use phis::lower_phis;
