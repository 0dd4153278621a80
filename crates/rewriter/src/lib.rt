//! Rewriting to physical registers (LLVM's VirtRegRewriter).
//!
//! The answer is exactly the physical form of the definition (`physical_form` of Physical), and the
//! units that are live at the starts of blocks are those that the table of live lanes tells. Begin
//! with `allocated`, then `physical`.
#![tactic(auto)]

mod allocated;
mod cover;
mod head;
mod holders;
mod live_units;
pub mod operands;
mod physical;
mod slots;
pub mod unit_laws;

pub use allocated::rewrite;
pub use live_units::LiveUnits;
pub use physical::rewrite_assigned;
