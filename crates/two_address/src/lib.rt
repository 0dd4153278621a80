//! Lowering of tied operands, `undef` operands, REG_SEQUENCE and INSERT_SUBREG (LLVM's
//! TwoAddressInstructionPass).
//!
//! The answer is exactly the lowered function of the definition; that it does what the function did is
//! proved in lowering_laws. Begin with `lower`; ties are in `ties`, and sequences in `sequences`.
#![tactic(auto)]

pub mod classes;
pub mod forms;
mod lower;
pub mod sequences;
pub mod ties;

pub use lower::lower_tied;
