//! Stack slot colouring (LLVM's StackSlotColoring): spill slots that are alike and never hold something
//! at one point become one.
//!
//! That no two slots of one colour clash is proved, and so is that the function does what it did. Begin
//! with `colour`; clashes are in `clashes`, and laws in `clash_laws` and `answer_laws`.
#![tactic(auto)]

pub mod answer_laws;
mod choice;
pub mod clash_laws;
mod clashes;
mod colour;
mod lines;
mod renamed;

pub use colour::colour_slots;
