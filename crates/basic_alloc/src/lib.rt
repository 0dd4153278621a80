//! Which register a live range may take, and which lighter ranges lose it (LLVM's RABasic).
//!
//! The choice is exactly that of the definition, by what the matrix tells. Begin with `choice`.
#![tactic(auto)]

mod choice;
mod tinies;

pub use choice::{Choice, basic_choice, choice_of};
