//! What the lines of a function document say, with their names looked up: the key lines, the registers
//! and the blocks.
//!
//! What is answered is just what the lines say; a line that can't stand where it does is refused by the
//! first of Layout, Token and Name that fails. Begin with `body`; key lines are in `keys`, and a
//! target's names in `names`.
#![tactic(auto)]

pub mod body;
pub mod keys;
pub mod names;
pub mod ranges;
pub mod resolve;
mod stop;

pub use stop::{ReadStop, TextKind};
