//! Whether an allocated function keeps what is printed of its source beside what runs: names, blocks
//! with their successors, probabilities and live-ins of the entry, flags and tails of instructions, key
//! lines and frame objects.
//!
//! The answer is exact (`keeps_text` of Keeps). Begin with `keeps`; `instructions` finds the partners.
#![tactic(auto)]

mod blocks;
mod frames;
mod instructions;
mod keeps;
pub mod keys;
pub mod laws;
pub mod slots;
mod stored;

pub use keeps::keeps_text;
