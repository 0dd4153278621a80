//! The allocator over one function: its passes in order, and the guard that stands before what they
//! answer.
//!
//! What is handed out does what the source does, by the checker's Yes, and keeps its text. Begin with
//! `guarded`, which asks limits, validity and places for all commands, then `passes`.
#![tactic(auto)]

pub mod guarded;
pub mod passes;
