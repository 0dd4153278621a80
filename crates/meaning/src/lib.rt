//! What code means: lanes and their values, what each operation computes, runs, refinement and live
//! lanes.
//!
//! The meanings are definitions of `specs/`: begin with Code, then Perform and Refines, and Live. The
//! types here are the data that code shares with them, and promise nothing by themselves.
#![tactic(auto)]

pub mod types;

pub use types::{Constant, EdgePair, Fill, Lane, Reads, Rest, Row, Source, Widths, Write, Writes};
