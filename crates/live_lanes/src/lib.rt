//! Functions with what is live in them (LLVM's LiveIntervals): for each lane of a virtual register, of
//! a unit and of a spill slot, the stretches of points at which it is live or occupied.
//!
//! Begin with `live`; questions are in `ask`. The table behind it (`table`, `row`, `order`, `compute`) is
//! public for the crate that edits it, live_edits.
#![tactic(auto)]

pub mod ask;
pub mod compute;
mod fresh;
mod laws;
pub mod live;
pub mod order;
pub mod row;
pub mod table;

pub use ask::extent::{ChangedPiece, Extent, Stretch};
pub use ask::labels::{Labels, Mark, Spot};
pub use live::{LiveFunc, LiveTable};
