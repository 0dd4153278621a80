//! Spilling: a live range is kept in a spill slot, and each place that touches it gets registers of its
//! own for the moment (LLVM's InlineSpiller, with rematerialisation).
//!
//! Begin with `spilled`; which values are made anew is in `remat` and `reaching`, and slots are in
//! `slot_map`. That what spilling makes is the definition's (`specs/Spilled.antt`), and when it is
//! refused, is proved, and so is that slots are the definition's.
#![tactic(auto)]

mod ends;
mod kinds;
mod places;
mod plan;
mod reaching;
mod remat;
mod roles;
mod seats;
pub mod slot_map;
mod spill_law;
mod spilled;
pub mod stop;

pub use slot_map::SlotMap;
pub use spill_law::{facts_law, spill_edits_law};
pub use spilled::{MOST_RANGES, spill};
pub use stop::{Allocated, RunStop};
