//! The run of an allocator, step by step: of the greedy one (LLVM's RegAllocGreedy), with least cuts
//! for its regions or without (the policy `Cut`), and of the basic one (LLVM's RABasic).
//!
//! That it is the one run of the definition, and that watchers are told its steps, is tested and not
//! proved. Begin with `run`, then `divide` (splits) and `steps_done` (what a step changes).
#![tactic(auto)]

mod basic;
mod divide;
mod ledger;
mod queue;
mod run;
mod steps_done;

pub use run::{Policy, allocate};
pub use spiller::{Allocated, RunStop};
pub use watchers::{Choices, CountWatcher, Kind, PressureWatcher, Step, TraceWatcher, Watcher};
