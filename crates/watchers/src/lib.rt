//! The steps of a run of the allocator, and watchers, which are told them and have lines of text to
//! show for it.
//!
//! Each line is just what the definition says of its step. Begin with `steps`, then `telling`; the
//! watchers are in `trace`, `count` and `pressure`.
#![tactic(auto)]

pub mod count;
pub mod pressure;
pub mod steps;
pub mod telling;
mod text;
pub mod trace;

pub use count::CountWatcher;
pub use pressure::PressureWatcher;
pub use steps::{Choices, Kind, Step, Steps};
pub use telling::{Watcher, tell_all, tell_steps};
pub use trace::TraceWatcher;
