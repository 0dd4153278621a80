//! The top of the program: its words, its files and its output.
//!
//! The clause of the top call says what each command prints, and that what `alloc` writes does what the
//! source does. Begin with `run`, then `words` and `commands` (what a command answers at a document).
#![tactic(auto)]

pub mod check;
pub mod commands;
pub mod devices;
pub mod ending;
pub mod generated;
pub mod generator;
mod numbers;
pub mod reading;
pub mod report;
pub mod run;
pub mod stream;
pub mod target;
pub mod words;

pub use crate::commands::{LimitName, Status};
pub use crate::devices::{Failed, Files, MemFiles, MemSink, Pieces, Sink};
pub use crate::words::Command;
pub use run::top;
