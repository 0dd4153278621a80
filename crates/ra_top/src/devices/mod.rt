//! Where bytes come from and where they go: files and sinks, those in memory, and the pieces of a
//! file, one document at a time.

pub mod chunk;
pub mod device;
pub mod memory;
pub mod moves;
pub mod pieces;

pub use crate::devices::chunk::{Chunk, read_piece};
pub use crate::devices::device::{Failed, Files, Sink};
pub use crate::devices::memory::{MemFiles, MemSink};
pub use crate::devices::pieces::Pieces;
