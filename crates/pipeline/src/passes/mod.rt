//! The allocator over one valid function: its places are tested, it is lowered and joined, its ranges
//! get registers and slots, and it is put in physical form.

mod allocator;
mod chosen;
mod places;
mod ready;

pub use crate::passes::allocator::Allocator;
pub use crate::passes::chosen::with_registers;
pub use crate::passes::places::check_source_places;
pub use crate::passes::ready::{PreparedFunc, lower_source, prepare};
pub use greedy_core::Watcher;
