//! How often blocks and ranges are used: block frequencies (LLVM's MachineBlockFrequencyInfo), and the
//! spill weights that rest on them.
//!
//! Both are exactly what the definitions say. Begin with `freqs`, then `weights`.
#![tactic(auto)]

mod edges;
mod freqs;
mod weights;

pub use freqs::{Freqs, frequencies};
pub use weights::{is_range, operand_count, weight};
