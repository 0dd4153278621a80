//! Which splits are offered to a live range (LLVM's region, block and local splitting).
//!
//! Each offer is exactly that of the definition, by what table and matrix tell. Begin with `regions`,
//! `blocks` and `runs`, one for each kind; regions of least cost are in `cuts`.
#![tactic(auto)]

mod blocks;
mod bundles;
mod cuts;
mod nets;
mod places;
mod region_nets;
mod regions;
mod runs;
mod spans;

pub use blocks::per_block;
pub use bundles::Bundles;
pub use cuts::{Region, cut_region, cut_region_over};
pub use nets::{BlockNodes, RegionNet};
pub use region_nets::region_net;
pub use regions::{region, region_over};
pub use runs::local;
