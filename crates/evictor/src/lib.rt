//! Which registers a live range may take, and from which other ranges (LLVM's eviction advisor).
//!
//! Candidates, weights and the cheapest eviction are exactly those of the definitions, by what table
//! and matrix tell. Begin with `choice`; the order of candidates is in `hints`, and stages are in
//! `ranks`.
#![tactic(auto)]

mod choice;
mod hints;
pub mod ranks;
pub mod weights;

pub use choice::{
    Eviction, EvictionQuery, cheapest, cheapest_of, eviction_at, first_free, view_of,
};
pub use hints::candidates;
pub use ranks::{Ranks, Stage, Stages, UseSums};
pub use weights::{use_sum, weight, weight_by};
