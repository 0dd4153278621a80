//! Least cuts of nets, each with a greatest flow that shows it least.
//!
//! The answer is exactly the least of the least cuts, and its flow shows it. Begin with `cut`, then
//! `search` (a way that takes more flow) and `net`.
#![tactic(auto)]

mod cut;
mod links;
mod net;
mod paths;
mod search;
mod steps;
mod walk;

pub use cut::least_cut;
pub use net::{Arc, Arcs, Cut, Flows, Net};
