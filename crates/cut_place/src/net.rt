//! Nets, and the cuts that are found in them.

use std::alloc::Global;
use target_base::{Flags, List};

/// An arc of a net: at most `cap` flows from one node to another.
#[derive(Clone, Copy, Debug, PartialEq, Eq)]
pub struct Arc {
    /// The node that the arc leaves.
    pub from: u32,
    /// The node that the arc enters.
    pub to: u32,
    /// The most that flows.
    pub cap: u128,
}

/// Arcs in order.
pub type Arcs = List<Arc>;

/// What flows through each arc, in order.
pub type Flows = List<u128>;

/// A net. Node 0 is the source and node 1 the sink.
#[derive(Drop)]
pub struct Net {
    /// The number of nodes.
    pub nodes: u32,
    /// The arcs.
    pub arcs: Arcs,
}

/// A least cut, with a greatest flow.
#[derive(Drop)]
pub struct Cut {
    /// Of each node, whether it's on the source's side.
    pub inside: Flags,
    /// What flows through each arc.
    pub flow: Flows,
    /// The sum of the capacities of the arcs that leave the source's side.
    pub cost: u128,
}
