//! Numbers for lanes: first the units, then the lanes of ranges and of spill slots as they come.

use crate::owner::Owner;
use crate::row::LaneSpan;
use std::collections::BTreeMap;

/// Numbers for lanes, and whose lane each number is.
#[derive(Drop)]
pub struct LaneTable {
    /// By lane.
    pub owners: Vec<Owner>,
    /// Whether each unit is reserved; reserved units take no part.
    pub reserved: Vec<bool>,
    /// The lanes of each range.
    pub ranges: Vec<LaneSpan>,
    /// The lanes of each slot.
    pub slots: BTreeMap<u32, LaneSpan>,
}
