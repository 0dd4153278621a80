//! What an instruction writes, by the numbers of lanes.

/// A lane that an instruction writes.
#[derive(Clone, Copy, PartialEq, Eq)]
pub struct LaneDef {
    /// The lane.
    pub lane: u32,
    /// The lane that is moved here, if it is one that isn't reserved.
    pub from: Option<u32>,
    /// Whether the lane is occupied at the entry too.
    pub early: bool,
}
