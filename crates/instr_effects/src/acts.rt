//! What an instruction writes, lane by lane.

use crate::owner::Owner;

/// A lane that an instruction writes.
#[derive(Clone, Copy)]
pub struct Act {
    /// The lane.
    pub lane: Owner,
    /// The lane whose value is moved here, if one is.
    pub from: Option<Owner>,
    /// Whether the lane is occupied at the entry too.
    pub early: bool,
}
