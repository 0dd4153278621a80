//! The ranges that spilling makes at one place.

use std::alloc::{AllocError, Global};
use target_base::{Copied, List};

/// A range that spilling made for an operand, and the place where it lives.
#[derive(Clone, Copy, Debug, PartialEq, Eq)]
pub struct Tiny {
    /// The range.
    pub range: u32,
    /// The instruction, or the first terminator, or the store where a reload into the range and a
    /// store of it stand for one copy.
    pub at: u32,
}

impl Copied for Tiny {
    fn copied(&self, _alloc: Global) -> Result<Tiny, AllocError> {
        Ok(*self)
    }
}

/// Tinies in order.
pub type Tinies = List<Tiny>;
