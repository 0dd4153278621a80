//! Labels of the points of a function, as a list of the places where the label changes.

use mir_func::Gap;
use std::alloc::{AllocError, Global};
use target_base::{Copied, List};

/// Where a mark stands in its block.
#[derive(Clone, Copy, Debug, PartialEq, Eq)]
pub enum Spot {
    /// At the block's start.
    Border,
    /// At a gap between instructions; its block is the mark's.
    Gap(Gap),
}

/// A place from which on a label holds, up to the next mark in its block.
#[derive(Clone, Copy, Debug, PartialEq, Eq)]
pub struct Mark {
    /// The number of the block.
    pub block: u32,
    /// Where in the block the label begins.
    pub spot: Spot,
    /// The label. Where no mark holds, the label is 0.
    pub label: u16,
}

impl Copied for Mark {
    fn copied(&self, _alloc: Global) -> Result<Mark, AllocError> {
        Ok(*self)
    }
}

/// Marks in layout order; the empty list gives the label 0 everywhere.
pub type Labels = List<Mark>;
