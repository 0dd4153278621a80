//! The steps of a run.

use target_base::{List, Numbers, Reg};

/// Ranges with the registers that they get together.
pub type Choices = List<(u32, Reg)>;

/// How a range is split.
#[derive(Clone, Copy, Debug, PartialEq, Eq)]
pub enum Kind {
    /// Along a region of blocks in which a register is free.
    Region,
    /// Block by block.
    Block,
    /// Inside a block.
    Local,
}

/// A step of a run. Ranges are named by their numbers.
#[derive(Drop)]
pub enum Step {
    /// The run over the function of this number in its file begins.
    Begin(u32),
    /// A range gets a register.
    Assign(u32, Reg),
    /// A range gets a register, and these ranges lose theirs.
    Evict(u32, Reg, Numbers),
    /// A range is queued again, to be split or spilled.
    Defer(u32),
    /// A range is split for a register, or for none, and these are its parts.
    Divide(u32, Kind, Option<Reg>, Numbers),
    /// A range is spilled, and these are the ranges of its places.
    Spill(u32, Numbers),
    /// The ranges of a place get these registers together.
    Place(Choices),
}

/// Steps, in order.
pub type Steps = List<Step>;
