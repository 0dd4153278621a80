//! Whose lane it is, and lanes in a row.

/// A lane: whose it is. A lane of a spill slot is one lane at all its widths.
#[derive(Clone, Copy, PartialEq, Eq)]
pub enum Owner {
    /// A unit, by its number.
    Unit(u32),
    /// A lane of a virtual register: the range number and the number of the lane.
    Range(u32, u32),
    /// A lane of a spill slot: the number of the frame object and that of the lane.
    Slot(u32, u32),
}
