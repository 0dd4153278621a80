//! Notes of what touched instructions do now to the cells of lanes.

use instr_effects::lane_acts::LaneAct;

/// What an instruction that was touched at a lane does to it now; it may do nothing.
#[derive(Clone, Copy, PartialEq, Eq)]
pub struct Note {
    /// The instruction.
    pub id: u32,
    /// What it does to the lane.
    pub act: LaneAct,
}

/// Where the cell of a lane in a block stands.
#[derive(Clone, Copy)]
pub struct CellSpot {
    /// The lane.
    pub lane: u32,
    /// The block's position in the layout.
    pub block: u32,
    /// The place among the lane's cells at which this one was found last, as a hint: it may be any.
    pub near: usize,
}

/// The notes of the instructions of a block that are touched at a lane.
#[derive(Drop)]
pub struct CellNotes {
    /// The lane.
    pub lane: u32,
    /// The block's position in the layout.
    pub block: u32,
    /// The notes.
    pub notes: Vec<Note>,
}
