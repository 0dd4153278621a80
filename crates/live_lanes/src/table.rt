//! The pieces of all lanes of a function.

ghost use Rattle.std.specs.Prelude.{◌≡◌, ◌<◌, option_copied, length, slice_get};

use crate::compute::flow::BlockFlow;
use crate::order::Order;
use crate::row::{Cell, LaneRange, exit_rank};
use instr_effects::lanes::LaneTable;
use std::alloc::{AllocError, Global};

/// Where a piece stands.
#[derive(Clone, Copy, PartialEq, Eq)]
pub struct PieceSpot {
    /// The lane.
    pub lane: u32,
    /// The block's position in the layout.
    pub block: u32,
    /// The place among the lane's pieces in the block: 0 is the one that begins with the block.
    pub index: usize,
}

/// The pieces of the lanes of a function, by lane.
#[derive(Drop)]
pub struct LaneRanges {
    pub alloc: Global,
    pub rows: Vec<LaneRange>,
}

impl LaneRanges {
    ghost use Rattle.std.specs.Prelude.{ℕ, IfOk};
    ghost use Rattle.live_lanes.specs.Graph.{is_live};
    ghost use Rattle.live_lanes.specs.Table.{seen, unseen, exit_rank};
    ghost use Rattle.live_lanes.specs.Entered.{rows_seen, cells_of, piece_count, causes};
    ghost use Rattle.live_lanes.specs.Lasting.{AllRise, piece_of, shapes};

    /// So many lanes without pieces.
    pub fn new(alloc: Global, count: usize) -> Result<LaneRanges, AllocError>
        ensures lanes { IfOk result (λ x. length x.rows.items ≡ count) }
        ensures seen { IfOk result (λ x. (l b : ℕ) → rows_seen x.rows.items l b ≡ unseen) }
    {
        let mut rows = Vec::new(alloc);
        'lanes: for _ in 0..count {
            rows.push(LaneRange::new(alloc))?;
        }
        Ok(LaneRanges { alloc, rows })
    }

    /// The number of lanes, if it fits 32 bits, and else the greatest number that does.
    pub fn lane_count(&self) -> u32
        ensures { length self.now.rows.items < 4294967296 → result ≡ length self.now.rows.items }
    {
        u32::try_from(self.rows.len()).unwrap_or(u32::MAX)
    }

    /// The number of pieces of a lane's cell at a place; none where there is no such cell.
    pub fn piece_count(&self, lane: u32, place: usize) -> usize
        ensures { result ≡ piece_count (slice_get (cells_of self.now.rows.items lane) place) }
    {
        match self.cells(lane).get(place) {
            Some(cell) => cell.segments.len().saturating_add(1),
            None => 0,
        }
    }

    /// The cells of a lane, from the last block to the first.
    pub fn cells(&self, lane: u32) -> &[Cell]
        ensures { result.now ≡ cells_of self.now.rows.items lane }
    {
        match self.rows.as_slice().get(lane as usize) {
            Some(row) => row.cells.as_slice(),
            None => &[],
        }
    }

    /// The cell of a lane in a block, where it has one.
    pub fn cell(&self, lane: u32, block: u32) -> Option<&Cell>
        ensures { seen (option_copied result) ≡ rows_seen self.now.rows.items lane block }
    {
        match self.rows.as_slice().get(lane as usize) {
            Some(row) => row.cell(block),
            None => None,
        }
    }

    /// The cell of a lane in a block, where it has one. It is looked for at a place and behind it first.
    pub fn cell_near(&self, lane: u32, near: usize, block: u32) -> Option<&Cell>
        ensures { seen (option_copied result) ≡ rows_seen self.now.rows.items lane block }
    {
        match self.rows.as_slice().get(lane as usize) {
            Some(row) => row.cell_near(near, block),
            None => None,
        }
    }

    /// Whether a lane is live at the start of a block. Its cell is looked for at a place and behind it
    /// first.
    pub fn is_live_in(&self, lane: u32, near: usize, block: u32) -> bool
        ensures { result ≡ is_live (causes self.now.rows.items lane block 0) }
    {
        match self.cell_near(lane, near, block) {
            Some(cell) => cell.is_live(0),
            None => false,
        }
    }

    /// Whether the piece of a lane that an instruction begins is live.
    pub fn is_live_after(&self, order: &Order, lane: u32, block: u32, id: u32) -> bool
        ensures { AllRise order.now.slots self.now.rows.items → result ≡ is_live (causes self.now.rows.items lane block (piece_of order.now.slots (exit_rank order.now.slots id) (shapes self.now.rows.items lane block))) }
    {
        match self.cell(lane, block) {
            Some(cell) => cell.is_live(cell.piece_at(&order.slots, exit_rank(&order.slots, id))),
            None => false,
        }
    }
}

/// What is known of a function besides its text: the numbers of its lanes, the order of its
/// instructions, the ways between its blocks, and the pieces of its lanes.
#[derive(Drop)]
pub struct Table {
    pub lanes: LaneTable,
    pub order: Order,
    pub flow: Vec<BlockFlow>,
    pub rows: LaneRanges,
}

impl Table {
    ghost use Rattle.std.specs.Prelude.{Some};
    ghost use Rattle.std.specs.Ordering.{nat_cmp};
    ghost use Rattle.std.specs.BTreeMap.{get};
    ghost use Rattle.live_lanes.specs.Marks.{marked_at};
    ghost use Rattle.live_lanes.specs.Ends.{row_at};
    ghost use Rattle.live_lanes.specs.Lasting.{AllRise};

    /// Whether a lane is live at the point of this rank in a block.
    pub fn is_live_at(&self, lane: u32, block: u32, at: u128) -> bool
        ensures { AllRise self.now.order.slots self.now.rows.rows.items → result ≡ row_at self.now.order.slots self.now.rows.rows.items lane block at }
    {
        match self.rows.cell(lane, block) {
            Some(cell) => cell.is_live_at(&self.order.slots, at),
            None => false,
        }
    }

    /// Whether a lane is live at the start of the block of that number.
    pub fn is_live_in(&self, lane: u32, number: u32) -> bool
        ensures { result ≡ marked_at self.now.rows.rows.items (Some lane) (get nat_cmp self.now.order.positions number) }
    {
        match self.order.position(number) {
            Some(position) => self.rows.is_live_in(lane, 0, position),
            None => false,
        }
    }
}
