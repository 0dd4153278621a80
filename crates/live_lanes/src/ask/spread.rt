//! Where in the layout a range has points.

ghost use Rattle.std.specs.Prelude.{◌≡◌, ◌≢◌, ◌<◌, ◌↔◌, ℕ, true, Some, find, length, option_copied, reverse, slice_get, IfOk, IsTrue};
ghost use Rattle.std.specs.List.{list_any};
ghost use Rattle.mir_meaning.specs.Paths.{has};
ghost use Rattle.live_lanes.specs.Entered.{cells_of};
ghost use Rattle.live_lanes.specs.Extents.{cell_extents, extents_in};
ghost use Rattle.live_lanes.specs.Looks.{InOrder};
ghost use Rattle.live_lanes.specs.Ordered.{all_ids};
ghost use Rattle.live_lanes.specs.Tells.{TellsInstrs, touching_ids};
ghost use Rattle.live_lanes.specs.Touching.{FindsInstrs};
ghost use Rattle.live_lanes.specs.Spread.{BeginsAt, BeginsWithin, HasPoints, IsFirst, IsFirstNumber, IsInTwoBlocks, LaneBeginsAt, LaneHasPoints, has_points, cell_has_points, is_elsewhere, layout_number, lesser, number_at, IsWithin, number_before, number_of_first};

use crate::ask::extent::{Extent, extent_of};
use crate::live::LiveFunc;
use crate::row::{Cell, LaneRange};
use crate::table::{LaneRanges, Table};
use std::alloc::{AllocError, Global};

/// The first points of a lane in the block of a cell, if it has any.
fn first_extent(cell: &Cell) -> Option<Extent>
    ensures { result ≡ slice_get (cell_extents cell.now) 0 }
{
    match extent_of(cell, 0) {
        Some(extent) => Some(extent),
        None => extent_of(cell, 1),
    }
}

/// Whether a lane has points in the block of a cell.
fn has_points(cell: &Cell) -> bool
    ensures { result ≡ cell_has_points cell.now }
{
    first_extent(cell).is_some()
}

/// The lesser one of two positions, where there are such.
fn lesser_position(a: Option<u32>, b: Option<u32>) -> Option<u32>
    ensures { result ≡ lesser a b }
{
    match (a, b) {
        (Some(a), Some(b)) => Some(a.min(b)),
        (Some(a), None) => Some(a),
        (None, b) => b,
    }
}

/// The lesser one of two numbers, where there are such.
fn lesser_number(a: Option<u64>, b: Option<u64>) -> Option<u64>
    ensures { result ≡ lesser a b }
{
    match (a, b) {
        (Some(a), Some(b)) => Some(a.min(b)),
        (Some(a), None) => Some(a),
        (None, b) => b,
    }
}

impl LaneRange {
    /// The first cell, by the blocks, in which the lane has points.
    fn first_cell(&self) -> Option<&Cell>
        ensures { option_copied result ≡ find cell_has_points (reverse self.now.cells.items) }
    {
        self.cells.iter().rev().find(|cell| has_points(*cell))
    }

    /// The position of the first block in which the lane has points.
    fn first_block(&self) -> Option<u32>
        ensures { IsFirst (λ b. has_points self.now.cells.items b ≡ true) result }
    {
        match self.first_cell() {
            Some(cell) => Some(cell.block),
            None => None,
        }
    }

    /// Whether a cell of another block than the one at a position has points.
    fn has_other_cell(&self, block: u32) -> bool
        ensures { result ≡ list_any (is_elsewhere block) self.now.cells.items }
    {
        self.cells
            .iter()
            .any(|cell| cell.block != block && has_points(cell))
    }

    /// Whether the lane has points in another block than the one at a position.
    fn is_elsewhere(&self, block: u32) -> bool
        ensures { IsTrue result ↔ ((b : ℕ) × (b ≢ block) × (has_points self.now.cells.items b ≡ true)) }
    {
        self.has_other_cell(block)
    }
}

impl LaneRanges {
    /// The position of the first block in which a lane has points.
    fn first_block(&self, lane: u32) -> Option<u32>
        ensures { IsFirst (λ b. has_points (cells_of self.now.rows.items lane) b ≡ true) result }
    {
        match self.rows.as_slice().get(lane as usize) {
            Some(row) => row.first_block(),
            None => None,
        }
    }

    /// Whether a lane has points in another block than the one at a position.
    fn is_elsewhere(&self, lane: u32, block: u32) -> bool
        ensures { IsTrue result ↔ ((b : ℕ) × (b ≢ block) × (has_points (cells_of self.now.rows.items lane) b ≡ true)) }
    {
        match self.rows.as_slice().get(lane as usize) {
            Some(row) => row.is_elsewhere(block),
            None => false,
        }
    }
}

impl Table {
    /// The first points of a lane in a block, if it has any.
    fn first_extent(&self, lane: u32, block: u32) -> Option<Extent>
        ensures { result ≡ slice_get (extents_in self.now lane block) 0 }
    {
        match self.rows.cell(lane, block) {
            Some(cell) => first_extent(cell),
            None => None,
        }
    }
}

impl LiveFunc {
    /// Whether a range has points in two or more blocks.
    pub fn is_in_two_blocks(&self, v: u32) -> bool
        ensures { IsTrue result ↔ IsInTwoBlocks self.now.table v }
    {
        match self.first_block(v) {
            Some(first) => self.is_in_another(v, first),
            None => false,
        }
    }

    /// Whether a range has points in another block than the one at a position.
    fn is_in_another(&self, v: u32, block: u32) -> bool
        ensures { IsTrue result ↔ ((b : ℕ) × (b ≢ block) × HasPoints self.now.table v b) }
    {
        'lanes: for k in 0..self.lane_count(v) {
            if self.is_lane_in_another(v, k, block) {
                return true;
            }
        }
        false
    }

    fn is_lane_in_another(&self, v: u32, k: u32, block: u32) -> bool
        ensures { IsTrue result ↔ ((b : ℕ) × (b ≢ block) × LaneHasPoints self.now.table v k b) }
    {
        match self.lane_of(v, k as usize) {
            Some(lane) => self.table.rows.is_elsewhere(lane, block),
            None => false,
        }
    }

    /// The position of the first block in which some lane of a range has points.
    fn first_block(&self, v: u32) -> Option<u32>
        ensures { IsFirst (HasPoints self.now.table v) result }
    {
        let mut first = None;
        'lanes: for k in 0..self.lane_count(v) {
            first = lesser_position(first, self.first_block_of(v, k));
        }
        first
    }

    fn first_block_of(&self, v: u32, k: u32) -> Option<u32>
        ensures { IsFirst (LaneHasPoints self.now.table v k) result }
    {
        match self.lane_of(v, k as usize) {
            Some(lane) => self.table.rows.first_block(lane),
            None => None,
        }
    }

    /// The number in layout, from 0 over the function, of the instruction of a range's first point.
    /// A block's start counts as its first instruction, or the next one in layout. A range without
    /// points has that of the first instruction that touches it.
    pub fn first_number(&self, alloc: Global, v: u32) -> Result<u64, AllocError>
        ensures { InOrder self.now.table → TellsInstrs self.now.func self.now.table → BeginsWithin self.now.table self.now.func.blocks
            → length (all_ids self.now.func.blocks) < 18446744073709551616 → IfOk result (IsFirstNumber self.now.table self.now.func v) }
    {
        match self.first_block(v) {
            Some(block) => Ok(self.first_number_in(v, block)),
            None => self.first_touch(alloc, v),
        }
    }

    /// The number of the first instruction that touches a range; 0 where there is none.
    fn first_touch(&self, alloc: Global, v: u32) -> Result<u64, AllocError>
        ensures { TellsInstrs self.now.func self.now.table → length (all_ids self.now.func.blocks) < 18446744073709551616
            → IfOk result (λ n. n ≡ number_of_first self.now.func.blocks (touching_ids self.now.func v)) }
    {
        let touched = self.touched(alloc, v)?;
        Ok(self.number_of_first(touched.as_slice()))
    }

    fn number_of_first(&self, ids: &[u32]) -> u64
        ensures { FindsInstrs self.now.table self.now.func.blocks → ((id : ℕ) → has id ids.now ≡ true → has id (all_ids self.now.func.blocks) ≡ true)
            → length (all_ids self.now.func.blocks) < 18446744073709551616 → result ≡ number_of_first self.now.func.blocks ids.now }
    {
        match ids {
            [id, ..] => self.number_of(*id),
            [] => 0,
        }
    }

    /// The least number at which the points of a range in a block begin.
    fn first_number_in(&self, v: u32, block: u32) -> u64
        ensures { InOrder self.now.table → FindsInstrs self.now.table self.now.func.blocks → BeginsWithin self.now.table self.now.func.blocks
            → length (all_ids self.now.func.blocks) < 18446744073709551616 → HasPoints self.now.table v block → IsFirst (BeginsAt self.now.table self.now.func.blocks v block) (Some result) }
    {
        let start = self.number_of_block(block);
        let mut first = None;
        'lanes: for k in 0..self.lane_count(v) {
            first = lesser_number(first, self.first_number_of(v, k, block, start));
        }
        match first {
            Some(number) => number,
            None => 0,
        }
    }

    fn first_number_of(&self, v: u32, k: u32, block: u32, start: u64) -> Option<u64>
        ensures { InOrder self.now.table → FindsInstrs self.now.table self.now.func.blocks → BeginsWithin self.now.table self.now.func.blocks
            → length (all_ids self.now.func.blocks) < 18446744073709551616 → start ≡ number_before self.now.func.blocks block → IsFirst (LaneBeginsAt self.now.table self.now.func.blocks v k block) result }
    {
        let Some(lane) = self.lane_of(v, k as usize) else {
            return None;
        };
        match self.table.first_extent(lane, block) {
            Some(extent) => Some(self.number_at(extent.start, start)),
            None => None,
        }
    }

    /// The number of an instruction of a block; none has that of the block's start.
    fn number_at(&self, id: Option<u32>, start: u64) -> u64
        ensures { FindsInstrs self.now.table self.now.func.blocks → length (all_ids self.now.func.blocks) < 18446744073709551616
            → (p : ℕ) → start ≡ number_before self.now.func.blocks p → IsWithin self.now.func.blocks p id → result ≡ number_at self.now.func.blocks p id }
    {
        match id {
            None => start,
            Some(id) => start.saturating_add(self.place_of(id) as u64),
        }
    }

    /// The number in layout of the first instruction of the block at a position.
    pub fn number_of_block(&self, position: u32) -> u64
        ensures { number_before self.now.func.blocks position < 18446744073709551616 → result ≡ number_before self.now.func.blocks position }
    {
        let blocks = self.func.blocks.as_slice();
        let end = blocks.len().min(position as usize);
        let before = &blocks[..end];
        let mut number = 0u64;
        'each: for block in before {
            number = number.saturating_add(block.instrs.len() as u64);
        }
        number
    }

    /// The number of an instruction in layout, from 0 over the function.
    pub fn number_of(&self, id: u32) -> u64
        ensures { FindsInstrs self.now.table self.now.func.blocks → has id (all_ids self.now.func.blocks) ≡ true
            → length (all_ids self.now.func.blocks) < 18446744073709551616 → result ≡ layout_number self.now.func.blocks id }
    {
        self.number_of_block(self.position_of(id))
            .saturating_add(self.place_of(id) as u64)
    }
}
