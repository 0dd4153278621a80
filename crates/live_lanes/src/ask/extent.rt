//! The points at which a lane is live or occupied, block by block, for the matrix of assigned
//! ranges.

ghost use Rattle.std.specs.Prelude.{◌≡◌, ◌≤◌, ℕ, true, Some, IsTrue, find, length, slice_get, option_map};
ghost use Rattle.std.specs.Ordering.{nat_cmp};
ghost use Rattle.std.specs.BTreeMap.{get};
ghost use Rattle.instr_effects.specs.Numbered.{number_in, IsTable};
ghost use Rattle.instr_effects.specs.declared.owner.Owner.TheVariants as owners;
ghost use Rattle.live_lanes.specs.Table.{entry_rank, exit_rank, rises_from, seen_cell};
ghost use Rattle.live_lanes.specs.Entered.{cells_of, piece_count};
ghost use Rattle.live_lanes.specs.Looks.{InOrder};
ghost use Rattle.live_lanes.specs.Extents.{lanes_count, range_lane, segment_extent, extent_in, start_in, begins_with, extents_in, cell_extents, first_rank, last_rank, stretch_of, begun_by, is_met_in, is_met};

use crate::live::LiveFunc;
use crate::row::{Cell, DefPiece, PieceEnd, entry_rank, exit_rank, rank};
use instr_effects::lanes::LaneTable;
use instr_effects::owner::Owner;
use instr_effects::row::LaneSpan;
use slot_index::Slots;

/// A piece that was changed, or came or went.
#[derive(Clone, Copy, PartialEq, Eq)]
pub struct ChangedPiece {
    /// The lane.
    pub lane: u32,
    /// The block's position in the layout.
    pub block: u32,
    /// The instruction that begins the piece; none for the one that begins with the block.
    pub start: Option<u32>,
}

/// Points of a block in a row, by numbers that rise along it: the first and the last.
#[derive(Clone, Copy, PartialEq, Eq)]
pub struct Stretch {
    /// The number of the first point.
    pub first: u128,
    /// The number of the last point.
    pub last: u128,
}

/// Points of a block in a row, by the instructions at their ends, so that they stay right when
/// instructions come and go in between.
#[derive(Clone, Copy, PartialEq, Eq)]
pub struct Extent {
    /// The instruction that writes the lane; none where the points begin with the block.
    pub start: Option<u32>,
    early: bool,
    end: PieceEnd,
}

impl Extent {
    /// The number of its first point.
    pub fn first(&self, slots: &Slots) -> u128
        ensures { result ≡ first_rank slots.now self.now }
    {
        match self.start {
            None => 0,
            Some(id) if self.early => entry_rank(slots, id),
            Some(id) => exit_rank(slots, id),
        }
    }

    /// The number of its last point.
    pub fn last(&self, slots: &Slots) -> u128
        ensures { result ≡ last_rank slots.now self.now }
    {
        let last = rank(slots, self.end);
        match self.start {
            None => last,
            Some(id) => last.max(exit_rank(slots, id)),
        }
    }

    /// Its points.
    pub fn stretch(&self, slots: &Slots) -> Stretch
        ensures { result ≡ stretch_of slots.now self.now }
    {
        Stretch {
            first: self.first(slots),
            last: self.last(slots),
        }
    }
}

/// The points of a piece that begins with a writing.
fn segment_extent(segment: &DefPiece) -> Extent
    ensures { result ≡ segment_extent segment.now }
{
    Extent {
        start: Some(segment.start),
        early: segment.early,
        end: segment.piece.end,
    }
}

/// The points of a piece of a cell, if it has any.
pub(crate) fn extent_of(cell: &Cell, index: usize) -> Option<Extent>
    ensures { result ≡ extent_in (Some cell.now) index }
{
    if index == 0 {
        if cell.first.end == PieceEnd::Never {
            return None;
        }
        return Some(Extent {
            start: None,
            early: false,
            end: cell.first.end,
        });
    }
    Some(segment_extent(cell.segments.get(index - 1)?))
}

/// The instruction that begins a piece; none for the one that begins with the block.
fn start_of(cell: &Cell, index: usize) -> Option<u32>
    ensures { result ≡ start_in (Some cell.now) index }
{
    if index == 0 {
        return None;
    }
    match cell.segments.get(index - 1) {
        Some(segment) => Some(segment.start),
        None => None,
    }
}

/// The number of pieces of a cell that begin at or before a point.
fn begun_by(slots: &Slots, cell: &Cell, at: u128) -> usize
    ensures { rises_from slots.now 0 (seen_cell cell.now).segments ≡ true → result ≡ begun_by slots.now at (seen_cell cell.now).segments }
{
    cell.segments.as_slice().partition_point(|s| {
        let first = if s.early {
            entry_rank(slots, s.start)
        } else {
            exit_rank(slots, s.start)
        };
        first <= at
    })
}

/// Whether a cell has a point in a stretch.
fn meets(slots: &Slots, cell: &Cell, at: Stretch) -> bool
    ensures { rises_from slots.now 0 (seen_cell cell.now).segments ≡ true → at.first ≤ at.last → result ≡ is_met_in slots.now (seen_cell cell.now) at }
{
    match extent_of(cell, begun_by(slots, cell, at.last)) {
        Some(extent) => extent.last(slots) >= at.first,
        None => false,
    }
}

/// The points of the piece of a cell that an instruction begins, or that begins with the block.
fn extent_from(slots: &Slots, cell: &Cell, start: Option<u32>) -> Option<Extent>
    ensures { IsTrue (rises_from slots.now 0 (seen_cell cell.now).segments) → result ≡ find (begins_with start) (cell_extents cell.now) }
{
    let Some(id) = start else {
        return extent_of(cell, 0);
    };
    match cell.segment_of(slots, id) {
        Some(segment) => Some(segment_extent(segment)),
        None => None,
    }
}

/// Whose lane a number is.
fn owner_of(lanes: &LaneTable, lane: u32) -> Option<Owner>
    ensures { result ≡ slice_get lanes.now.owners.items lane }
{
    lanes.owners.get(lane as usize).copied()
}

/// The range and the number of the lane in it, where the owner of a number is a range's lane.
fn range_lane(owner: Option<Owner>) -> Option<(u32, u32)>
    ensures { result ≡ range_lane owner }
{
    match owner {
        Some(Owner::Range(v, k)) => Some((v, k)),
        _ => None,
    }
}

impl LiveFunc {
    /// The order of the instructions.
    pub fn slots(&self) -> &Slots
        ensures { result.now ≡ self.now.table.order.slots }
    {
        &self.table.order.slots
    }

    /// The number of a lane of a range.
    pub fn lane_of(&self, v: u32, k: usize) -> Option<u32>
        ensures { result ≡ number_in self.now.table.lanes (owners.Range v k) }
    {
        match u32::try_from(k) {
            Ok(k) => self.table.lanes.of_range(v).lane(k),
            Err(_) => None,
        }
    }

    /// The number of lanes of a range.
    pub fn lane_count(&self, v: u32) -> u32
        ensures { result ≡ lanes_count (slice_get self.now.table.lanes.ranges.items v) }
    {
        self.table.lanes.of_range(v).count
    }

    /// The lanes of a slot, where the slot has numbers for them: where it is stored to or reloaded.
    pub fn lanes_of_slot(&self, s: u32) -> Option<LaneSpan>
        ensures { result ≡ get nat_cmp self.now.table.lanes.slots s }
    {
        self.table.lanes.slots.get(&s).copied()
    }

    /// The range that a lane belongs to, and the number of the lane in it.
    pub fn range_of(&self, lane: u32) -> Option<(u32, u32)>
        ensures owner { result ≡ range_lane (slice_get self.now.table.lanes.owners.items lane) }
        ensures numbered { IsTable self.now.table.lanes → (v k : ℕ) → number_in self.now.table.lanes (owners.Range v k) ≡ Some lane → result ≡ Some (v, k) }
    {
        range_lane(owner_of(&self.table.lanes, lane))
    }

    /// The number of blocks in which a lane is named or live.
    pub fn cell_count(&self, lane: u32) -> usize
        ensures { result ≡ length (cells_of self.now.table.rows.rows.items lane) }
    {
        self.table.rows.cells(lane).len()
    }

    /// The position of the block of one of a lane's cells, the last one first: a lane has one where it
    /// is named or live, and perhaps in blocks between.
    pub fn cell_block(&self, lane: u32, place: usize) -> Option<u32>
        ensures { result ≡ option_map (λ c. c.block) (slice_get (cells_of self.now.table.rows.rows.items lane) place) }
    {
        match self.table.rows.cells(lane).get(place) {
            Some(cell) => Some(cell.block),
            None => None,
        }
    }

    /// The number of pieces of a lane in one of these blocks.
    pub fn piece_count(&self, lane: u32, place: usize) -> usize
        ensures { result ≡ piece_count (slice_get (cells_of self.now.table.rows.rows.items lane) place) }
    {
        self.table.rows.piece_count(lane, place)
    }

    /// The points of a piece of a lane in one of these blocks, if it has any.
    pub fn extent(&self, lane: u32, place: usize, index: usize) -> Option<Extent>
        ensures { result ≡ extent_in (slice_get (cells_of self.now.table.rows.rows.items lane) place) index }
    {
        extent_of(self.table.rows.cells(lane).get(place)?, index)
    }

    /// The instruction that begins a piece of a lane in one of these blocks; none for the one that
    /// begins with the block.
    pub fn start_of(&self, lane: u32, place: usize, index: usize) -> Option<u32>
        ensures { result ≡ start_in (slice_get (cells_of self.now.table.rows.rows.items lane) place) index }
    {
        start_of(self.table.rows.cells(lane).get(place)?, index)
    }

    /// The points of the piece of a lane that an instruction begins in the block at a position, or
    /// that begins with the block.
    pub fn extent_from(&self, lane: u32, block: u32, start: Option<u32>) -> Option<Extent>
        ensures { InOrder self.now.table → result ≡ find (begins_with start) (extents_in self.now.table lane block) }
    {
        let cell = self.table.rows.cell(lane, block)?;
        extent_from(&self.table.order.slots, cell, start)
    }

    /// Whether a lane is live or occupied at one of these points of the block at a position.
    pub fn meets(&self, lane: u32, block: u32, at: Stretch) -> bool
        ensures { InOrder self.now.table → at.first ≤ at.last → result ≡ is_met self.now.table lane block at }
    {
        match self.table.rows.cell(lane, block) {
            Some(cell) => meets(self.slots(), cell, at),
            None => false,
        }
    }

    /// The number of the point at the entry of an instruction.
    pub fn entry_of(&self, id: u32) -> u128
        ensures { result ≡ entry_rank self.now.table.order.slots id }
    {
        entry_rank(self.slots(), id)
    }

    /// The number of the point at the exit of an instruction.
    pub fn exit_of(&self, id: u32) -> u128
        ensures { result ≡ exit_rank self.now.table.order.slots id }
    {
        exit_rank(self.slots(), id)
    }
}
