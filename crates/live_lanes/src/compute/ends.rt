//! Up to where a lane is live in each live piece: the last reading or exit that counts.

ghost use Rattle.std.specs.Prelude.{◌≡◌, ◌<◌, ℕ, true, length, Some, slice_get};
ghost use Rattle.live_lanes.specs.Entered.{cells_of, causes, shape};
ghost use Rattle.live_lanes.specs.Growth.{KeepsBlocks, row_blocks};
ghost use Rattle.live_lanes.specs.Lasting.{AllRise, shapes, last_with, reading_counts, exit_end, leaves_in, has_live, leads_on, last_exit, last_entry, later, live_end, cell_end, SetsEnd, Lasts, GivesEnds};
ghost use Rattle.live_lanes.specs.Marks.{KeepsCauses};
ghost use Rattle.live_lanes.specs.Table.{rises_from, seen_cell};

use crate::compute::flow::{BlockFlow, successors, terminators};
use crate::order::Order;
use crate::row::{Cause, Cell, LaneUse, Piece, PieceEnd, exit_rank, is_never, rank};
use crate::table::LaneRanges;
use slot_index::Slots;

/// A piece of a lane, with where it stands.
#[derive(Clone, Copy)]
pub struct PieceAt<'a> {
    /// The lane.
    pub lane: u32,
    /// The place of the cell among those of the lane.
    pub place: usize,
    /// The cell.
    pub cell: &'a Cell,
    /// The place of the piece among those of the cell.
    pub index: usize,
    /// The piece.
    pub piece: &'a Piece,
}

/// The later of two ends.
fn later(slots: &Slots, a: PieceEnd, b: PieceEnd) -> PieceEnd
    ensures { result ≡ later slots.now a b }
{
    if rank(slots, a) < rank(slots, b) {
        b
    } else {
        a
    }
}

/// Whether the exit of an instruction lies in a piece.
fn leaves_in(slots: &Slots, cell: &Cell, index: usize, id: u32) -> bool
    ensures { rises_from slots.now 0 (seen_cell cell.now).segments ≡ true → result ≡ leaves_in slots.now (shape (seen_cell cell.now)) index id }
{
    cell.piece_at(slots, exit_rank(slots, id)) == index
}

/// The exit of the last of the terminators that lie in a piece.
fn last_exit(slots: &Slots, cell: &Cell, index: usize, terminators: &[u32]) -> PieceEnd
    ensures { rises_from slots.now 0 (seen_cell cell.now).segments ≡ true → result ≡ exit_end (last_with (leaves_in slots.now (shape (seen_cell cell.now)) index) terminators.now) }
{
    'terminators: for k in (0..terminators.len()).rev() {
        let id = terminators[k];
        if leaves_in(slots, cell, index, id) {
            return PieceEnd::Exit(id);
        }
    }
    PieceEnd::Never
}

impl LaneRanges {
    /// Whether a lane is live at the start of one of these blocks. Their cells are looked for at a
    /// place and behind it first.
    fn has_live(&self, lane: u32, near: usize, blocks: &[u32]) -> bool
        ensures { result ≡ has_live (causes self.now.rows.items) lane blocks.now }
    {
        blocks.iter().any(|next| self.is_live_in(lane, near, *next))
    }

    /// Whether a reading counts: what it is moved into is live behind the instruction.
    fn counts(&self, order: &Order, block: u32, reading: &LaneUse) -> bool
        ensures { AllRise order.now.slots self.now.rows.items → result ≡ reading_counts order.now.slots (causes self.now.rows.items) (shapes self.now.rows.items) block reading.now }
    {
        match reading.into {
            None => true,
            Some(lane) => self.is_live_after(order, lane, block, reading.id),
        }
    }

    /// The entry at the last of these readings that counts.
    fn last_entry(&self, order: &Order, block: u32, readings: &[LaneUse]) -> PieceEnd
        ensures { AllRise order.now.slots self.now.rows.items → result ≡ last_entry order.now.slots (causes self.now.rows.items) (shapes self.now.rows.items) block readings.now }
    {
        'readings: for k in (0..readings.len()).rev() {
            let reading = &readings[k];
            if self.counts(order, block, reading) {
                return PieceEnd::Entry(reading.id);
            }
        }
        PieceEnd::Never
    }

    /// Whether a piece with this cause is live because the lane is at the start of a block that
    /// follows, or a lane is live at the start of one anyway. Its own cell stands at a place.
    fn leads_on(
        &self,
        flow: &[BlockFlow],
        lane: u32,
        place: usize,
        block: u32,
        cause: Cause,
    ) -> bool
        ensures { result ≡ leads_on flow.now (causes self.now.rows.items) lane block cause }
    {
        match cause {
            Cause::Follower(_) => true,
            _ => {
                // (the block that follows in layout mostly has the cell before)
                let near = place.saturating_sub(1);
                self.has_live(lane, near, successors(flow, block))
            }
        }
    }

    /// The last exit of a piece from which a path leads to a block where the lane is live.
    fn exit_of(&self, order: &Order, flow: &[BlockFlow], at: &PieceAt) -> PieceEnd
        ensures { rises_from order.now.slots 0 (seen_cell at.now.cell.now).segments ≡ true
            → result ≡ last_exit order.now.slots flow.now (causes self.now.rows.items) (shape (seen_cell at.now.cell.now)) at.now.lane at.now.cell.now.block at.now.index at.now.piece.now.cause }
    {
        let cell = at.cell;
        let exit = if at.index == cell.segments.len() {
            PieceEnd::Last
        } else {
            last_exit(&order.slots, cell, at.index, terminators(flow, cell.block))
        };
        if is_never(exit) || !self.leads_on(flow, at.lane, at.place, cell.block, at.piece.cause) {
            return PieceEnd::Never;
        }
        exit
    }

    /// Up to where the lane is live in a live piece.
    pub fn end_of(&self, order: &Order, flow: &[BlockFlow], at: &PieceAt) -> PieceEnd
        ensures { AllRise order.now.slots self.now.rows.items → rises_from order.now.slots 0 (seen_cell at.now.cell.now).segments ≡ true
            → result ≡ live_end order.now.slots flow.now (causes self.now.rows.items) (shapes self.now.rows.items) (shape (seen_cell at.now.cell.now)) at.now.lane at.now.cell.now.block at.now.index at.now.piece.now.cause at.now.piece.now.readings.items }
    {
        let cell = at.cell;
        if cell.is_read_last && at.index == cell.segments.len() {
            return PieceEnd::Last;
        }
        let exit = self.exit_of(order, flow, at);
        let entry = self.last_entry(order, cell.block, at.piece.readings.as_slice());
        later(&order.slots, exit, entry)
    }

    /// The end of a piece of a lane's cell at a place.
    fn end_at(
        &self,
        order: &Order,
        flow: &[BlockFlow],
        lane: u32,
        place: usize,
        index: usize,
    ) -> PieceEnd
        ensures { AllRise order.now.slots self.now.rows.items
            → result ≡ cell_end order.now.slots flow.now (causes self.now.rows.items) (shapes self.now.rows.items) lane index (slice_get (cells_of self.now.rows.items lane) place) }
    {
        let Some(cell) = self.cells(lane).get(place) else {
            return PieceEnd::Never;
        };
        let Some(piece) = cell.piece(index) else {
            return PieceEnd::Never;
        };
        if !piece.is_live() {
            return PieceEnd::Never;
        }
        let at = PieceAt {
            lane,
            place,
            cell,
            index,
            piece,
        };
        self.end_of(order, flow, &at)
    }

    fn set_end(&mut self, lane: u32, place: usize, index: usize, end: PieceEnd)
        ensures keeps { KeepsCauses self.old.rows.items self.new.rows.items }
        ensures blocks { KeepsBlocks self.old.rows.items self.new.rows.items }
        ensures set { SetsEnd self.old.rows.items self.new.rows.items lane place index end }
    {
        let at = lane as usize;
        if at < self.rows.len() {
            self.rows[at].set_end(place, index, end);
        }
    }

    fn end_cell(&mut self, order: &Order, flow: &[BlockFlow], lane: u32, place: usize)
        ensures keeps { KeepsCauses self.old.rows.items self.new.rows.items }
        ensures blocks { KeepsBlocks self.old.rows.items self.new.rows.items }
        ensures ended { AllRise order.now.slots self.old.rows.items
            → GivesEnds order.now.slots flow.now self.old.rows.items self.new.rows.items (λ l b. (l ≡ lane) × (slice_get (row_blocks self.old.rows.items lane) place ≡ Some b)) }
    {
        'pieces: for index in 0..self.piece_count(lane, place) {
            let end = self.end_at(order, flow, lane, place, index);
            self.set_end(lane, place, index, end);
        }
    }

    fn end_row(&mut self, order: &Order, flow: &[BlockFlow], lane: u32)
        ensures keeps { KeepsCauses self.old.rows.items self.new.rows.items }
        ensures ended { AllRise order.now.slots self.old.rows.items
            → GivesEnds order.now.slots flow.now self.old.rows.items self.new.rows.items (λ l b. l ≡ lane) }
    {
        'cells: for place in 0..self.cells(lane).len() {
            self.end_cell(order, flow, lane, place);
        }
    }

    /// Gives each piece its end.
    pub fn end_all(&mut self, order: &Order, flow: &[BlockFlow])
        ensures keeps { KeepsCauses self.old.rows.items self.new.rows.items }
        ensures ended { AllRise order.now.slots self.old.rows.items → length self.old.rows.items < 4294967296
            → (l b n : ℕ) → Lasts order.now.slots flow.now self.old.rows.items self.new.rows.items l b n }
    {
        'rows: for lane in 0..self.lane_count() {
            self.end_row(order, flow, lane);
        }
    }
}
