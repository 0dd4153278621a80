//! What leads to a piece: where its lane, or the lane that is moved to it, is live because it is.

ghost use Rattle.std.specs.Prelude.{◌≡◌, ◌++◌, true, map, OnOk, Some};
ghost use Rattle.std.specs.List.{list_any};
ghost use Rattle.mir_meaning.specs.Paths.{Among};
ghost use Rattle.live_lanes.specs.Table.{readings_in, moved_in, rises_from, seen_cell};
ghost use Rattle.live_lanes.specs.Entered.{rows_seen};
ghost use Rattle.live_lanes.specs.Lasting.{AllRise};
ghost use Rattle.live_edits.specs.Leading.{AreAlike, exit_beside, exit_needs, needs_before, move_needs, is_move};
ghost use Rattle.live_edits.specs.Pieces.{node_of, request_of, requests_of};
ghost use Rattle.live_edits.specs.Updated.{AreNeedsOf};

use crate::log::LoggedRows;
use crate::pieces::{Need, PieceSpot};
use live_lanes::compute::flow::{BlockFlow, predecessors, terminators};
use live_lanes::order::Order;
use live_lanes::row::{Cause, Cell, LaneUse, entry_rank, exit_rank};
use std::alloc::AllocError;

impl LoggedRows {
    /// Makes a list that of what leads to a piece: the exits of the blocks before its block, where it
    /// begins with that; else the lane that is moved where it begins, if it is live for the move's
    /// sake alone.
    pub fn find_needs(
        &self,
        order: &Order,
        flow: &[BlockFlow],
        spot: PieceSpot,
        needs: &mut Vec<Need>,
    ) -> Result<(), AllocError>
        ensures { OnOk result (AllRise order.now.slots self.now.rows.rows.items
            → AreNeedsOf order.now.slots flow.now self.now.rows.rows.items (node_of spot) needs.new.items) }
    {
        needs.clear();
        if spot.index == 0 {
            return self.add_exits_before(order, flow, spot, needs);
        }
        self.add_source(order, spot, needs)
    }

    /// Adds the exits of the blocks before a piece's, which begins with its block.
    fn add_exits_before(
        &self,
        order: &Order,
        flow: &[BlockFlow],
        spot: PieceSpot,
        needs: &mut Vec<Need>,
    ) -> Result<(), AllocError>
        ensures { OnOk result (AllRise order.now.slots self.now.rows.rows.items
            → AreAlike (requests_of needs.new.items) (requests_of needs.old.items ++ needs_before order.now.slots flow.now self.now.rows.rows.items spot.lane spot.block)) }
    {
        'predecessors: for before in predecessors(flow, spot.block) {
            let ids = terminators(flow, *before);
            self.add_exits(order, spot, *before, ids, needs)?;
        }
        Ok(())
    }

    /// Adds the exits of a block before a piece's.
    fn add_exits(
        &self,
        order: &Order,
        spot: PieceSpot,
        before: u32,
        terminators: &[u32],
        needs: &mut Vec<Need>,
    ) -> Result<(), AllocError>
        ensures { OnOk result (AllRise order.now.slots self.now.rows.rows.items
            → AreAlike (requests_of needs.new.items) (requests_of needs.old.items ++ exit_needs order.now.slots self.now.rows.rows.items spot.lane spot.block before terminators.now)) }
    {
        let cause = Cause::Follower(spot.block);
        let lane = spot.lane;
        let (near, found) = self.find(lane, spot.place_beside(before), before);
        let Some(cell) = found else {
            let spot = PieceSpot {
                lane,
                block: before,
                index: 0,
                near,
            };
            needs.push(Need { spot, cause })?;
            return Ok(());
        };
        let index = cell.segments.len();
        let spot = PieceSpot {
            lane,
            block: before,
            index,
            near,
        };
        needs.push(Need { spot, cause })?;
        if index == 0 {
            return Ok(());
        }
        add_terminator_exits(order, cell, Need { spot, cause }, terminators, needs)
    }

    /// Adds the lane that is moved where a piece begins, where it is read for the move's sake alone.
    fn add_source(
        &self,
        order: &Order,
        spot: PieceSpot,
        needs: &mut Vec<Need>,
    ) -> Result<(), AllocError>
        ensures { OnOk result (AllRise order.now.slots self.now.rows.rows.items
            → requests_of needs.new.items ≡ requests_of needs.old.items ++ move_needs order.now.slots self.now.rows.rows.items spot.lane spot.block (moved_in (rows_seen self.now.rows.rows.items spot.lane spot.block) spot.index)) }
    {
        if let Some((id, from)) = self.move_source(spot) {
            self.add_moved(order, spot, id, from, needs)?;
        }
        Ok(())
    }

    /// Adds the lane that an instruction moves where a piece begins, where it is read for the move's sake
    /// alone.
    fn add_moved(
        &self,
        order: &Order,
        spot: PieceSpot,
        id: u32,
        from: u32,
        needs: &mut Vec<Need>,
    ) -> Result<(), AllocError>
        ensures { OnOk result (AllRise order.now.slots self.now.rows.rows.items
            → requests_of needs.new.items ≡ requests_of needs.old.items ++ move_needs order.now.slots self.now.rows.rows.items spot.lane spot.block (Some (id, from))) }
    {
        let (near, found) = self.find(from, spot.near, spot.block);
        let Some(cell) = found else {
            return Ok(());
        };
        let index = cell.piece_at(&order.slots, entry_rank(&order.slots, id));
        if is_moved_into(readings_in(cell, index), id, spot.lane) {
            let source = PieceSpot {
                lane: from,
                block: spot.block,
                index,
                near,
            };
            needs.push(Need {
                spot: source,
                cause: Cause::Reading(id),
            })?;
        }
        Ok(())
    }

    /// The instruction that begins a piece by a move, and the lane that it moves.
    fn move_source(&self, spot: PieceSpot) -> Option<(u32, u32)>
        ensures { result ≡ moved_in (rows_seen self.now.rows.rows.items spot.lane spot.block) spot.index }
    {
        match self.rows.cell_near(spot.lane, spot.near, spot.block) {
            Some(cell) => cell.move_source(spot.index),
            None => None,
        }
    }
}

/// Whether one of these readings is that of an instruction, which moves it into a lane.
fn is_moved_into(readings: &[LaneUse], id: u32, into: u32) -> bool
    ensures { result ≡ list_any (is_move id into) readings.now }
{
    readings.iter().any(|reading| is_move(reading, id, into))
}

/// The readings of a piece of a cell, in order.
pub(crate) fn readings_in(cell: &Cell, index: usize) -> &[LaneUse]
    ensures { result.now ≡ readings_in (seen_cell cell.now) index }
{
    match cell.piece(index) {
        Some(piece) => piece.readings.as_slice(),
        None => &[],
    }
}

/// Adds the exits of terminators of a block, but for those that lie in its last piece, which is given.
fn add_terminator_exits(
    order: &Order,
    cell: &Cell,
    last: Need,
    terminators: &[u32],
    needs: &mut Vec<Need>,
) -> Result<(), AllocError>
    requires { Among (request_of last) (requests_of needs.old.items) }
    ensures { OnOk result (rises_from order.now.slots 0 (seen_cell cell.now).segments ≡ true
        → AreAlike (requests_of needs.new.items) (requests_of needs.old.items ++ map (exit_beside order.now.slots (seen_cell cell.now) (request_of last)) terminators.now)) }
{
    'terminators: for id in terminators {
        let index = cell.piece_at(&order.slots, exit_rank(&order.slots, *id));
        if index != last.spot.index {
            let spot = PieceSpot { index, ..last.spot };
            needs.push(Need { spot, ..last })?;
        }
    }
    Ok(())
}

/// Whether a reading is that of an instruction, which moves it into a lane.
fn is_move(reading: &LaneUse, id: u32, into: u32) -> bool
    ensures { result ≡ is_move id into reading.now }
{
    match reading.into {
        Some(lane) => reading.id == id && lane == into,
        None => false,
    }
}
