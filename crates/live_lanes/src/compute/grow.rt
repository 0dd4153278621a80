//! Which pieces are live: those with a reading that needs no other lane, and all that lead to a
//! live one, the nearest first.

ghost use Rattle.std.specs.Prelude.{◌≡◌, ◌<◌, length, IsTrue, OnOk, IfOk};
ghost use Rattle.live_lanes.specs.Table.{rises_from, end_rank, moved_in};
ghost use Rattle.live_lanes.specs.Entered.{rows_seen};
ghost use Rattle.live_lanes.specs.Growth.{Raised, RaisesExits, RaisesPredecessors, RaisesSources, RaisesPiece, RaisesCell, RaisesRow, RaisesAll, KeepsBlocks, GrowsAll};

use crate::compute::flow::{BlockFlow, predecessors, terminators};
use crate::order::Order;
use crate::row::{Cause, PieceEnd, rank};
use crate::table::{LaneRanges, PieceSpot};
use std::alloc::{AllocError, Global};

/// Where a lane may end, in a block.
#[derive(Clone, Copy)]
struct LaneEnd {
    lane: u32,
    block: u32,
    end: PieceEnd,
}

/// A way of control from one block into another.
#[derive(Clone, Copy)]
struct FlowEdge {
    from: u32,
    to: u32,
}

impl LaneRanges {
    /// Makes live a piece of a lane, by the place of its cell, where it needs no other lane, and
    /// adds it to a list.
    fn raise_piece(
        &mut self,
        lane: u32,
        place: usize,
        index: usize,
        risen: &mut Vec<PieceSpot>,
    ) -> Result<(), AllocError>
        ensures raised { OnOk result (RaisesPiece self.old.rows.items self.new.rows.items lane place index risen.old.items risen.new.items) }
        ensures blocks { OnOk result (KeepsBlocks self.old.rows.items self.new.rows.items) }
    {
        let at = lane as usize;
        if at >= self.rows.len() {
            return Ok(());
        }
        if let Some(block) = self.rows[at].raise_certain(place, index) {
            risen.push(PieceSpot { lane, block, index })?;
        }
        Ok(())
    }

    /// Makes live the pieces of a lane's cell that need no other lane, and lists them.
    fn raise_cell(
        &mut self,
        lane: u32,
        place: usize,
        risen: &mut Vec<PieceSpot>,
    ) -> Result<(), AllocError>
        ensures raised { OnOk result (RaisesCell self.old.rows.items self.new.rows.items lane place risen.old.items risen.new.items) }
        ensures blocks { OnOk result (KeepsBlocks self.old.rows.items self.new.rows.items) }
    {
        'pieces: for index in 0..self.piece_count(lane, place) {
            self.raise_piece(lane, place, index, risen)?;
        }
        Ok(())
    }

    /// Makes live the pieces of a lane that need no other lane, and lists them.
    fn raise_row(&mut self, lane: u32, risen: &mut Vec<PieceSpot>) -> Result<(), AllocError>
        ensures { OnOk result (RaisesRow self.old.rows.items self.new.rows.items lane risen.old.items risen.new.items) }
    {
        'places: for place in 0..self.cells(lane).len() {
            self.raise_cell(lane, place, risen)?;
        }
        Ok(())
    }

    /// Makes live the pieces that need no other lane, and lists them.
    fn raise_certain(&mut self) -> Result<Vec<PieceSpot>, AllocError>
        ensures { IfOk result (λ risen. RaisesAll self.old.rows.items self.new.rows.items risen.items) }
    {
        let mut risen = Vec::new(self.alloc);
        'lanes: for lane in 0..self.lane_count() {
            self.raise_row(lane, &mut risen)?;
        }
        Ok(risen)
    }

    /// Makes live the piece of a lane that an end lies in, where it isn't, and adds it to a list.
    fn raise(
        &mut self,
        order: &Order,
        until: LaneEnd,
        cause: Cause,
        risen: &mut Vec<PieceSpot>,
    ) -> Result<(), AllocError>
        ensures { OnOk result (until.lane < length self.old.rows.items
            → IsTrue (rises_from order.now.slots 0 (rows_seen self.old.rows.items until.lane until.block).segments)
            → Raised order.now.slots self.old.rows.items self.new.rows.items until.lane until.block (end_rank order.now.slots until.end) cause risen.old.items risen.new.items) }
    {
        let alloc = self.alloc;
        let LaneEnd { lane, block, end } = until;
        let at = lane as usize;
        if at >= self.rows.len() {
            return Ok(());
        }
        let point = rank(&order.slots, end);
        if let Some(index) = self.rows[at].raise(alloc, &order.slots, block, point, cause)? {
            risen.push(PieceSpot { lane, block, index })?;
        }
        Ok(())
    }

    /// A lane is live at the start of a block: it is live at the exits of a block before that one.
    fn raise_exits(
        &mut self,
        order: &Order,
        lane: u32,
        edge: FlowEdge,
        terminators: &[u32],
        risen: &mut Vec<PieceSpot>,
    ) -> Result<(), AllocError>
        ensures { OnOk result (RaisesExits order.now.slots self.old.rows.items self.new.rows.items lane edge.from edge.to terminators.now risen.old.items risen.new.items) }
    {
        let cause = Cause::Follower(edge.to);
        let block = edge.from;
        let last = LaneEnd {
            lane,
            block,
            end: PieceEnd::Last,
        };
        self.raise(order, last, cause, risen)?;
        'terminators: for id in terminators {
            let exit = LaneEnd {
                lane,
                block,
                end: PieceEnd::Exit(*id),
            };
            self.raise(order, exit, cause, risen)?;
        }
        Ok(())
    }

    /// Makes live what leads to a live piece that begins with its block.
    fn raise_predecessors(
        &mut self,
        order: &Order,
        flow: &[BlockFlow],
        piece: PieceSpot,
        risen: &mut Vec<PieceSpot>,
    ) -> Result<(), AllocError>
        ensures { OnOk result (RaisesPredecessors order.now.slots flow.now self.old.rows.items self.new.rows.items piece.lane piece.block risen.old.items risen.new.items) }
    {
        'predecessors: for before in predecessors(flow, piece.block) {
            let ids = terminators(flow, *before);
            let edge = FlowEdge {
                from: *before,
                to: piece.block,
            };
            self.raise_exits(order, piece.lane, edge, ids, risen)?;
        }
        Ok(())
    }

    /// The instruction that begins a piece by a move, and the lane that it moves.
    fn move_source(&self, piece: PieceSpot) -> Option<(u32, u32)>
        ensures { result ≡ moved_in (rows_seen self.now.rows.items piece.lane piece.block) piece.index }
    {
        match self.cell(piece.lane, piece.block) {
            Some(cell) => cell.move_source(piece.index),
            None => None,
        }
    }

    /// Makes live what leads to a live piece.
    fn raise_sources(
        &mut self,
        order: &Order,
        flow: &[BlockFlow],
        piece: PieceSpot,
        risen: &mut Vec<PieceSpot>,
    ) -> Result<(), AllocError>
        ensures { OnOk result (RaisesSources order.now.slots flow.now self.old.rows.items self.new.rows.items piece risen.old.items risen.new.items) }
    {
        if piece.index == 0 {
            return self.raise_predecessors(order, flow, piece, risen);
        }
        match self.move_source(piece) {
            Some((id, from)) => {
                let entry = LaneEnd {
                    lane: from,
                    block: piece.block,
                    end: PieceEnd::Entry(id),
                };
                self.raise(order, entry, Cause::Reading(id), risen)
            }
            None => Ok(()),
        }
    }

    /// Makes live all pieces that are, where none is marked yet.
    pub fn grow(&mut self, order: &Order, flow: &[BlockFlow]) -> Result<(), AllocError>
        ensures { OnOk result (GrowsAll order.now.slots flow.now self.old.rows.items self.new.rows.items) }
    {
        let mut risen = self.raise_certain()?;
        'spots: for k in 0..usize::MAX {
            if k >= risen.len() {
                break;
            }
            let piece = risen[k];
            self.raise_sources(order, flow, piece, &mut risen)?;
        }
        Ok(())
    }
}
