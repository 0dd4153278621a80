//! Which pieces that aren't live have a reason to be.

ghost use Rattle.std.specs.Prelude.{◌≡◌, ℕ, true, false, OnOk, find, option_copied};
ghost use Rattle.live_lanes.specs.declared.row.Cause.{Cause};
ghost use Rattle.live_lanes.specs.Entered.{rows_seen, causes};
ghost use Rattle.live_lanes.specs.Graph.{is_live};
ghost use Rattle.live_lanes.specs.Table.{Numbers, seen_cell, cause_of};
ghost use Rattle.live_lanes.specs.Lasting.{AllRise};
ghost use Rattle.edit_laws.specs.Asked.{IsFound};
ghost use Rattle.live_edits.specs.Leading.{moves_on};
ghost use Rattle.live_edits.specs.Pieces.{node_of};
ghost use Rattle.live_edits.specs.Updated.{AsksFor, LastsToExit};

use crate::fall::has_exit;
use crate::log::LoggedRows;
use crate::needs::readings_in;
use crate::pieces::{Need, PieceSpot, cause_in};
use live_lanes::compute::flow::{BlockFlow, successors};
use live_lanes::order::Order;
use live_lanes::row::{Cause, Cell, LaneUse};
use std::alloc::AllocError;

/// Whether a piece with this cause is live.
fn is_live(cause: Cause) -> bool
    ensures { result ≡ is_live cause }
{
    !matches!(cause, Cause::None)
}

impl LoggedRows {
    /// Why a piece that isn't live has to be.
    fn reason(&self, order: &Order, flow: &[BlockFlow], spot: PieceSpot) -> Cause
        ensures dead { is_live result ≡ true → is_live (causes self.now.rows.rows.items spot.lane spot.block spot.index) ≡ false }
        ensures found { AllRise order.now.slots self.now.rows.rows.items → is_live result ≡ true → IsFound order.now.slots flow.now self.now.rows.rows.items (node_of spot) result }
        ensures whole { AllRise order.now.slots self.now.rows.rows.items → is_live (causes self.now.rows.rows.items spot.lane spot.block spot.index) ≡ false → is_live result ≡ false
            → (c : Cause) → IsFound order.now.slots flow.now self.now.rows.rows.items (node_of spot) c → ⊥ }
    {
        match self.cell_of(spot) {
            Some(cell) => self.reason_in(order, flow, cell, spot),
            // A lane without a cell in the block has one piece there, which no instruction reads.
            None => self.follower_cause(flow, spot, spot.index == 0),
        }
    }

    /// Why a piece of a cell that isn't live has to be.
    fn reason_in(&self, order: &Order, flow: &[BlockFlow], cell: &Cell, spot: PieceSpot) -> Cause
        requires { seen_cell cell.now ≡ rows_seen self.now.rows.rows.items spot.lane spot.block }
        ensures dead { is_live result ≡ true → is_live (causes self.now.rows.rows.items spot.lane spot.block spot.index) ≡ false }
        ensures found { AllRise order.now.slots self.now.rows.rows.items → is_live result ≡ true → IsFound order.now.slots flow.now self.now.rows.rows.items (node_of spot) result }
        ensures whole { AllRise order.now.slots self.now.rows.rows.items → is_live (causes self.now.rows.rows.items spot.lane spot.block spot.index) ≡ false → is_live result ≡ false
            → (c : Cause) → IsFound order.now.slots flow.now self.now.rows.rows.items (node_of spot) c → ⊥ }
    {
        if is_live(cause_in(cell, spot.index)) {
            return Cause::None;
        }
        let certain = cell.certain_cause(spot.index);
        if is_live(certain) {
            return certain;
        }
        let follower = self.follower_cause(flow, spot, has_exit(order, flow, cell, spot));
        if is_live(follower) {
            return follower;
        }
        self.moving_cause(order, spot.block, readings_in(cell, spot.index))
    }

    /// Adds the pieces that aren't live and have a reason to be, with this.
    pub fn ask(
        &self,
        order: &Order,
        flow: &[BlockFlow],
        pieces: &[PieceSpot],
        reasons: &mut Vec<Need>,
    ) -> Result<(), AllocError>
        ensures { OnOk result (AllRise order.now.slots self.now.rows.rows.items
            → AsksFor order.now.slots flow.now self.now.rows.rows.items pieces.now reasons.old.items reasons.new.items) }
    {
        'pieces: for spot in pieces {
            let cause = self.reason(order, flow, *spot);
            if is_live(cause) {
                reasons.push(Need { spot: *spot, cause })?;
            }
        }
        Ok(())
    }

    /// A block to which a path leads from a piece, if any do, and at whose start the lane is live, as a
    /// cause.
    fn follower_cause(&self, flow: &[BlockFlow], spot: PieceSpot, leads_out: bool) -> Cause
        ensures found { (slots : Numbers) → (leads_out ≡ true → LastsToExit slots flow.now self.now.rows.rows.items (node_of spot))
            → is_live result ≡ true → IsFound slots flow.now self.now.rows.rows.items (node_of spot) result }
        ensures whole { (slots : Numbers) → (LastsToExit slots flow.now self.now.rows.rows.items (node_of spot) → leads_out ≡ true)
            → is_live result ≡ false → (x : ℕ) → IsFound slots flow.now self.now.rows.rows.items (node_of spot) (Cause.Follower x) → ⊥ }
    {
        if !leads_out {
            return Cause::None;
        }
        match self.live_block(spot, successors(flow, spot.block)) {
            Some(next) => Cause::Follower(next),
            None => Cause::None,
        }
    }

    /// One of these blocks at whose start the lane of a piece is live.
    fn live_block(&self, spot: PieceSpot, blocks: &[u32]) -> Option<u32>
        ensures { result ≡ find (λ x. is_live (causes self.now.rows.rows.items spot.lane x 0)) blocks.now }
    {
        blocks
            .iter()
            .copied()
            .find(|next| self.is_live_in(spot, *next))
    }

    /// Whether the lane of a piece is live at the start of a block.
    fn is_live_in(&self, spot: PieceSpot, block: u32) -> bool
        ensures { result ≡ is_live (causes self.now.rows.rows.items spot.lane block 0) }
    {
        let near = spot.place_beside(block);
        self.rows.is_live_in(spot.lane, near, block)
    }

    /// A reading by which a piece is moved to where it is live, as a cause.
    fn moving_cause(&self, order: &Order, block: u32, readings: &[LaneUse]) -> Cause
        ensures { AllRise order.now.slots self.now.rows.rows.items
            → result ≡ cause_of (find (moves_on order.now.slots self.now.rows.rows.items block) readings.now) }
    {
        match self.moved_reading(order, block, readings) {
            Some(reading) => Cause::Reading(reading.id),
            None => Cause::None,
        }
    }

    /// The first of some readings that moves its lane to where it is live.
    fn moved_reading<'a>(
        &self,
        order: &Order,
        block: u32,
        readings: &'a [LaneUse],
    ) -> Option<&'a LaneUse>
        ensures { AllRise order.now.slots self.now.rows.rows.items
            → option_copied result ≡ find (moves_on order.now.slots self.now.rows.rows.items block) readings.now }
    {
        readings
            .iter()
            .find(|reading| self.is_moved_on(order, block, reading))
    }

    /// Whether a reading moves its lane to where it is live.
    fn is_moved_on(&self, order: &Order, block: u32, reading: &LaneUse) -> bool
        ensures { AllRise order.now.slots self.now.rows.rows.items → result ≡ moves_on order.now.slots self.now.rows.rows.items block reading.now }
    {
        match reading.into {
            None => false,
            Some(lane) => self.rows.is_live_after(order, lane, block, reading.id),
        }
    }
}
