//! Ends of pieces that are found anew.

ghost use Rattle.std.specs.Prelude.{◌≡◌, ◌≢◌, Some, None, OnOk, IfSome};
ghost use Rattle.live_lanes.specs.Entered.{cells_of, causes};
ghost use Rattle.live_lanes.specs.Ends.{row_end};
ghost use Rattle.live_lanes.specs.Lasting.{AllRise, shapes, right_end};
ghost use Rattle.live_lanes.specs.Table.{find_cell};
ghost use Rattle.live_edits.specs.Logged.{LogsLives};
ghost use Rattle.live_edits.specs.Pieces.{nodes_of};
ghost use Rattle.live_edits.specs.Updated.{EndsAgain};

use crate::log::LoggedRows;
use crate::pieces::PieceSpot;
use live_lanes::compute::ends::PieceAt;
use live_lanes::compute::flow::BlockFlow;
use live_lanes::order::Order;
use live_lanes::row::{Cell, PieceEnd};
use std::alloc::AllocError;

impl LoggedRows {
    /// Up to where a piece of a cell at a place is live, by the readings and exits that count.
    fn end_in_cell(
        &self,
        order: &Order,
        flow: &[BlockFlow],
        place: usize,
        cell: &Cell,
        spot: PieceSpot,
    ) -> PieceEnd
        requires { find_cell spot.block (cells_of self.now.rows.rows.items spot.lane) ≡ Some cell.now }
        ensures { AllRise order.now.slots self.now.rows.rows.items
            → result ≡ right_end order.now.slots flow.now (causes self.now.rows.rows.items) (shapes self.now.rows.rows.items) spot.lane spot.block spot.index }
    {
        let Some(piece) = cell.piece(spot.index) else {
            return PieceEnd::Never;
        };
        if !piece.is_live() {
            return PieceEnd::Never;
        }
        let at = PieceAt {
            lane: spot.lane,
            place,
            cell,
            index: spot.index,
            piece,
        };
        self.rows.end_of(order, flow, &at)
    }

    /// Up to where a piece is live, if that isn't where it was found to be last.
    fn new_end(&self, order: &Order, flow: &[BlockFlow], spot: PieceSpot) -> Option<PieceEnd>
        ensures changed { AllRise order.now.slots self.now.rows.rows.items
            → IfSome result (λ end. (end ≡ right_end order.now.slots flow.now (causes self.now.rows.rows.items) (shapes self.now.rows.rows.items) spot.lane spot.block spot.index) × (row_end self.now.rows.rows.items spot.lane spot.block spot.index ≢ end)) }
        ensures same { AllRise order.now.slots self.now.rows.rows.items → result ≡ None
            → row_end self.now.rows.rows.items spot.lane spot.block spot.index ≡ right_end order.now.slots flow.now (causes self.now.rows.rows.items) (shapes self.now.rows.rows.items) spot.lane spot.block spot.index }
    {
        let row = self.rows.rows.as_slice().get(spot.lane as usize)?;
        let place = row.place_near(spot.near, spot.block);
        let cell = row.cell_at(place, spot.block)?;
        let end = self.end_in_cell(order, flow, place, cell, spot);
        if end == cell.end_of(spot.index) {
            return None;
        }
        Some(end)
    }

    /// Gives pieces their ends anew, where these changed.
    pub fn end_again(
        &mut self,
        order: &Order,
        flow: &[BlockFlow],
        pieces: &[PieceSpot],
    ) -> Result<(), AllocError>
        ensures again { OnOk result (AllRise order.now.slots self.old.rows.rows.items
            → EndsAgain order.now.slots flow.now self.old.rows.rows.items self.new.rows.rows.items (nodes_of pieces.now)) }
        ensures logged { LogsLives self.old self.new }
    {
        'pieces: for spot in pieces {
            if let Some(end) = self.new_end(order, flow, *spot) {
                self.set_end(*spot, end)?;
            }
        }
        Ok(())
    }
}
