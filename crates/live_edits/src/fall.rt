//! Live pieces whose causes are gone take a reading that needs no other lane as their cause, or fall;
//! with them fall the pieces that are live for their sake.

ghost use Rattle.std.specs.Prelude.{◌≡◌, ◌↔◌, true, false, ◌++◌, nat_eq, IfOk, OnOk};
ghost use Rattle.live_lanes.specs.Entered.{causes};
ghost use Rattle.live_lanes.specs.Graph.{is_live};
ghost use Rattle.live_lanes.specs.Lasting.{AllRise};
ghost use Rattle.live_lanes.specs.Table.{exit_rank, piece_at, rises_from, seen_cell};
ghost use Rattle.edit_laws.specs.Reasons.{Touched};
ghost use Rattle.edit_laws.specs.Rechecked.{IsHeld};
ghost use Rattle.live_edits.specs.Fallen.{spots_of, LosesAll};
ghost use Rattle.live_edits.specs.Logged.{LogsLives};
ghost use Rattle.live_edits.specs.Pieces.{HasAll, KeepsPieces};
ghost use Rattle.live_edits.specs.Updated.{AreTold, LooksAgain, LosesCause, ListsFallen, LetsFall, LeadsOut};

use crate::log::LoggedRows;
use crate::pieces::{Need, PieceSpot, cause_in};
use crate::spots::SpotList;
use live_lanes::compute::flow::{BlockFlow, terminators};
use live_lanes::order::Order;
use live_lanes::row::{Cause, Cell, entry_rank, exit_rank};
use std::alloc::AllocError;
use std::collections::BTreeSet;

/// Whether the exit of an instruction of its block lies in a piece of a cell.
fn has_exit_of(order: &Order, cell: &Cell, index: usize, id: u32) -> bool
    ensures { rises_from order.now.slots 0 (seen_cell cell.now).segments ≡ true
        → result ≡ nat_eq (piece_at order.now.slots (exit_rank order.now.slots id) (seen_cell cell.now).segments) index }
{
    cell.piece_at(&order.slots, exit_rank(&order.slots, id)) == index
}

/// Whether paths lead from a piece of a cell to the blocks that follow.
pub(crate) fn has_exit(order: &Order, flow: &[BlockFlow], cell: &Cell, spot: PieceSpot) -> bool
    ensures { rises_from order.now.slots 0 (seen_cell cell.now).segments ≡ true
        → (result ≡ true) ↔ LeadsOut order.now.slots flow.now (seen_cell cell.now) spot.block spot.index }
{
    if cell.segments.len() == spot.index {
        return true;
    }
    let ids = terminators(flow, spot.block);
    ids.iter()
        .any(|id| has_exit_of(order, cell, spot.index, *id))
}

impl LoggedRows {
    /// Whether a piece isn't live, or its cause holds as before, where the instructions of these ids
    /// were changed.
    fn holds(&self, order: &Order, flow: &[BlockFlow], spot: PieceSpot, ids: &BTreeSet<u32>) -> bool
        ensures held { (touched : Touched) → AreTold touched ids.now.keys → AllRise order.now.slots self.now.rows.rows.items → result ≡ true
            → IsHeld touched order.now.slots flow.now self.now.rows.rows.items spot.lane spot.block spot.index }
        ensures live { result ≡ false → is_live (causes self.now.rows.rows.items spot.lane spot.block spot.index) ≡ true }
    {
        let Some(cell) = self.cell_of(spot) else {
            return true;
        };
        match cause_in(cell, spot.index) {
            Cause::None => true,
            Cause::Phi => false,
            Cause::Reading(id) => {
                if ids.contains(&id) {
                    return false;
                }
                let at = entry_rank(&order.slots, id);
                cell.piece_at(&order.slots, at) == spot.index
            }
            Cause::Follower(_) => has_exit(order, flow, cell, spot),
        }
    }

    /// Looks at the causes of pieces again, where the instructions of these ids were changed, and
    /// answers the pieces that fell.
    pub fn look_again(
        &mut self,
        order: &Order,
        flow: &[BlockFlow],
        suspects: &[PieceSpot],
        ids: &BTreeSet<u32>,
    ) -> Result<Vec<PieceSpot>, AllocError>
        ensures looks { IfOk result (λ fallen. LooksAgain ids.now.keys order.now.slots flow.now self.old.rows.rows.items self.new.rows.rows.items suspects.now fallen.items) }
        ensures pieces { KeepsPieces self.old.rows.rows.items self.new.rows.rows.items }
        ensures logged { LogsLives self.old self.new }
    {
        let mut fallen = Vec::new(self.rows.alloc);
        'suspects: for spot in suspects {
            if !self.holds(order, flow, *spot, ids) {
                self.lose_cause(*spot, &mut fallen)?;
            }
        }
        Ok(fallen)
    }

    /// Lets all fall that is live for the sake of fallen pieces, and adds it to them. The pieces that
    /// led to them are added to those around.
    pub fn fall(
        &mut self,
        order: &Order,
        flow: &[BlockFlow],
        fallen: &mut Vec<PieceSpot>,
        around: &mut SpotList,
    ) -> Result<(), AllocError>
        ensures falls { OnOk result (LetsFall order.now.slots flow.now self.old.rows.rows.items self.new.rows.rows.items fallen.old.items fallen.new.items around.old.spots.items around.new.spots.items) }
        ensures pieces { KeepsPieces self.old.rows.rows.items self.new.rows.rows.items }
        ensures logged { LogsLives self.old self.new }
    {
        let mut needs = Vec::new(self.rows.alloc);
        'fallen: for k in 0..usize::MAX {
            if k >= fallen.len() {
                break;
            }
            let piece = fallen[k];
            self.find_needs(order, flow, piece, &mut needs)?;
            self.lose_all(needs.as_slice(), fallen, around)?;
        }
        Ok(())
    }

    /// Lets the pieces fall that are live for these causes, and adds them to the fallen ones. All the
    /// pieces are added to those around.
    fn lose_all(
        &mut self,
        needs: &[Need],
        fallen: &mut Vec<PieceSpot>,
        around: &mut SpotList,
    ) -> Result<(), AllocError>
        ensures loses { OnOk result (LosesAll self.old.rows.rows.items self.new.rows.rows.items needs.now fallen.old.items fallen.new.items) }
        ensures around { OnOk result (HasAll around.new.spots.items (around.old.spots.items ++ spots_of needs.now)) }
        ensures pieces { KeepsPieces self.old.rows.rows.items self.new.rows.rows.items }
        ensures logged { LogsLives self.old self.new }
    {
        'needs: for need in needs {
            if self.cause_of(need.spot) == need.cause {
                self.lose_cause(need.spot, fallen)?;
            }
            around.add(need.spot)?;
        }
        Ok(())
    }

    /// Gives a piece a cause that needs no other lane, or lets it fall and lists it.
    fn lose_cause(&mut self, spot: PieceSpot, fallen: &mut Vec<PieceSpot>) -> Result<(), AllocError>
        ensures given { OnOk result (LosesCause self.old.rows.rows.items self.new.rows.rows.items spot) }
        ensures fallen { OnOk result (ListsFallen self.old.rows.rows.items spot fallen.old.items fallen.new.items) }
        ensures pieces { KeepsPieces self.old.rows.rows.items self.new.rows.rows.items }
        ensures logged { LogsLives self.old self.new }
    {
        let cause = self.certain_cause(spot);
        self.set_cause(spot, cause)?;
        if cause == Cause::None {
            fallen.push(spot)?;
        }
        Ok(())
    }
}
