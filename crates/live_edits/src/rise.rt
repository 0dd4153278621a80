//! Pieces that come alive by edits: those that have a reason to, and all that leads to them.

ghost use Rattle.std.specs.Prelude.{◌≡◌, IfOk, OnOk};
ghost use Rattle.live_lanes.specs.Entered.{causes};
ghost use Rattle.live_lanes.specs.Graph.{is_live};
ghost use Rattle.live_edits.specs.Logged.{LogsLives};
ghost use Rattle.live_edits.specs.Pieces.{KeepsPieces};
ghost use Rattle.live_edits.specs.Updated.{Raises, Revives};

use crate::log::LoggedRows;
use crate::pieces::{Need, PieceSpot};
use crate::spots::SpotList;
use live_lanes::compute::flow::BlockFlow;
use live_lanes::order::Order;
use live_lanes::row::Cause;
use std::alloc::AllocError;

impl LoggedRows {
    /// Lets pieces come alive for their reasons, and all that leads to them, and answers them. The
    /// pieces that led to them and were live already are added to those around.
    pub fn rise(
        &mut self,
        order: &Order,
        flow: &[BlockFlow],
        reasons: &[Need],
        around: &mut SpotList,
    ) -> Result<Vec<PieceSpot>, AllocError>
        ensures rises { IfOk result (λ risen. Revives order.now.slots flow.now self.old.rows.rows.items self.new.rows.rows.items reasons.now risen.items around.old.spots.items around.new.spots.items) }
        ensures pieces { KeepsPieces self.old.rows.rows.items self.new.rows.rows.items }
        ensures logged { LogsLives self.old self.new }
    {
        let mut risen = Vec::new(self.rows.alloc);
        self.revive_all(reasons, &mut risen, around)?;
        let mut needs = Vec::new(self.rows.alloc);
        'risen: for k in 0..usize::MAX {
            if k >= risen.len() {
                break;
            }
            self.find_needs(order, flow, risen[k], &mut needs)?;
            self.revive_all(needs.as_slice(), &mut risen, around)?;
        }
        Ok(risen)
    }

    /// Whether a piece is live.
    fn is_live(&self, spot: PieceSpot) -> bool
        ensures { result ≡ is_live (causes self.now.rows.rows.items spot.lane spot.block spot.index) }
    {
        !matches!(self.cause_of(spot), Cause::None)
    }

    /// Lets the pieces come alive that aren't live, and lists them; those that are are around.
    fn revive_all(
        &mut self,
        needs: &[Need],
        risen: &mut Vec<PieceSpot>,
        around: &mut SpotList,
    ) -> Result<(), AllocError>
        ensures raises { OnOk result (Raises self.old.rows.rows.items self.new.rows.rows.items needs.now risen.old.items risen.new.items around.old.spots.items around.new.spots.items) }
        ensures pieces { KeepsPieces self.old.rows.rows.items self.new.rows.rows.items }
        ensures logged { LogsLives self.old self.new }
    {
        'needs: for need in needs {
            if self.is_live(need.spot) {
                around.add(need.spot)?;
            } else {
                self.set_cause(need.spot, need.cause)?;
                risen.push(need.spot)?;
            }
        }
        Ok(())
    }
}
