//! The pieces that are live, brought up to date after instructions were changed and the cells of their
//! lanes made anew.

ghost use Rattle.std.specs.Prelude.{◌≡◌, ◌++◌, IfOk, OnOk};
ghost use Rattle.live_edits.specs.Logged.{LogsLives};
ghost use Rattle.live_edits.specs.Updated.{Updates};

use crate::log::LoggedRows;
use crate::pieces::PieceSpot;
use crate::spots::SpotList;
use live_lanes::compute::flow::BlockFlow;
use live_lanes::order::Order;
use std::alloc::{AllocError, Global};
use std::collections::BTreeSet;

/// Two lists of pieces, one behind the other.
fn concatenate(
    alloc: Global,
    first: &[PieceSpot],
    second: &[PieceSpot],
) -> Result<Vec<PieceSpot>, AllocError>
    ensures { IfOk result (λ all. all.items ≡ first.now ++ second.now) }
{
    let mut all = Vec::new(alloc);
    all.extend_from_slice(first)?;
    all.extend_from_slice(second)?;
    Ok(all)
}

/// The same list once more.
fn copied(alloc: Global, spots: &[PieceSpot]) -> Result<Vec<PieceSpot>, AllocError>
    ensures { IfOk result (λ all. all.items ≡ spots.now) }
{
    let mut all = Vec::new(alloc);
    all.extend_from_slice(spots)?;
    Ok(all)
}

impl LoggedRows {
    /// Brings the pieces up to date: these are the ones on both sides of the instructions that were
    /// changed, which have these ids.
    pub fn update(
        &mut self,
        order: &Order,
        flow: &[BlockFlow],
        suspects: &[PieceSpot],
        ids: &BTreeSet<u32>,
    ) -> Result<(), AllocError>
        ensures updates { OnOk result (Updates ids.now.keys order.now.slots flow.now self.old.rows.rows.items self.new.rows.rows.items suspects.now) }
        ensures logged { LogsLives self.old self.new }
    {
        let alloc = self.rows.alloc;
        // Both sides of an instruction mostly lie in one piece, and those of the next one too.
        let mut around = SpotList::with_room(alloc, suspects.len())?;
        around.add_all(suspects)?;
        let list = copied(alloc, around.spots.as_slice())?;
        let mut fallen = self.look_again(order, flow, suspects, ids)?;
        self.fall(order, flow, &mut fallen, &mut around)?;
        let mut reasons = Vec::new(alloc);
        self.ask(order, flow, list.as_slice(), &mut reasons)?;
        self.ask(order, flow, fallen.as_slice(), &mut reasons)?;
        let risen = self.rise(order, flow, reasons.as_slice(), &mut around)?;
        let again = concatenate(alloc, around.spots.as_slice(), risen.as_slice())?;
        self.end_again(order, flow, again.as_slice())
    }
}
