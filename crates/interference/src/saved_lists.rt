//! Lists of a matrix brought up to date after edits, and what stood in them before, so that all of it
//! can be put back.

ghost use Rattle.std.specs.Prelude.{◌≡◌, ℕ, OnOk};
ghost use Rattle.live_lanes.specs.Looks.{InOrder};
ghost use Rattle.interference.specs.ChangedLists.{extent_now, PutsFound};
ghost use Rattle.interference.specs.SavedLists.{parts_at, PutsBack};
ghost use Rattle.interference.specs.declared.unit_table.UnitTable.{UnitTable};

use crate::held::SavedParts;
use crate::unit_table::UnitTable;
use live_lanes::{ChangedPiece, LiveFunc};
use std::alloc::AllocError;

/// A piece of a range that is assigned, and the unit that it holds.
#[derive(Clone, Copy, PartialEq, Eq)]
pub(crate) struct AssignedPiece {
    pub range: u32,
    pub unit: u32,
    pub piece: ChangedPiece,
}

/// What stood in the list of a unit in a block before it was changed.
#[derive(Drop)]
pub(crate) struct SavedList {
    pub unit: u32,
    pub block: u32,
    pub parts: SavedParts,
}

impl UnitTable {
    /// Puts back all that stood, the last change first.
    pub(crate) fn put_back(&mut self, log: Vec<SavedList>)
        ensures { (start : UnitTable) → PutsBack start log.items self.old → (u b : ℕ) → parts_at self.new u b ≡ parts_at start u b }
    {
        let mut log = log;
        'saved: while let Some(saved) = log.pop() {
            self.restore(saved);
        }
    }

    /// Adds the points of a piece as they are now. They may have been added before.
    pub(crate) fn add_piece(
        &mut self,
        live: &LiveFunc,
        at: &AssignedPiece,
        log: &mut Vec<SavedList>,
    ) -> Result<(), AllocError>
        ensures ok { InOrder live.now.table → OnOk result (PutsFound live.now.table.order.slots (extent_now live.now.table at.now) at.now self.old self.new) }
        ensures back { (start : UnitTable) → PutsBack start log.old.items self.old → PutsBack start log.new.items self.new }
    {
        let piece = at.piece;
        match live.extent_from(piece.lane, piece.block, piece.start) {
            Some(extent) => self.replace_piece(live.slots(), at, extent, log),
            None => Ok(()),
        }
    }
}
