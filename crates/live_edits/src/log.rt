//! Rows with a log of what takes each change of them back, which takes no memory.

ghost use Rattle.std.specs.Prelude.{◌≡◌, true, []};
ghost use Rattle.live_edits.specs.Logged.{HasAllCells, cell_there, IsTakenBack};
ghost use Rattle.live_edits.specs.Changes.{TakesBack};

use crate::cell_change::CellChange;
use crate::change::{change_in, give_life};
use crate::pieces::PieceSpot;
use crate::readings::remove_read;
use live_lanes::row::{Cause, PieceEnd};
use live_lanes::table::LaneRanges;
use std::alloc::AllocError;

/// What something was before it was changed.
#[derive(Drop)]
pub enum Former {
    /// The piece at a spot was live for this cause, up to this end.
    Life(PieceSpot, Cause, PieceEnd),
    /// The cell of a lane in a block was as this change makes it.
    Shape(u32, u32, CellChange),
    /// The reading at this place of the piece at a spot wasn't there.
    Read(PieceSpot, usize),
}

/// The pieces of all lanes while edits are done, and what takes each change of them back, in the order
/// of the changes.
#[derive(Drop)]
pub struct LoggedRows {
    /// The pieces.
    pub rows: LaneRanges,
    /// What they were.
    pub log: Vec<Former>,
}

impl LoggedRows {
    /// Rows that weren't changed yet.
    pub fn new(rows: LaneRanges) -> LoggedRows
        ensures rows { result.rows ≡ rows }
        ensures log { result.log.items ≡ [] }
    {
        let log = Vec::new(rows.alloc);
        LoggedRows { rows, log }
    }

    /// Makes room for so many more changes.
    pub fn make_room(&mut self, count: usize) -> Result<(), AllocError>
        ensures rows { self.new.rows ≡ self.old.rows }
        ensures log { self.new.log.items ≡ self.old.log.items }
    {
        self.log.reserve(count)
    }

    /// Takes all changes back, the last one first. It takes no memory.
    pub fn take_back(&mut self)
        ensures { HasAllCells self.old.rows.rows.items self.old.log.items → IsTakenBack self.old self.new }
    {
        'changes: while let Some(former) = self.log.pop() {
            self.take_one_back(former);
        }
    }

    /// Takes one change back.
    fn take_one_back(&mut self, former: Former)
        ensures back { cell_there self.old.rows.rows.items former ≡ true → TakesBack self.old.rows.rows.items self.new.rows.rows.items former }
        ensures log { self.new.log ≡ self.old.log }
    {
        match former {
            Former::Life(spot, cause, end) => {
                give_life(&mut self.rows, spot, cause, end);
            }
            Former::Shape(lane, block, change) => {
                let _ = change_in(&mut self.rows, lane, block, change);
            }
            Former::Read(spot, at) => {
                remove_read(&mut self.rows, spot, at);
            }
        }
    }
}
