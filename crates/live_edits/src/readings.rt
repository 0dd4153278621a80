//! Readings that come to pieces of rows in place, and what takes them back.

ghost use Rattle.std.specs.Prelude.{◌≡◌, ◌<◌, true, length, OnOk, is_some};
ghost use Rattle.live_lanes.specs.Table.{find_cell};
ghost use Rattle.live_edits.specs.Logged.{has_cell, IsLogged};
ghost use Rattle.live_edits.specs.Changes.{ChangesRow, ChangesCell};
ghost use Rattle.live_edits.specs.CellChanges.{reading_added, reading_removed};
ghost use Rattle.live_edits.specs.Renoted.{ChangesOne};

use crate::cell_change::{put_reading, remove_reading};
use crate::change::make_in;
use crate::log::{Former, LoggedRows};
use crate::pieces::PieceSpot;
use live_lanes::row::{LaneRange, LaneUse};
use live_lanes::table::LaneRanges;
use std::alloc::AllocError;

/// Removes the reading at a place of a piece of a row, if there is one.
fn remove_row_read(row: &mut LaneRange, spot: PieceSpot, at: usize)
    ensures { is_some (find_cell spot.block row.old.cells.items) ≡ true
        → ChangesRow row.old.cells.items row.new.cells.items spot.block (λ v. reading_removed spot.index at v) }
{
    let place = row.place_near(spot.near, spot.block);
    if place < row.cells.len() {
        remove_reading(&mut row.cells[place], spot.index, at);
    }
}

/// Removes the reading at a place of a piece, if there is one.
pub fn remove_read(rows: &mut LaneRanges, spot: PieceSpot, at: usize)
    ensures { has_cell rows.old.rows.items spot.lane spot.block ≡ true
        → ChangesCell rows.old.rows.items rows.new.rows.items spot.lane spot.block (λ v. reading_removed spot.index at v) }
{
    let lane = spot.lane as usize;
    if lane < rows.rows.len() {
        remove_row_read(&mut rows.rows[lane], spot, at);
    }
}

impl LoggedRows {
    /// Puts a reading at a place of a piece, and logs that it wasn't there.
    pub(crate) fn put_read(
        &mut self,
        spot: PieceSpot,
        at: usize,
        reading: LaneUse,
    ) -> Result<(), AllocError>
        requires { spot.lane < length self.old.rows.rows.items }
        ensures changed { OnOk result (ChangesOne self.old.rows.rows.items self.new.rows.rows.items spot.lane spot.block (λ v w. w ≡ reading_added spot.index at reading v)) }
        ensures lanes { length self.new.rows.rows.items ≡ length self.old.rows.rows.items }
        ensures logged { IsLogged self.old self.new }
    {
        // Memory for the log is taken first, so that no reading comes without what takes it back.
        self.log.reserve(1)?;
        let place = make_in(&mut self.rows, spot.lane, spot.near, spot.block)?;
        let cell = &mut self.rows.rows[spot.lane as usize].cells[place];
        put_reading(cell, spot.index, at, reading)?;
        self.log.push(Former::Read(spot, at))?;
        Ok(())
    }
}
