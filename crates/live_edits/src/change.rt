//! Changes of single cells of rows.

ghost use Rattle.std.specs.Prelude.{◌≡◌, ◌<◌, true, length, IfOk, IsOk, OnOk, OnErr, is_some, slice_get};
ghost use Rattle.live_lanes.specs.Table.{find_cell, cell_room, seen_in, with_cause, with_end};
ghost use Rattle.live_lanes.specs.Entered.{rows_seen, cells_of};
ghost use Rattle.live_edits.specs.Logged.{has_cell, room_of};
ghost use Rattle.live_edits.specs.Changes.{AddsCells, ChangesRow, ChangesCell};
ghost use Rattle.live_edits.specs.CellChanges.{seen_changed, fits_in};

use crate::cell_change::{CellChange, change_cell};
use crate::pieces::PieceSpot;
use live_lanes::row::{Cause, LaneRange, PieceEnd};
use live_lanes::table::LaneRanges;
use std::alloc::AllocError;

/// Gives a piece of a row a cause and an end.
fn give_row_life(row: &mut LaneRange, spot: PieceSpot, cause: Cause, end: PieceEnd)
    ensures { is_some (find_cell spot.block row.old.cells.items) ≡ true
        → ChangesRow row.old.cells.items row.new.cells.items spot.block (λ v. with_end (with_cause v spot.index cause) spot.index end) }
{
    let place = row.place_near(spot.near, spot.block);
    if place < row.cells.len() {
        let cell = &mut row.cells[place];
        cell.set_cause(spot.index, cause);
        cell.set_end(spot.index, end);
    }
}

/// Changes a cell of a row. It gives the change that takes this one back.
fn change_row_cell(
    row: &mut LaneRange,
    block: u32,
    change: CellChange,
) -> Result<CellChange, AllocError>
    ensures changed { is_some (find_cell block row.old.cells.items) ≡ true
        → OnOk result (ChangesRow row.old.cells.items row.new.cells.items block (λ v. seen_changed change v)) }
    ensures failed { is_some (find_cell block row.old.cells.items) ≡ true
        → OnErr result (ChangesRow row.old.cells.items row.new.cells.items block (λ v. v)) }
    ensures back { is_some (find_cell block row.old.cells.items) ≡ true
        → IfOk result (λ back. (seen_changed back (seen_in row.new.cells.items block) ≡ seen_in row.old.cells.items block) × (fits_in back (cell_room (find_cell block row.new.cells.items)) ≡ true)) }
    ensures succeeds { is_some (find_cell block row.old.cells.items) ≡ true
        → fits_in change (cell_room (find_cell block row.old.cells.items)) ≡ true → IsOk result }
{
    let place = row.place(block);
    if place >= row.cells.len() {
        return Ok(change);
    }
    change_cell(&mut row.cells[place], change)
}

/// Gives a piece a cause and an end, where it has a cell.
pub fn give_life(rows: &mut LaneRanges, spot: PieceSpot, cause: Cause, end: PieceEnd)
    ensures { has_cell rows.old.rows.items spot.lane spot.block ≡ true
        → ChangesCell rows.old.rows.items rows.new.rows.items spot.lane spot.block (λ v. with_end (with_cause v spot.index cause) spot.index end) }
{
    let lane = spot.lane as usize;
    if lane < rows.rows.len() {
        give_row_life(&mut rows.rows[lane], spot, cause, end);
    }
}

/// Gives a piece a cause, where its cell stands at this place.
pub fn give_cause_at(rows: &mut LaneRanges, place: usize, spot: PieceSpot, cause: Cause)
    requires lane { spot.lane < length rows.old.rows.items }
    requires within { place < length (cells_of rows.old.rows.items spot.lane) }
    requires there { slice_get (cells_of rows.old.rows.items spot.lane) place ≡ find_cell spot.block (cells_of rows.old.rows.items spot.lane) }
    ensures { ChangesCell rows.old.rows.items rows.new.rows.items spot.lane spot.block (λ v. with_cause v spot.index cause) }
{
    let row = &mut rows.rows[spot.lane as usize];
    row.cells[place].set_cause(spot.index, cause);
}

/// Gives a piece an end, where its cell stands at this place.
pub fn give_end_at(rows: &mut LaneRanges, place: usize, spot: PieceSpot, end: PieceEnd)
    requires lane { spot.lane < length rows.old.rows.items }
    requires within { place < length (cells_of rows.old.rows.items spot.lane) }
    requires there { slice_get (cells_of rows.old.rows.items spot.lane) place ≡ find_cell spot.block (cells_of rows.old.rows.items spot.lane) }
    ensures { ChangesCell rows.old.rows.items rows.new.rows.items spot.lane spot.block (λ v. with_end v spot.index end) }
{
    let row = &mut rows.rows[spot.lane as usize];
    row.cells[place].set_end(spot.index, end);
}

/// Changes a cell of a lane, where there is one. It gives the change that takes this one back.
pub fn change_in(
    rows: &mut LaneRanges,
    lane: u32,
    block: u32,
    change: CellChange,
) -> Result<CellChange, AllocError>
    ensures changed { has_cell rows.old.rows.items lane block ≡ true
        → OnOk result (ChangesCell rows.old.rows.items rows.new.rows.items lane block (λ v. seen_changed change v)) }
    ensures failed { has_cell rows.old.rows.items lane block ≡ true
        → OnErr result (ChangesCell rows.old.rows.items rows.new.rows.items lane block (λ v. v)) }
    ensures back { has_cell rows.old.rows.items lane block ≡ true
        → IfOk result (λ back. (seen_changed back (rows_seen rows.new.rows.items lane block) ≡ rows_seen rows.old.rows.items lane block) × (fits_in back (room_of rows.new.rows.items lane block) ≡ true)) }
    ensures succeeds { has_cell rows.old.rows.items lane block ≡ true
        → fits_in change (room_of rows.old.rows.items lane block) ≡ true → IsOk result }
{
    let lane = lane as usize;
    if lane >= rows.rows.len() {
        return Ok(change);
    }
    change_row_cell(&mut rows.rows[lane], block, change)
}

/// Makes the cell of a lane in a block, where there is none, and answers its place. It is looked for at
/// a place and behind it first.
pub fn make_in(
    rows: &mut LaneRanges,
    lane: u32,
    near: usize,
    block: u32,
) -> Result<usize, AllocError>
    requires { lane < length rows.old.rows.items }
    ensures added { AddsCells rows.old.rows.items rows.new.rows.items }
    ensures there { OnOk result (has_cell rows.new.rows.items lane block ≡ true) }
    ensures within { IfOk result (λ at. at < length (cells_of rows.new.rows.items lane)) }
    ensures place { IfOk result (λ at. slice_get (cells_of rows.new.rows.items lane) at ≡ find_cell block (cells_of rows.new.rows.items lane)) }
{
    let alloc = rows.alloc;
    let row = &mut rows.rows[lane as usize];
    row.make(alloc, near, block)
}
