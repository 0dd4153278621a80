//! The pieces of logged rows by their spots: what is known of them, and their causes and ends.

ghost use Rattle.std.specs.Prelude.{◌≡◌, ◌<◌, ℕ, length, IfOk, OnOk, OnErr, option_copied, slice_get};
ghost use Rattle.live_lanes.specs.Table.{certain_cause, cause_in, end_in, find_cell, seen, seen_cell};
ghost use Rattle.live_lanes.specs.Entered.{rows_seen, cells_of, causes};
ghost use Rattle.live_lanes.specs.Marks.{KeepsCauses};
ghost use Rattle.edit_laws.specs.RowCause.{GivesCause};
ghost use Rattle.edit_laws.specs.RowEnd.{GivesEnd};
ghost use Rattle.live_edits.specs.Logged.{LogsLives};
ghost use Rattle.live_edits.specs.Pieces.{node_of, IsThere, KeepsPieces};
ghost use Rattle.live_edits.specs.Changes.{AddsCells, LogsLife};

use crate::change::{give_cause_at, give_end_at, make_in};
use crate::log::{Former, LoggedRows};
use live_lanes::row::{Cause, Cell, PieceEnd};
use std::alloc::AllocError;

/// Where a piece stands.
#[derive(Clone, Copy)]
pub struct PieceSpot {
    /// The lane.
    pub lane: u32,
    /// The block's position in the layout.
    pub block: u32,
    /// The place among the lane's pieces in the block: 0 is the one that begins with the block.
    pub index: usize,
    /// The place among the lane's cells at which that of the block was found last, as a hint: it may be
    /// any.
    pub near: usize,
}

impl PieceSpot {
    /// Where to look first for the lane's cell of another block: a row has its cells from the last block
    /// to the first, and mostly those of neighbouring blocks next to each other.
    pub(crate) fn place_beside(self, block: u32) -> usize {
        if block < self.block {
            return self.near.saturating_add(1);
        }
        self.near.saturating_sub(1)
    }
}

/// A piece is live for a cause.
#[derive(Clone, Copy)]
pub struct Need {
    /// The piece.
    pub spot: PieceSpot,
    /// Why it is live.
    pub cause: Cause,
}

/// Why a piece of a cell is live.
pub(crate) fn cause_in(cell: &Cell, index: usize) -> Cause
    ensures { result ≡ cause_in (seen_cell cell.now) index }
{
    match cell.piece(index) {
        Some(piece) => piece.cause,
        None => Cause::None,
    }
}

/// The cause and the end of a piece of a cell, as they are logged.
fn life_of(cell: &Cell, spot: PieceSpot) -> Former
    ensures { result ≡ Former.Life spot (cause_in (seen_cell cell.now) spot.index) (end_in (seen_cell cell.now) spot.index) }
{
    Former::Life(spot, cause_in(cell, spot.index), cell.end_of(spot.index))
}

impl LoggedRows {
    /// The place of a lane's cell of a block, as a hint, which is looked for at a place and behind it
    /// first.
    pub(crate) fn place_near(&self, lane: u32, near: usize, block: u32) -> usize {
        match self.rows.rows.as_slice().get(lane as usize) {
            Some(row) => row.place_near(near, block),
            None => 0,
        }
    }

    /// The cell of a lane in a block, where it has one, and its place, as a hint. It is looked for at a
    /// place and behind it first.
    pub(crate) fn find(&self, lane: u32, near: usize, block: u32) -> (usize, Option<&Cell>)
        ensures cell { option_copied result.1 ≡ find_cell block (cells_of self.now.rows.rows.items lane) }
        ensures seen { seen (option_copied result.1) ≡ rows_seen self.now.rows.rows.items lane block }
    {
        match self.rows.rows.as_slice().get(lane as usize) {
            Some(row) => {
                let place = row.place_near(near, block);
                (place, row.cell_at(place, block))
            }
            None => (0, None),
        }
    }

    /// The cell of a piece, where its lane has one in its block.
    pub(crate) fn cell_of(&self, spot: PieceSpot) -> Option<&Cell>
        ensures { option_copied result ≡ find_cell spot.block (cells_of self.now.rows.rows.items spot.lane) }
    {
        match self.rows.rows.as_slice().get(spot.lane as usize) {
            Some(row) => row.cell_near(spot.near, spot.block),
            None => None,
        }
    }

    /// Why a piece is live.
    pub fn cause_of(&self, spot: PieceSpot) -> Cause
        ensures { result ≡ causes self.now.rows.rows.items spot.lane spot.block spot.index }
    {
        match self.cell_of(spot) {
            Some(cell) => cause_in(cell, spot.index),
            None => Cause::None,
        }
    }

    /// Why a piece is live without any other lane.
    pub fn certain_cause(&self, spot: PieceSpot) -> Cause
        ensures { result ≡ certain_cause (rows_seen self.now.rows.rows.items spot.lane spot.block) spot.index }
    {
        match self.cell_of(spot) {
            Some(cell) => cell.certain_cause(spot.index),
            None => Cause::None,
        }
    }

    /// Makes the cell of a piece, where there is none, and logs the piece's cause and end. Answers the
    /// cell's place.
    fn log_life(&mut self, spot: PieceSpot) -> Result<usize, AllocError>
        requires { spot.lane < length self.old.rows.rows.items }
        ensures rows { AddsCells self.old.rows.rows.items self.new.rows.rows.items }
        ensures life { OnOk result (LogsLife self.old self.new spot) }
        ensures log { OnErr result (self.new.log.items ≡ self.old.log.items) }
        ensures within { IfOk result (λ at. at < length (cells_of self.new.rows.rows.items spot.lane)) }
        ensures place { IfOk result (λ at. slice_get (cells_of self.new.rows.rows.items spot.lane) at ≡ find_cell spot.block (cells_of self.new.rows.rows.items spot.lane)) }
    {
        let place = make_in(&mut self.rows, spot.lane, spot.near, spot.block)?;
        let former = life_of(&self.rows.rows[spot.lane as usize].cells[place], spot);
        self.log.push(former)?;
        Ok(place)
    }

    /// Gives a piece a cause. A lane that has no row stays without.
    pub fn set_cause(&mut self, spot: PieceSpot, cause: Cause) -> Result<(), AllocError>
        ensures given { OnOk result (IsThere self.old.rows.rows.items (node_of spot) → GivesCause self.old.rows.rows.items self.new.rows.rows.items (node_of spot) cause) }
        ensures pieces { KeepsPieces self.old.rows.rows.items self.new.rows.rows.items }
        ensures logged { LogsLives self.old self.new }
    {
        if spot.lane as usize >= self.rows.rows.len() {
            return Ok(());
        }
        let place = self.log_life(spot)?;
        give_cause_at(&mut self.rows, place, spot, cause);
        Ok(())
    }

    /// Gives a piece an end. A lane that has no row stays without.
    pub fn set_end(&mut self, spot: PieceSpot, end: PieceEnd) -> Result<(), AllocError>
        ensures given { OnOk result (IsThere self.old.rows.rows.items (node_of spot) → GivesEnd self.old.rows.rows.items self.new.rows.rows.items (node_of spot) end) }
        ensures absent { OnOk result ((IsThere self.old.rows.rows.items (node_of spot) → ⊥) → (l b : ℕ) → rows_seen self.new.rows.rows.items l b ≡ rows_seen self.old.rows.rows.items l b) }
        ensures causes { KeepsCauses self.old.rows.rows.items self.new.rows.rows.items }
        ensures logged { LogsLives self.old self.new }
    {
        if spot.lane as usize >= self.rows.rows.len() {
            return Ok(());
        }
        let place = self.log_life(spot)?;
        give_end_at(&mut self.rows, place, spot, end);
        Ok(())
    }
}
