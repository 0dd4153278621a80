//! The pieces that edits changed, by the instructions that begin them.

ghost use Rattle.std.specs.Prelude.{◌≡◌, true, IfOk, OnOk};
ghost use Rattle.mir_meaning.specs.Paths.{Among};
ghost use Rattle.live_lanes.specs.Entered.{rows_seen};
ghost use Rattle.live_lanes.specs.declared.ask.extent.ChangedPiece.{ChangedPiece};
ghost use Rattle.live_edits.specs.Told.{piece_written, piece_named, start_at, AddsPiece, HasNamed, HasWritten, HasWrittenIn};

use crate::cell_change::CellChange;
use crate::cells::{CellNotes, Note};
use crate::edit_run::EditRun;
use crate::log::Former;
use crate::pieces::PieceSpot;
use live_lanes::ChangedPiece;
use live_lanes::table::LaneRanges;
use std::alloc::AllocError;

/// Whether a piece is the last one of a list.
fn is_last(pieces: &[ChangedPiece], piece: ChangedPiece) -> bool
    ensures { result ≡ true → Among piece pieces.now }
{
    let count = pieces.len();
    if count == 0 {
        return false;
    }
    pieces[count - 1] == piece
}

/// Adds a piece, if there is one, unless it is the one that was added last.
fn add_piece(piece: Option<ChangedPiece>, pieces: &mut Vec<ChangedPiece>) -> Result<(), AllocError>
    ensures { OnOk result (AddsPiece pieces.old.items pieces.new.items piece) }
{
    let Some(piece) = piece else {
        return Ok(());
    };
    if is_last(pieces.as_slice(), piece) {
        return Ok(());
    }
    pieces.push(piece)?;
    Ok(())
}

/// The piece that an instruction begins by its note, if it writes.
fn written_by(lane: u32, block: u32, note: Note) -> Option<ChangedPiece>
    ensures { result ≡ piece_written lane block note }
{
    match note.act.write {
        Some(_) => Some(ChangedPiece {
            lane,
            block,
            start: Some(note.id),
        }),
        None => None,
    }
}

/// Adds the pieces that noted instructions begin.
fn add_begun(cell: &CellNotes, pieces: &mut Vec<ChangedPiece>) -> Result<(), AllocError>
    ensures kept { OnOk result ((p : ChangedPiece) → Among p pieces.old.items → Among p pieces.new.items) }
    ensures written { OnOk result (HasWrittenIn cell.now.lane cell.now.block cell.now.notes.items pieces.new.items) }
{
    'notes: for note in cell.notes.as_slice() {
        add_piece(written_by(cell.lane, cell.block, *note), pieces)?;
    }
    Ok(())
}

/// The same for all cells with notes.
fn add_written(all: &[CellNotes], pieces: &mut Vec<ChangedPiece>) -> Result<(), AllocError>
    ensures { OnOk result (HasWritten all.now pieces.new.items) }
{
    'cells: for cell in all {
        add_begun(cell, pieces)?;
    }
    Ok(())
}

/// What begins the piece of a number in a cell; none where the cell has no such piece.
fn start_at(rows: &LaneRanges, spot: &PieceSpot) -> Option<Option<u32>>
    ensures { result ≡ start_at (rows_seen rows.now.rows.items spot.now.lane spot.now.block) spot.now.index }
{
    if spot.index == 0 {
        return Some(None);
    }
    let cell = rows.cell_near(spot.lane, spot.near, spot.block)?;
    let segment = cell.segments.get(spot.index - 1)?;
    Some(Some(segment.start))
}

/// The piece whose cause and end were logged, or which went. Those that came or got another writing are
/// told by notes.
fn piece_of(rows: &LaneRanges, former: &Former) -> Option<ChangedPiece>
    ensures { result ≡ piece_named rows.now.rows.items former.now }
{
    match former {
        Former::Life(spot, _, _) => match start_at(rows, spot) {
            Some(start) => Some(ChangedPiece {
                lane: spot.lane,
                block: spot.block,
                start,
            }),
            None => None,
        },
        Former::Shape(lane, block, CellChange::Begin(_, piece, _)) => Some(ChangedPiece {
            lane: *lane,
            block: *block,
            start: Some(piece.start),
        }),
        Former::Shape(_, _, _) | Former::Read(_, _) => None,
    }
}

impl EditRun {
    /// Adds the pieces that logged changes concern.
    fn add_logged(&self, pieces: &mut Vec<ChangedPiece>) -> Result<(), AllocError>
        ensures kept { OnOk result ((p : ChangedPiece) → Among p pieces.old.items → Among p pieces.new.items) }
        ensures named { OnOk result (HasNamed self.now.rows.rows.rows.items self.now.rows.log.items pieces.new.items) }
    {
        'log: for former in self.rows.log.as_slice() {
            add_piece(piece_of(&self.rows.rows, former), pieces)?;
        }
        Ok(())
    }

    /// The pieces that were changed, or came or went, by these notes and by what is logged.
    pub(crate) fn changed_pieces(&self, all: &[CellNotes]) -> Result<Vec<ChangedPiece>, AllocError>
        ensures written { IfOk result (λ pieces. HasWritten all.now pieces.items) }
        ensures named { IfOk result (λ pieces. HasNamed self.now.rows.rows.rows.items self.now.rows.log.items pieces.items) }
    {
        let mut pieces = Vec::new(self.rows.rows.alloc);
        add_written(all, &mut pieces)?;
        self.add_logged(&mut pieces)?;
        Ok(pieces)
    }
}
