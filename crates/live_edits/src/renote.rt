//! Cells that are changed, note by note, to what touched instructions do now.

ghost use Rattle.std.specs.Prelude.{◌≡◌, ◌<◌, ◌≤◌, ◌++◌, ℕ, length, IfOk, OnOk};
ghost use Rattle.live_lanes.specs.Table.{Seen, seen_cell, begun, new_begun};
ghost use Rattle.live_edits.specs.Logged.{IsLogged};
ghost use Rattle.live_edits.specs.Remade.{RemakesAll};
ghost use Rattle.live_edits.specs.RemadeSteps.{use_of_read, def_of_write};
ghost use Rattle.live_edits.specs.CellChanges.{seen_changed, begun_with_readings};
ghost use Rattle.live_edits.specs.Renoted.{CutsReadings, CutsPieces, piece_readings, under, not_over, first_read, without_first, is_begun_by, reading_changed, changed_maybe, all_changed, rewritten, Begins, piece_joined, NotesReading, NotesWriting, NotesSeen, NotesAll, NotesCell, ChangesOne};

use crate::cell_change::{CellChange, change_cell};
use crate::cells::{CellNotes, CellSpot, Note};
use crate::change::make_in;
use crate::log::{Former, LoggedRows};
use crate::pieces::PieceSpot;
use instr_effects::lane_acts::{LaneRead, LaneWrite};
use live_lanes::row::{Cause, Cell, DefPiece, LaneUse, Piece, PieceEnd};
use slot_index::Slots;
use std::alloc::{AllocError, Global};

/// The place, among the pieces that writings begin, behind those that begin before an instruction. It
/// is also the number of the piece that the instruction's entry lies in.
fn piece_before(slots: &Slots, cell: &Cell, id: u32) -> usize
    ensures within { result ≤ length cell.now.segments.items }
    ensures cut { CutsPieces slots.now id (seen_cell cell.now).segments result }
{
    let number = slots.number(id);
    cell.segments
        .as_slice()
        .partition_point(|s| slots.number(s.start) < number)
}

/// The readings of a piece.
fn readings_of(cell: &Cell, index: usize) -> &[LaneUse]
    requires { index ≤ length cell.now.segments.items }
    ensures { result.now ≡ piece_readings (seen_cell cell.now).readings (seen_cell cell.now).segments index }
{
    if index == 0 {
        return cell.first.readings.as_slice();
    }
    cell.segments[index - 1].piece.readings.as_slice()
}

/// How many of the readings are of instructions before this one.
fn readings_before(slots: &Slots, readings: &[LaneUse], id: u32) -> usize
    ensures within { result ≤ length readings.now }
    ensures cut { CutsReadings (under slots.now id) readings.now result }
{
    let number = slots.number(id);
    readings.partition_point(|r| slots.number(r.id) < number)
}

/// How many of the readings are of instructions before this one, or of this one.
fn readings_through(slots: &Slots, readings: &[LaneUse], id: u32) -> usize
    ensures within { result ≤ length readings.now }
    ensures cut { CutsReadings (not_over slots.now id) readings.now result }
{
    let number = slots.number(id);
    readings.partition_point(|r| slots.number(r.id) <= number)
}

/// What the first of these readings is, if it is of an instruction.
fn first_read(readings: &[LaneUse], id: u32) -> Option<LaneRead>
    ensures { result ≡ first_read id readings.now }
{
    match readings.first() {
        Some(reading) => {
            if reading.id == id {
                Some(LaneRead { into: reading.into })
            } else {
                None
            }
        }
        None => None,
    }
}

/// The readings, without the first one if it is of an instruction.
fn without_first(readings: &[LaneUse], id: u32) -> &[LaneUse]
    ensures { result.now ≡ without_first id readings.now }
{
    if readings.len() > 0 && readings[0].id == id {
        return &readings[1..];
    }
    readings
}

/// Room for so many further readings is made with a list.
const ROOM: usize = 4;

/// These readings, and then those.
fn joined(alloc: Global, before: &[LaneUse], behind: &[LaneUse]) -> Result<Vec<LaneUse>, AllocError>
    ensures { IfOk result (λ new. new.items ≡ before.now ++ behind.now) }
{
    // A reading that comes later mostly finds room.
    let count = before.len().saturating_add(behind.len());
    let mut new = Vec::with_capacity(alloc, count.saturating_add(ROOM))?;
    new.extend_from_slice(before)?;
    new.extend_from_slice(behind)?;
    Ok(new)
}

/// Whether the piece at a place among those that writings begin begins with an instruction.
fn is_begun_by(cell: &Cell, at: usize, id: u32) -> bool
    ensures { result ≡ is_begun_by id (seen_cell cell.now).segments at }
{
    if at >= cell.segments.len() {
        return false;
    }
    cell.segments[at].start == id
}

/// Changes of a cell, one after the other.
#[derive(Drop)]
struct CellChanges {
    /// The first.
    first: Option<CellChange>,
    /// The second.
    second: Option<CellChange>,
}

/// A change of the readings of a cell.
#[derive(Drop)]
enum ReadingChange {
    /// Nothing changes.
    None,
    /// A reading comes at a place of a piece.
    Put(usize, usize, LaneUse),
    /// The cell changes so.
    Other(CellChange),
}

/// What changes a cell so that an instruction reads the lane so.
fn read_change(
    alloc: Global,
    slots: &Slots,
    cell: &Cell,
    id: u32,
    read: Option<LaneRead>,
) -> Result<ReadingChange, AllocError>
    ensures { IfOk result (λ change. NotesReading slots.now id (use_of_read read) (seen_cell cell.now) (reading_changed change (seen_cell cell.now))) }
{
    let index = piece_before(slots, cell, id);
    let readings = readings_of(cell, index);
    let at = readings_before(slots, readings, id);
    let behind = &readings[at..];
    let former = first_read(behind, id);
    if former == read {
        return Ok(ReadingChange::None);
    }
    let Some(read) = read else {
        let left = joined(alloc, &readings[..at], without_first(behind, id))?;
        return Ok(ReadingChange::Other(CellChange::Readings(index, left)));
    };
    if former.is_some() {
        return Ok(ReadingChange::Other(CellChange::SetReading(index, at, read.into)));
    }
    let reading = LaneUse {
        id,
        into: read.into,
    };
    Ok(ReadingChange::Put(index, at, reading))
}

/// What changes a cell so that an instruction that writes the lane does it so.
fn rewrite(at: usize, write: LaneWrite) -> CellChanges
    ensures { (v : Seen) → all_changed result v ≡ rewritten at write.early write.from v }
{
    CellChanges {
        first: Some(CellChange::Writing(at, write.early, write.from)),
        second: None,
    }
}

/// A piece that begins with a writing, and has these readings.
fn begun_piece(id: u32, write: LaneWrite, readings: Vec<LaneUse>) -> DefPiece
    ensures { begun result ≡ begun_with_readings readings.items (new_begun id write.early write.from) }
{
    DefPiece {
        start: id,
        early: write.early,
        from: write.from,
        piece: Piece {
            cause: Cause::None,
            end: PieceEnd::Never,
            readings,
        },
    }
}

/// What lets a piece of a cell begin with an instruction, which takes readings of the one before.
fn begin(
    alloc: Global,
    slots: &Slots,
    cell: &Cell,
    index: usize,
    id: u32,
    write: LaneWrite,
) -> Result<CellChanges, AllocError>
    requires { index ≤ length cell.now.segments.items }
    ensures { IfOk result (λ changes. Begins slots.now index id write (seen_cell cell.now) (all_changed changes (seen_cell cell.now))) }
{
    let readings = readings_of(cell, index);
    let at = readings_through(slots, readings, id);
    let behind = joined(alloc, &readings[at..], &[])?;
    let piece = begun_piece(id, write, behind);
    let first = Some(CellChange::Begin(index, piece, cell.segments.len() + 1));
    // Where the new piece takes no readings, the one before keeps its list.
    if at == readings.len() {
        let second = None;
        return Ok(CellChanges { first, second });
    }
    let before = joined(alloc, &readings[..at], &[])?;
    let second = Some(CellChange::Readings(index, before));
    Ok(CellChanges { first, second })
}

/// What joins the piece at a place among those that writings begin to the one before.
fn join(alloc: Global, cell: &Cell, at: usize) -> Result<CellChanges, AllocError>
    requires { at < length cell.now.segments.items }
    ensures { IfOk result (λ changes. all_changed changes (seen_cell cell.now) ≡ piece_joined at (seen_cell cell.now)) }
{
    let readings = joined(alloc, readings_of(cell, at), readings_of(cell, at + 1))?;
    Ok(CellChanges {
        first: Some(CellChange::Readings(at, readings)),
        second: Some(CellChange::Join(at)),
    })
}

/// What changes a cell so that an instruction writes the lane so.
fn write_changes(
    alloc: Global,
    slots: &Slots,
    cell: &Cell,
    id: u32,
    write: Option<LaneWrite>,
) -> Result<CellChanges, AllocError>
    ensures { IfOk result (λ changes. (l : ℕ) → NotesWriting slots.now id (def_of_write l write) (seen_cell cell.now) (all_changed changes (seen_cell cell.now))) }
{
    let index = piece_before(slots, cell, id);
    let is_begun = is_begun_by(cell, index, id);
    match write {
        Some(write) => {
            if is_begun {
                Ok(rewrite(index, write))
            } else {
                begin(alloc, slots, cell, index, id, write)
            }
        }
        None => {
            if is_begun {
                join(alloc, cell, index)
            } else {
                Ok(CellChanges {
                    first: None,
                    second: None,
                })
            }
        }
    }
}

impl LoggedRows {
    /// Changes a cell, and logs what takes the change back.
    fn change(&mut self, spot: CellSpot, change: CellChange) -> Result<(), AllocError>
        requires { spot.lane < length self.old.rows.rows.items }
        ensures changed { OnOk result (ChangesOne self.old.rows.rows.items self.new.rows.rows.items spot.lane spot.block (λ v w. w ≡ seen_changed change v)) }
        ensures lanes { length self.new.rows.rows.items ≡ length self.old.rows.rows.items }
        ensures logged { IsLogged self.old self.new }
    {
        // Memory for the log is taken first, so that no cell changes without what takes it back.
        self.log.reserve(1)?;
        let place = make_in(&mut self.rows, spot.lane, spot.near, spot.block)?;
        let cell = &mut self.rows.rows[spot.lane as usize].cells[place];
        let back = change_cell(cell, change)?;
        self.log.push(Former::Shape(spot.lane, spot.block, back))?;
        Ok(())
    }

    /// Changes a cell, if there is a change.
    fn change_maybe(&mut self, spot: CellSpot, change: Option<CellChange>) -> Result<(), AllocError>
        requires { spot.lane < length self.old.rows.rows.items }
        ensures changed { OnOk result (ChangesOne self.old.rows.rows.items self.new.rows.rows.items spot.lane spot.block (λ v w. w ≡ changed_maybe change v)) }
        ensures lanes { length self.new.rows.rows.items ≡ length self.old.rows.rows.items }
        ensures logged { IsLogged self.old self.new }
    {
        match change {
            Some(change) => self.change(spot, change),
            None => Ok(()),
        }
    }

    /// Changes a cell by all of these.
    fn change_all(&mut self, spot: CellSpot, changes: CellChanges) -> Result<(), AllocError>
        requires { spot.lane < length self.old.rows.rows.items }
        ensures changed { OnOk result (ChangesOne self.old.rows.rows.items self.new.rows.rows.items spot.lane spot.block (λ v w. w ≡ all_changed changes v)) }
        ensures lanes { length self.new.rows.rows.items ≡ length self.old.rows.rows.items }
        ensures logged { IsLogged self.old self.new }
    {
        self.change_maybe(spot, changes.first)?;
        self.change_maybe(spot, changes.second)
    }

    /// Changes the readings of a cell.
    fn change_readings(&mut self, spot: CellSpot, change: ReadingChange) -> Result<(), AllocError>
        requires { spot.lane < length self.old.rows.rows.items }
        ensures changed { OnOk result (ChangesOne self.old.rows.rows.items self.new.rows.rows.items spot.lane spot.block (λ v w. w ≡ reading_changed change v)) }
        ensures lanes { length self.new.rows.rows.items ≡ length self.old.rows.rows.items }
        ensures logged { IsLogged self.old self.new }
    {
        match change {
            ReadingChange::None => Ok(()),
            ReadingChange::Put(index, at, reading) => {
                let piece = PieceSpot {
                    lane: spot.lane,
                    block: spot.block,
                    index,
                    near: spot.near,
                };
                self.put_read(piece, at, reading)
            }
            ReadingChange::Other(change) => self.change(spot, change),
        }
    }

    /// Lets a cell tell that an instruction reads the lane so.
    fn note_read(
        &mut self,
        slots: &Slots,
        spot: CellSpot,
        id: u32,
        read: Option<LaneRead>,
    ) -> Result<(), AllocError>
        requires { spot.lane < length self.old.rows.rows.items }
        ensures noted { OnOk result (ChangesOne self.old.rows.rows.items self.new.rows.rows.items spot.lane spot.block (NotesReading slots.now id (use_of_read read))) }
        ensures lanes { length self.new.rows.rows.items ≡ length self.old.rows.rows.items }
        ensures logged { IsLogged self.old self.new }
    {
        let alloc = self.rows.alloc;
        // Where there is no cell, one that tells nothing stands for it, which takes no memory.
        let empty = Cell::new(alloc, spot.block);
        let found = self.rows.cell_near(spot.lane, spot.near, spot.block);
        let cell = found.unwrap_or(&empty);
        let change = read_change(alloc, slots, cell, id, read)?;
        self.change_readings(spot, change)
    }

    /// Lets a cell tell that an instruction writes the lane so.
    fn note_write(
        &mut self,
        slots: &Slots,
        spot: CellSpot,
        id: u32,
        write: Option<LaneWrite>,
    ) -> Result<(), AllocError>
        requires { spot.lane < length self.old.rows.rows.items }
        ensures noted { OnOk result ((l : ℕ) → ChangesOne self.old.rows.rows.items self.new.rows.rows.items spot.lane spot.block (NotesWriting slots.now id (def_of_write l write))) }
        ensures lanes { length self.new.rows.rows.items ≡ length self.old.rows.rows.items }
        ensures logged { IsLogged self.old self.new }
    {
        let alloc = self.rows.alloc;
        let empty = Cell::new(alloc, spot.block);
        let found = self.rows.cell_near(spot.lane, spot.near, spot.block);
        let cell = found.unwrap_or(&empty);
        let changes = write_changes(alloc, slots, cell, id, write)?;
        self.change_all(spot, changes)
    }

    /// Lets a cell tell what a note says.
    fn note(&mut self, slots: &Slots, spot: CellSpot, note: Note) -> Result<(), AllocError>
        requires { spot.lane < length self.old.rows.rows.items }
        ensures noted { OnOk result (ChangesOne self.old.rows.rows.items self.new.rows.rows.items spot.lane spot.block (NotesSeen slots.now note)) }
        ensures lanes { length self.new.rows.rows.items ≡ length self.old.rows.rows.items }
        ensures logged { IsLogged self.old self.new }
    {
        self.note_read(slots, spot, note.id, note.act.read)?;
        self.note_write(slots, spot, note.id, note.act.write)
    }

    /// Lets a cell tell what notes say, one after the other.
    fn note_each(&mut self, slots: &Slots, spot: CellSpot, notes: &[Note]) -> Result<(), AllocError>
        requires { spot.lane < length self.old.rows.rows.items }
        ensures noted { OnOk result (ChangesOne self.old.rows.rows.items self.new.rows.rows.items spot.lane spot.block (NotesAll slots.now notes.now)) }
        ensures lanes { length self.new.rows.rows.items ≡ length self.old.rows.rows.items }
        ensures logged { IsLogged self.old self.new }
    {
        'notes: for each in notes {
            self.note(slots, spot, *each)?;
        }
        Ok(())
    }

    /// Lets a cell tell what its notes say.
    fn note_cell(&mut self, slots: &Slots, notes: &CellNotes) -> Result<(), AllocError>
        ensures noted { OnOk result (NotesCell slots.now self.old.rows.rows.items self.new.rows.rows.items notes.now) }
        ensures lanes { length self.new.rows.rows.items ≡ length self.old.rows.rows.items }
        ensures logged { IsLogged self.old self.new }
    {
        if notes.lane as usize >= self.rows.rows.len() {
            return Ok(());
        }
        // All its notes find the cell where it is now, or where the first one makes it.
        let spot = CellSpot {
            lane: notes.lane,
            block: notes.block,
            near: self.place_near(notes.lane, 0, notes.block),
        };
        self.note_each(slots, spot, notes.notes.as_slice())
    }

    /// Lets the cells that have notes tell what these say.
    pub fn remake_all(&mut self, slots: &Slots, all: &[CellNotes]) -> Result<(), AllocError>
        ensures remade { OnOk result (RemakesAll slots.now self.old.rows.rows.items self.new.rows.rows.items all.now) }
        ensures logged { IsLogged self.old self.new }
    {
        // Rows have their cells from the last block to the first, and notes come so too, mostly: a new
        // cell comes at the end of its row then.
        'cells: for notes in all {
            self.note_cell(slots, notes)?;
        }
        Ok(())
    }
}
