//! Changes of what a cell tells, in place, each of which gives the change that takes it back.

ghost use Rattle.std.specs.Prelude.{◌≡◌, ◌≤◌, true, vec_capacity, IfOk, IsOk, OnOk, OnErr};
ghost use Rattle.std.specs.List.{remove};
ghost use Rattle.live_lanes.specs.Table.{changed_at, seen_cell};
ghost use Rattle.live_edits.specs.CellChanges.{seen_changed, fits_in, reading_put, reading_into, reading_added, reading_removed};

use live_lanes::row::{Cell, DefPiece, LaneUse};
use std::alloc::AllocError;
use std::mem;

/// A change of a cell.
#[derive(Drop)]
pub enum CellChange {
    /// A piece gets these readings.
    Readings(usize, Vec<LaneUse>),
    /// The reading at a place of a piece moves the lane into this one, or none.
    SetReading(usize, usize, Option<u32>),
    /// The writing that begins a piece, by the place of this among those that writings begin, is early
    /// or not, and moves this lane or none.
    Writing(usize, bool, Option<u32>),
    /// A piece is put at a place among those that writings begin, which become at most so many.
    Begin(usize, DefPiece, usize),
    /// The piece at a place among those that writings begin goes.
    Join(usize),
}

/// Gives a piece readings.
fn change_readings(cell: &mut Cell, index: usize, readings: Vec<LaneUse>) -> CellChange
    ensures block { cell.new.block ≡ cell.old.block }
    ensures room { vec_capacity cell.old.segments ≤ vec_capacity cell.new.segments }
    ensures changed { seen_cell cell.new ≡ seen_changed (CellChange.Readings index readings) (seen_cell cell.old) }
    ensures back { seen_changed result (seen_cell cell.new) ≡ seen_cell cell.old }
    ensures fits { fits_in result (vec_capacity cell.new.segments) ≡ true }
{
    if index == 0 {
        let old = mem::replace(&mut cell.first.readings, readings);
        return CellChange::Readings(index, old);
    }
    if index > cell.segments.len() {
        return CellChange::Readings(index, readings);
    }
    let old = mem::replace(&mut cell.segments[index - 1].piece.readings, readings);
    CellChange::Readings(index, old)
}

/// Puts a reading at a place of a list, if there is that place.
fn put_at(readings: &mut Vec<LaneUse>, at: usize, reading: LaneUse) -> Result<(), AllocError>
    ensures put { OnOk result (readings.new.items ≡ reading_put at reading readings.old.items) }
    ensures failed { OnErr result (readings.new.items ≡ readings.old.items) }
{
    if at > readings.len() {
        return Ok(());
    }
    readings.insert(at, reading)?;
    Ok(())
}

/// Lets the reading at a place of a list move its lane into this one or none. It gives what it was.
fn set_at(readings: &mut Vec<LaneUse>, at: usize, into: Option<u32>) -> Option<u32>
    ensures set { readings.new.items ≡ changed_at at (reading_into into) readings.old.items }
    ensures back { changed_at at (reading_into result) readings.new.items ≡ readings.old.items }
{
    if at >= readings.len() {
        return into;
    }
    mem::replace(&mut readings[at].into, into)
}

/// Removes the reading at a place of a list, if there is one.
fn remove_at(readings: &mut Vec<LaneUse>, at: usize)
    ensures { readings.new.items ≡ remove readings.old.items at }
{
    if at < readings.len() {
        let _ = readings.remove(at);
    }
}

/// Puts a reading at a place of a piece, if there is that place.
pub fn put_reading(
    cell: &mut Cell,
    index: usize,
    at: usize,
    reading: LaneUse,
) -> Result<(), AllocError>
    ensures block { cell.new.block ≡ cell.old.block }
    ensures room { vec_capacity cell.old.segments ≤ vec_capacity cell.new.segments }
    ensures put { OnOk result (seen_cell cell.new ≡ reading_added index at reading (seen_cell cell.old)) }
    ensures failed { OnErr result (seen_cell cell.new ≡ seen_cell cell.old) }
{
    if index == 0 {
        return put_at(&mut cell.first.readings, at, reading);
    }
    if index > cell.segments.len() {
        return Ok(());
    }
    put_at(&mut cell.segments[index - 1].piece.readings, at, reading)
}

/// Removes the reading at a place of a piece, if there is one.
pub fn remove_reading(cell: &mut Cell, index: usize, at: usize)
    ensures block { cell.new.block ≡ cell.old.block }
    ensures room { vec_capacity cell.old.segments ≤ vec_capacity cell.new.segments }
    ensures removed { seen_cell cell.new ≡ reading_removed index at (seen_cell cell.old) }
{
    if index == 0 {
        remove_at(&mut cell.first.readings, at);
        return;
    }
    if index > cell.segments.len() {
        return;
    }
    remove_at(&mut cell.segments[index - 1].piece.readings, at);
}

/// Lets the reading at a place of a piece move the lane into this one, or none.
fn set_reading(cell: &mut Cell, index: usize, at: usize, into: Option<u32>) -> CellChange
    ensures block { cell.new.block ≡ cell.old.block }
    ensures room { vec_capacity cell.old.segments ≤ vec_capacity cell.new.segments }
    ensures changed { seen_cell cell.new ≡ seen_changed (CellChange.SetReading index at into) (seen_cell cell.old) }
    ensures back { seen_changed result (seen_cell cell.new) ≡ seen_cell cell.old }
    ensures fits { fits_in result (vec_capacity cell.new.segments) ≡ true }
{
    if index == 0 {
        let old = set_at(&mut cell.first.readings, at, into);
        return CellChange::SetReading(index, at, old);
    }
    if index > cell.segments.len() {
        return CellChange::SetReading(index, at, into);
    }
    let old = set_at(&mut cell.segments[index - 1].piece.readings, at, into);
    CellChange::SetReading(index, at, old)
}

/// Makes a writing early or not, and one that moves this lane or none.
fn change_writing(cell: &mut Cell, at: usize, early: bool, from: Option<u32>) -> CellChange
    ensures block { cell.new.block ≡ cell.old.block }
    ensures room { vec_capacity cell.old.segments ≤ vec_capacity cell.new.segments }
    ensures changed { seen_cell cell.new ≡ seen_changed (CellChange.Writing at early from) (seen_cell cell.old) }
    ensures back { seen_changed result (seen_cell cell.new) ≡ seen_cell cell.old }
    ensures fits { fits_in result (vec_capacity cell.new.segments) ≡ true }
{
    if at >= cell.segments.len() {
        return CellChange::Writing(at, early, from);
    }
    let segment = &mut cell.segments[at];
    let back = CellChange::Writing(at, segment.early, segment.from);
    segment.early = early;
    segment.from = from;
    back
}

/// Puts a piece at a place among those that writings begin, which become at most so many.
fn begin_piece(
    cell: &mut Cell,
    at: usize,
    piece: DefPiece,
    count: usize,
) -> Result<CellChange, AllocError>
    ensures block { cell.new.block ≡ cell.old.block }
    ensures room { vec_capacity cell.old.segments ≤ vec_capacity cell.new.segments }
    ensures changed { OnOk result (seen_cell cell.new ≡ seen_changed (CellChange.Begin at piece count) (seen_cell cell.old)) }
    ensures failed { OnErr result (seen_cell cell.new ≡ seen_cell cell.old) }
    ensures back { IfOk result (λ back. seen_changed back (seen_cell cell.new) ≡ seen_cell cell.old) }
    ensures fits { IfOk result (λ back. fits_in back (vec_capacity cell.new.segments) ≡ true) }
    ensures succeeds { fits_in (CellChange.Begin at piece count) (vec_capacity cell.old.segments) ≡ true → IsOk result }
{
    let len = cell.segments.len();
    if at > len || len >= count {
        return Ok(CellChange::Join(len));
    }
    cell.segments.insert(at, piece)?;
    Ok(CellChange::Join(at))
}

/// Lets the piece at a place among those that writings begin go.
fn join_piece(cell: &mut Cell, at: usize) -> CellChange
    ensures block { cell.new.block ≡ cell.old.block }
    ensures room { vec_capacity cell.old.segments ≤ vec_capacity cell.new.segments }
    ensures changed { seen_cell cell.new ≡ seen_changed (CellChange.Join at) (seen_cell cell.old) }
    ensures back { seen_changed result (seen_cell cell.new) ≡ seen_cell cell.old }
    ensures fits { fits_in result (vec_capacity cell.new.segments) ≡ true }
{
    let len = cell.segments.len();
    if at >= len {
        return CellChange::Join(at);
    }
    CellChange::Begin(at, cell.segments.remove(at), len)
}

/// Changes a cell. It gives the change that takes this one back.
pub fn change_cell(cell: &mut Cell, change: CellChange) -> Result<CellChange, AllocError>
    ensures block { cell.new.block ≡ cell.old.block }
    ensures room { vec_capacity cell.old.segments ≤ vec_capacity cell.new.segments }
    ensures changed { OnOk result (seen_cell cell.new ≡ seen_changed change (seen_cell cell.old)) }
    ensures failed { OnErr result (seen_cell cell.new ≡ seen_cell cell.old) }
    ensures back { IfOk result (λ back. seen_changed back (seen_cell cell.new) ≡ seen_cell cell.old) }
    ensures fits { IfOk result (λ back. fits_in back (vec_capacity cell.new.segments) ≡ true) }
    ensures succeeds { fits_in change (vec_capacity cell.old.segments) ≡ true → IsOk result }
{
    match change {
        CellChange::Readings(index, readings) => Ok(change_readings(cell, index, readings)),
        CellChange::SetReading(index, at, into) => Ok(set_reading(cell, index, at, into)),
        CellChange::Writing(at, early, from) => Ok(change_writing(cell, at, early, from)),
        CellChange::Begin(at, piece, count) => begin_piece(cell, at, piece, count),
        CellChange::Join(at) => Ok(join_piece(cell, at)),
    }
}
