//! Which units the rows of two functions write. Each other unit holds the same throughout.

ghost use Rattle.std.specs.Prelude.{◌≡◌, ℕ, ◌<◌, ◌≤◌, ◌&&◌, not, IfOk};
ghost use Rattle.std.specs.List.{All, filter, list_all};
ghost use Rattle.meaning.specs.declared.types.Lane.TheVariants.{UnitLane};
ghost use Rattle.meaning.specs.Lanes.{same_lane};
ghost use Rattle.alloc_check.specs.Marks.{is_marked, unwritten};
ghost use Rattle.alloc_check.specs.Written.{AddsMarks, way_leaves, target_leaves, falls_leave, row_leaves, rows_leave, written_units};

use crate::cells::{is_marked, set_mark};
use meaning::{EdgePair, Lane, Row, Write, Writes};
use std::alloc::{AllocError, Global};
use target_base::{List, Unit};

/// Marks a lane where it is a unit that has a mark.
fn mark_lane(marks: &mut Vec<u8>, lane: Lane)
    ensures { AddsMarks marks.old.items (λ l. not (same_lane lane l)) marks.new.items }
{
    match lane {
        Lane::UnitLane(u) => set_mark(marks, u as usize),
        Lane::VirtualLane(_, _) => {}
        Lane::SlotLane(_, _, _) => {}
    }
}

/// Marks the units that writes name, where they have marks.
fn mark_writes(marks: &mut Vec<u8>, writes: &[Write])
    ensures { AddsMarks marks.old.items (unwritten writes.now) marks.new.items }
{
    for w in writes {
        mark_lane(marks, w.lane);
    }
}

/// The same of the writes of both functions.
fn mark_both(marks: &mut Vec<u8>, first: &[Write], second: &[Write])
    ensures { AddsMarks marks.old.items (λ l. unwritten first.now l && unwritten second.now l) marks.new.items }
{
    mark_writes(marks, first);
    mark_writes(marks, second);
}

/// The same of the phis on ways into blocks.
fn mark_ways(marks: &mut Vec<u8>, ways: &[EdgePair])
    ensures { AddsMarks marks.old.items (λ l. list_all (way_leaves l) ways.now) marks.new.items }
{
    for e in ways {
        mark_both(marks, e.first.as_slice(), e.second.as_slice());
    }
}

/// The same on the way to a branch target.
fn mark_target(marks: &mut Vec<u8>, target: &Option<EdgePair>)
    ensures { AddsMarks marks.old.items (λ l. target_leaves l target.now) marks.new.items }
{
    if let Some(e) = target {
        mark_both(marks, e.first.as_slice(), e.second.as_slice());
    }
}

/// The same where control falls into the next block.
fn mark_falls(marks: &mut Vec<u8>, falls: &Option<(Writes, Writes)>)
    ensures { AddsMarks marks.old.items (λ l. falls_leave l falls.now) marks.new.items }
{
    if let Some(e) = falls {
        mark_both(marks, e.0.as_slice(), e.1.as_slice());
    }
}

/// Marks the units that some write of the row names, where they have marks.
fn mark_row(marks: &mut Vec<u8>, row: &Row)
    ensures { AddsMarks marks.old.items (λ l. row_leaves l row.now) marks.new.items }
{
    match row {
        Row::BothStart(_) => {}
        Row::BothEnd(falls, exits) => {
            mark_falls(marks, falls);
            mark_ways(marks, exits.as_slice());
        }
        Row::FirstSilent(_, writes) => mark_writes(marks, writes.as_slice()),
        Row::SecondSilent(_, writes) => mark_writes(marks, writes.as_slice()),
        Row::BothCounted(_, _, _, first, second, target, exits) => {
            mark_both(marks, first.as_slice(), second.as_slice());
            mark_target(marks, target);
            mark_ways(marks, exits.as_slice());
        }
    }
}

/// Marks of so many units: whether some write of the rows names each.
fn marks_of_rows(alloc: Global, room: usize, rows: &[Row]) -> Result<Vec<u8>, AllocError>
    ensures { IfOk result (λ marks. (u : ℕ) → u < room → is_marked marks.items u ≡ not (rows_leave rows.now (UnitLane u))) }
{
    let mut marks = Vec::from_elem(alloc, 0, room)?;
    for row in rows {
        mark_row(&mut marks, row);
    }
    Ok(marks)
}

/// The greater of two numbers.
fn greater(a: usize, b: usize) -> usize
    ensures first { a ≤ result }
    ensures second { b ≤ result }
{
    if a < b { b } else { a }
}

/// A number above those of the units.
fn number_above(units: &[Unit]) -> usize
    ensures { All (λ u. u.0 < result) units.now }
{
    let mut above = 0;
    for u in units {
        above = greater(above, u.0 as usize + 1);
    }
    above
}

/// The units that are marked.
fn marked_units(alloc: Global, units: &[Unit], marks: &[u8]) -> Result<List<Unit>, AllocError>
    ensures { IfOk result (λ made. made ≡ filter (λ u. is_marked marks.now u.0) units.now) }
{
    let mut made = List::new(alloc);
    for u in units {
        if is_marked(marks, u.0 as usize) {
            made.push(*u)?;
        }
    }
    Ok(made)
}

/// The units that some write of the rows names.
pub fn written_units(alloc: Global, units: &[Unit], rows: &[Row]) -> Result<List<Unit>, AllocError>
    ensures { IfOk result (λ made. made ≡ written_units rows.now units.now) }
{
    let marks = marks_of_rows(alloc, number_above(units), rows)?;
    marked_units(alloc, units, marks.as_slice())
}
