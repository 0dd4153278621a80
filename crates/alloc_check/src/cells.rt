//! Facts in cells, by the slots of their two sources, so that of many facts those on a few lanes are
//! found without a look at the others.

ghost use Rattle.std.specs.Prelude.{◌≡◌, slice_set, true, IfOk, IsTrue, OnOk};
ghost use Rattle.std.specs.List.{list_all, list_any};
ghost use Rattle.alloc_check.specs.Marks.{spread, lane_slot, source_slot, is_marked, Marks, unwritten, stays};
ghost use Rattle.alloc_check.specs.Cells.{IsMarked, belongs, same_fact, stays_both, Splits, CellTakes};

use crate::facts::{Fact, Facts, same_source};
use machine_verify::same_lane;
use meaning::{Lane, Source, Write};
use std::alloc::{AllocError, Global};
use target_base::{Copied, List};

/// Facts whose sources have these slots. A fact of other slots doesn't count here.
#[derive(Drop)]
pub struct FactBucket {
    /// The slot of the first source.
    pub left: usize,
    /// The slot of the second source.
    pub right: usize,
    /// The facts.
    pub facts: Facts,
}

/// One of so many slots.
fn spread(n: u32, slots: u32) -> usize
    ensures { result ≡ spread slots n }
{
    if slots == 0 {
        return 0;
    }
    (n % slots) as usize
}

/// The slot of a lane, one of so many.
fn lane_slot(lane: Lane, slots: u32) -> usize
    ensures { result ≡ lane_slot slots lane }
{
    match lane {
        Lane::VirtualLane(v, _) => spread(v, slots),
        Lane::UnitLane(u) => spread(u, slots),
        Lane::SlotLane(s, _, _) => spread(s, slots),
    }
}

/// The slot of a source; all that aren't lanes have one.
pub fn source_slot(source: &Source, slots: u32) -> usize
    ensures { result ≡ source_slot slots source.now }
{
    match source {
        Source::FromLane(l) => lane_slot(*l, slots),
        Source::Undef => 0,
        Source::Bits(_, _, _) => 0,
    }
}

/// Whether the fact has the cell's slots.
pub fn belongs(slots: u32, cell: &FactBucket, fact: &Fact) -> bool
    ensures { result ≡ belongs slots cell.now fact.now }
{
    source_slot(&fact.0, slots) == cell.left && source_slot(&fact.1, slots) == cell.right
}

fn same_fact(fact: &Fact, other: &Fact) -> bool
    ensures { result ≡ same_fact fact.now other.now }
{
    same_source(&fact.0, &other.0) && same_source(&fact.1, &other.1)
}

/// Whether the fact is among these.
pub fn is_among(facts: &[Fact], fact: &Fact) -> bool
    ensures { result ≡ list_any (λ f. same_fact f fact.now) facts.now }
{
    facts.iter().any(|f| same_fact(f, fact))
}

/// Sets a mark, where there is one.
pub fn set_mark(marks: &mut Vec<u8>, at: usize)
    ensures { marks.new.items ≡ slice_set marks.old.items at 1 }
{
    if at < marks.len() {
        marks[at] = 1;
    }
}

/// Marks the slots of the lanes that are written: they have 1, and the others 0. (Where each index is
/// tested, each element of a list of `bool`s is tested too when the list is dropped; bytes aren't.)
fn marks_of(alloc: Global, slots: u32, writes: &[Write]) -> Result<Vec<u8>, AllocError>
    ensures { IfOk result (λ made. Marks slots made.items writes.now) }
{
    let mut marks = Vec::from_elem(alloc, 0, slots as usize)?;
    for w in writes {
        set_mark(&mut marks, lane_slot(w.lane, slots));
    }
    Ok(marks)
}

/// Whether a slot has a mark that isn't 0. One that lies beyond the marks counts as marked.
pub fn is_marked(marks: &[u8], slot: usize) -> bool
    ensures { result ≡ is_marked marks.now slot }
{
    marks.get(slot).copied().unwrap_or(1) != 0
}

/// Where the lanes that an instruction writes are marked.
#[derive(Drop)]
pub struct LaneMarks {
    /// By their slots in cells.
    coarse: Vec<u8>,
    /// By more slots, for the facts of one cell.
    fine: Vec<u8>,
}

/// What both functions write, with where its lanes are marked.
#[derive(Drop)]
pub struct MarkedWrites<'a> {
    /// What the first function writes.
    pub first: &'a [Write],
    /// What the second function writes.
    pub second: &'a [Write],
    /// The marks of the first function's lanes.
    pub first_marks: LaneMarks,
    /// The marks of the second function's lanes.
    pub second_marks: LaneMarks,
}

/// The marks of the lanes that are written, with so many slots in cells.
pub fn marks_for(alloc: Global, slots: u32, writes: &[Write]) -> Result<LaneMarks, AllocError>
    ensures { IfOk result (λ made. IsMarked slots made writes.now) }
{
    Ok(LaneMarks {
        coarse: marks_of(alloc, slots, writes)?,
        fine: marks_of(alloc, 256, writes)?,
    })
}

/// Whether the lane is none of those written.
fn is_unwritten(writes: &[Write], lane: Lane) -> bool
    ensures { result ≡ unwritten writes.now lane }
{
    for w in writes {
        if same_lane(w.lane, lane) {
            return false;
        }
    }
    true
}

/// Whether the writes leave a source as it is.
fn stays(writes: &[Write], source: &Source) -> bool
    ensures { result ≡ stays writes.now source.now }
{
    match source {
        Source::FromLane(l) => is_unwritten(writes, *l),
        Source::Undef => true,
        Source::Bits(_, _, _) => true,
    }
}

fn stays_both(first: &[Write], second: &[Write], fact: &Fact) -> bool
    ensures { result ≡ stays_both first.now second.now fact.now }
{
    stays(first, &fact.0) && stays(second, &fact.1)
}

/// The same as `stays`, without a look at the writes where the source isn't marked.
fn stays_by(slots: u32, marks: &LaneMarks, writes: &[Write], source: &Source) -> bool
    requires { IsMarked slots marks.now writes.now }
    ensures { result ≡ stays writes.now source.now }
{
    if !is_marked(marks.fine.as_slice(), source_slot(source, 256)) {
        return true;
    }
    stays(writes, source)
}

/// Whether the writes of both leave all facts as they are.
fn all_stay(slots: u32, writes: &MarkedWrites<'_>, facts: &[Fact]) -> bool
    requires first { IsMarked slots writes.now.first_marks writes.now.first.now }
    requires second { IsMarked slots writes.now.second_marks writes.now.second.now }
    ensures { result ≡ list_all (stays_both writes.now.first.now writes.now.second.now) facts.now }
{
    for f in facts {
        if !stays_by(slots, &writes.first_marks, writes.first, &f.0)
            || !stays_by(slots, &writes.second_marks, writes.second, &f.1)
        {
            return false;
        }
    }
    true
}

/// Takes the facts of a cell on written lanes, and answers the others. What doesn't count is dropped.
fn split(
    alloc: Global,
    slots: u32,
    first: &[Write],
    second: &[Write],
    cell: &FactBucket,
    taken: &mut Facts,
) -> Result<Facts, AllocError>
    ensures { IfOk result (λ kept. Splits (belongs slots cell.now) first.now second.now cell.now.facts taken.old kept taken.new) }
{
    let mut kept = List::new(alloc);
    for f in cell.facts.as_slice() {
        if !belongs(slots, cell, f) {
            continue;
        }
        if stays_both(first, second, f) {
            kept.push(f.copied(alloc)?)?;
        } else {
            taken.push(f.copied(alloc)?)?;
        }
    }
    Ok(kept)
}

/// Moves the facts of a cell on written lanes. A cell whose slots aren't marked isn't looked at.
pub fn take_from(
    alloc: Global,
    slots: u32,
    writes: &MarkedWrites<'_>,
    cell: &mut FactBucket,
    taken: &mut Facts,
) -> Result<(), AllocError>
    requires first { IsMarked slots writes.now.first_marks writes.now.first.now }
    requires second { IsMarked slots writes.now.second_marks writes.now.second.now }
    ensures { OnOk result (CellTakes slots writes.now.first.now writes.now.second.now cell.old taken.old cell.new taken.new) }
{
    let left = is_marked(writes.first_marks.coarse.as_slice(), cell.left);
    let right = is_marked(writes.second_marks.coarse.as_slice(), cell.right);
    if !left && !right {
        return Ok(());
    }
    if all_stay(slots, writes, cell.facts.as_slice()) {
        return Ok(());
    }
    cell.facts = split(alloc, slots, writes.first, writes.second, cell, taken)?;
    Ok(())
}
