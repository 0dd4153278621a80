//! Going through the blocks in which a range is touched or a label begins.

ghost use Rattle.std.specs.Prelude.{◌≡◌, ◌++◌, List, ℕ, Bool, true, false, flat_map, length, take, drop, not, min, position, slice_get, slice_index, Some, IfOk, OnOk};
ghost use Rattle.std.specs.Ordering.{nat_cmp};
ghost use Rattle.std.specs.BTreeMap.{get};
ghost use Rattle.mir_meaning.specs.Points.{Point};
ghost use Rattle.live_lanes.specs.Tells.{touching_ids};
ghost use Rattle.live_edits.specs.Runs.{edits_of};
ghost use Rattle.split_kit.specs.PartEdits.{ShowsParts, split_edits};
ghost use Rattle.split_kit.specs.BlockWalk.{earlier, first_home, how_many, instr_home, is_elsewhere, mark_home};

use crate::part_edits::{SplitView, add_block, split_slice};
use live_edits::Edit;
use live_lanes::{LiveFunc, Mark};
use std::alloc::AllocError;

/// The position of the block in which the first of these instructions stands.
fn first_instr(live: &LiveFunc, ids: &[u32]) -> Option<u32>
    ensures { result ≡ first_home (instr_home live.now.table) ids.now }
{
    match ids.first() {
        Some(id) => Some(live.position_of(*id)),
        None => None,
    }
}

/// The position of the block in which the first of these marks stands.
fn first_mark(live: &LiveFunc, marks: &[Mark]) -> Option<u32>
    ensures { result ≡ first_home (mark_home live.now.table) marks.now }
{
    match marks.first() {
        Some(mark) => live.block_position(mark.block),
        None => None,
    }
}

/// The smaller one of those that are there.
fn earlier(a: Option<u32>, b: Option<u32>) -> Option<u32>
    ensures { result ≡ earlier a b }
{
    match a {
        None => b,
        Some(p) => match b {
            None => a,
            Some(q) => Some(p.min(q)),
        },
    }
}

/// The position of the first block in layout in which one of these instructions or marks stands.
fn next_block(live: &LiveFunc, ids: &[u32], marks: &[Mark]) -> Option<u32>
    ensures { result ≡ earlier (first_home (instr_home live.now.table) ids.now) (first_home (mark_home live.now.table) marks.now) }
{
    earlier(first_instr(live, ids), first_mark(live, marks))
}

/// Whether there is no such position, or another one.
fn is_elsewhere(position: u32, home: Option<u32>) -> bool
    ensures { result ≡ is_elsewhere position home }
{
    match home {
        None => true,
        Some(p) => p != position,
    }
}

/// The place of the first of these instructions that doesn't stand in the block at a position.
fn other_instr(live: &LiveFunc, ids: &[u32], block: u32) -> Option<usize>
    ensures { result ≡ position (λ id. is_elsewhere block (instr_home live.now.table id)) ids.now }
{
    ids.iter()
        .position(|id| is_elsewhere(block, Some(live.position_of(*id))))
}

/// The same of marks.
fn other_mark(live: &LiveFunc, marks: &[Mark], block: u32) -> Option<usize>
    ensures { result ≡ position (λ m. is_elsewhere block (mark_home live.now.table m)) marks.now }
{
    marks.iter().position(|mark| is_elsewhere(block, live.block_position(mark.block)))
}

/// How many of the first instructions stand in the block at a position.
fn instrs_in(live: &LiveFunc, ids: &[u32], block: u32) -> usize
    ensures { result ≡ how_many (instr_home live.now.table) block ids.now }
{
    match other_instr(live, ids, block) {
        Some(place) => place,
        None => ids.len(),
    }
}

/// How many of the first marks stand in the block at a position.
fn marks_in(live: &LiveFunc, marks: &[Mark], block: u32) -> usize
    ensures { result ≡ how_many (mark_home live.now.table) block marks.now }
{
    match other_mark(live, marks, block) {
        Some(place) => place,
        None => marks.len(),
    }
}

/// The edits that split a range, where these are the ids of the instructions that touch it, and the
/// marks of its labels. A block with neither needs none.
pub(crate) fn all_edits(
    view: SplitView<'_>,
    touched: &[u32],
    marks: &[Mark],
) -> Result<Vec<Edit>, AllocError>
    ensures { let live = view.entry.live.now in
        IfOk result (λ edits. (test : Point → Bool) → ShowsParts live.table live.func view.entry.v marks.now test → touched.now ≡ touching_ids live.func view.entry.v
        → edits_of edits.items ≡ split_edits test live.func view.entry.v marks.now) }
{
    let room = touched.len().saturating_add(marks.len());
    let mut edits = Vec::with_capacity(view.alloc, room)?;
    let mut ids_left = touched;
    let mut marks_left = marks;
    'walk: while let Some(block) = next_block(view.live, ids_left, marks_left) {
        let (ids, ids_behind) = split_slice(ids_left, instrs_in(view.live, ids_left, block));
        let (here, marks_behind) = split_slice(marks_left, marks_in(view.live, marks_left, block));
        add_block(view, block, ids, here, &mut edits)?;
        ids_left = ids_behind;
        marks_left = marks_behind;
    }
    Ok(edits)
}
