//! Block splits: each block with several places gets a part of its own.

ghost use Rattle.std.specs.Prelude.{◌≡◌, ℕ, List, true, map, OnOk, IfOk, Some, slice_get, option_map};
ghost use Rattle.std.specs.List.{list_all};
ghost use Rattle.instr_effects.specs.Numbered.{number_in};
ghost use Rattle.instr_effects.specs.declared.owner.Owner.TheVariants as owners;
ghost use Rattle.live_lanes.specs.Looks.{InOrder};
ghost use Rattle.live_lanes.specs.Entered.{cells_of};
ghost use Rattle.live_lanes.specs.Touching.{some_lane};
ghost use Rattle.mir_meaning.specs.Points.{Point};
ghost use Rattle.split_choose.specs.Offers.{View, touched_places, block_marks, some_marks, block_offer};
ghost use Rattle.split_choose.specs.Seen.{ends_in_terminators, seen_live, view_of, FindsPlaces};
ghost use Rattle.split_choose.specs.Places.{placed};
ghost use Rattle.split_choose.specs.Blocks.{at_border, lane_at_border, some_at, is_at, is_second, block_labelled, labelled};

use crate::places::{TouchedPlace, gap_ids, places_of};
use crate::regions::add_mark;
use interference::Matrix;
use live_lanes::{Labels, LiveFunc};
use std::alloc::{AllocError, Global};

/// Whether a range is live at the start or the end of the block at a position.
fn is_at_border(live: &LiveFunc, v: u32, position: u32) -> bool
    ensures { InOrder live.now.table → result ≡ at_border live.now.table live.now.func.blocks v position }
{
    (position as usize) < live.func().blocks.len()
        && (live.is_live_into(v, position) || live.is_live_out_of(v, position))
}

/// The same of one of the blocks that a lane is in.
fn is_cell_at_border(live: &LiveFunc, v: u32, lane: u32, place: usize) -> bool
    ensures { InOrder live.now.table → result ≡ some_at (at_border live.now.table live.now.func.blocks v)
        (option_map (λ c. c.block) (slice_get (cells_of live.now.table.rows.rows.items lane) place)) }
{
    match live.cell_block(lane, place) {
        Some(position) => is_at_border(live, v, position),
        None => false,
    }
}

/// The same of any of them.
fn is_lane_at_border(live: &LiveFunc, v: u32, lane: u32) -> bool
    ensures { InOrder live.now.table → result ≡ lane_at_border live.now.table live.now.func.blocks v lane }
{
    'cells: for place in 0..live.cell_count(lane) {
        if is_cell_at_border(live, v, lane, place) {
            return true;
        }
    }
    false
}

/// The same of a lane of the range.
fn is_some_lane_at_border(live: &LiveFunc, v: u32, k: usize) -> bool
    ensures { InOrder live.now.table → result ≡ some_at (lane_at_border live.now.table live.now.func.blocks v) (number_in live.now.table.lanes (owners.Range v k)) }
{
    match live.lane_of(v, k) {
        Some(lane) => is_lane_at_border(live, v, lane),
        None => false,
    }
}

/// Whether a range is live at the start or the end of some block.
pub(crate) fn is_live_at_border(live: &LiveFunc, v: u32) -> bool
    ensures { InOrder live.now.table → result ≡ some_lane live.now.table v (lane_at_border live.now.table live.now.func.blocks v) }
{
    'lanes: for k in 0..live.lane_count(v) {
        if is_some_lane_at_border(live, v, k as usize) {
            return true;
        }
    }
    false
}

/// Labels so far, the last of them, and the positions of the last two places.
#[derive(Drop)]
struct LabelBuilder {
    labels: Labels,
    label: u16,
    last: Option<u32>,
    before: Option<u32>,
}

/// Whether that is the position.
fn is_at(at: Option<u32>, position: u32) -> bool
    ensures { result ≡ is_at at position }
{
    match at {
        Some(there) => there == position,
        None => false,
    }
}

impl LabelBuilder {
    /// Whether a place at a position is the second of its block.
    fn is_second(&self, position: u32) -> bool
        ensures { result ≡ is_second self.now position }
    {
        is_at(self.last, position) && !is_at(self.before, position)
    }

    /// Adds the label of the block at a position.
    fn add_block(&mut self, live: &LiveFunc, position: u32) -> Result<(), AllocError>
        ensures { OnOk result (list_all (λ b. ends_in_terminators live.now.target b.instrs) live.now.func.blocks ≡ true
            → self.new ≡ block_labelled live.now.target live.now.func.blocks self.old position) }
    {
        let (first, end) = gap_ids(live, position);
        self.label = self.label.saturating_add(1);
        add_mark(live, position, Some(first), self.label, &mut self.labels)?;
        add_mark(live, position, Some(end), 0, &mut self.labels)?;
        Ok(())
    }

    /// Meets a place. The block of the second one that isn't its terminators gets a label.
    fn meet(&mut self, live: &LiveFunc, place: TouchedPlace) -> Result<(), AllocError>
        ensures { OnOk result (list_all (λ b. ends_in_terminators live.now.target b.instrs) live.now.func.blocks ≡ true
            → self.new ≡ labelled live.now.target live.now.func.blocks self.old place) }
    {
        if place.is_end {
            return Ok(());
        }
        if self.is_second(place.position) {
            self.add_block(live, place.position)?;
        }
        self.before = self.last;
        self.last = Some(place.position);
        Ok(())
    }
}

/// Labels for the blocks with two or more of these places that aren't their terminators.
fn labels_of(alloc: Global, live: &LiveFunc, places: &[TouchedPlace]) -> Result<Labels, AllocError>
    ensures { IfOk result (λ ls. (v : ℕ) (view : View) → FindsPlaces live.now.target live.now.func live.now.table v
        → places.now ≡ map (placed live.now.func.blocks) (touched_places live.now.target live.now.func v view)
        → ls ≡ block_marks live.now.target live.now.func v view 0 live.now.func.blocks) }
{
    let mut all = LabelBuilder {
        labels: Labels::new(alloc),
        label: 0,
        last: None,
        before: None,
    };
    'places: for place in places {
        all.meet(live, *place)?;
    }
    Ok(all.labels)
}

/// The labels of the split, where some block gets one.
fn some_labels(
    alloc: Global,
    live: &LiveFunc,
    places: &[TouchedPlace],
) -> Result<Option<Labels>, AllocError>
    ensures { IfOk result (λ q. (v : ℕ) (view : View) → FindsPlaces live.now.target live.now.func live.now.table v
        → places.now ≡ map (placed live.now.func.blocks) (touched_places live.now.target live.now.func v view)
        → q ≡ some_marks live.now.target live.now.func v view (block_marks live.now.target live.now.func v view 0 live.now.func.blocks)) }
{
    let labels = labels_of(alloc, live, places)?;
    if labels.len() == 0 {
        return Ok(None);
    }
    Ok(Some(labels))
}

/// What `per_block` answers.
fn split_of(alloc: Global, live: &LiveFunc, v: u32) -> Result<Option<Labels>, AllocError>
    ensures { IfOk result (λ q. (view : View) → FindsPlaces live.now.target live.now.func live.now.table v
        → ((p : Point) → view.live p ≡ seen_live live.now.table live.now.func.blocks v p)
        → q ≡ block_offer live.now.target live.now.func v view) }
{
    let touched = live.touched(alloc, v)?;
    let places = places_of(alloc, live, touched.as_slice())?;
    if places.len() < 2 {
        return Ok(None);
    }
    if !is_live_at_border(live, v) {
        return Ok(None);
    }
    let labels = some_labels(alloc, live, places.as_slice())?;
    Ok(labels)
}

/// The split in which each block with two or more places that aren't its terminators gets a label
/// of its own, from its first gap to before its first terminator. None exactly where it isn't
/// offered.
pub fn per_block(alloc: Global, m: &Matrix, v: u32) -> Result<Option<Labels>, AllocError>
    ensures { IfOk result (λ q. (parents : List ℕ) → FindsPlaces m.now.live.target m.now.live.func m.now.live.table v
        → q ≡ block_offer m.now.live.target m.now.live.func v (view_of m.now v parents)) }
{
    let labels = split_of(alloc, m.live(), v)?;
    Ok(labels)
}
