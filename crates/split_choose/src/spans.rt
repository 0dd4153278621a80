//! A range block by block: where it has points, where it is live at borders, and what its
//! instructions cost.

ghost use Rattle.std.specs.Prelude.{◌≡◌, ◌<◌, ◌++◌, ◌||◌, ◌∷◌, ℕ, Bool, true, List, [], Some, cond, nat_eq, map, fold, length, OnOk, IfOk, IfSome, slice_get, slice_index_or};
ghost use Rattle.std.specs.Ordering.{nat_cmp};
ghost use Rattle.std.specs.List.{list_any};
ghost use Rattle.std.specs.List.Sorted.{IsStrictlySortedBy};
ghost use Rattle.live_lanes.specs.declared.ask.extent.Stretch.{Stretch as StretchValue};
ghost use Rattle.live_lanes.specs.Entered.{cells_of};
ghost use Rattle.live_lanes.specs.Extents.{lanes_count};
ghost use Rattle.live_lanes.specs.Looks.{InOrder};
ghost use Rattle.live_lanes.specs.Touching.{FindsInstrs};
ghost use Rattle.live_lanes.specs.Tells.{touching_ids};
ghost use Rattle.interference.specs.declared.matrix.Matrix.{Matrix as MatrixValue};
ghost use Rattle.interference.specs.Clashes.{IsOrdered};
ghost use Rattle.split_choose.specs.Seen.{FindsPlaces, FindsPoints};
ghost use Rattle.split_choose.specs.Places.{Site, IsSite, AreSites, site_id};
ghost use Rattle.split_choose.specs.Spans.{AreStretches, is_held_in, is_alone};
ghost use Rattle.split_choose.specs.Spanned.{AreSpansOf};
ghost use Rattle.split_choose.specs.Built.{Told, told, Rise, span_place, blank, cell_stretches, cells_stretches, range_stretches, stretched, with_stretches, counted, used, filled, lane_positions, range_positions};

use block_freq::{Freqs, operand_count};
use interference::Matrix;
use live_lanes::{LiveFunc, Stretch};
use mir_func::Instr;
use mir_func::opcodes::is_terminator;
use std::alloc::{AllocError, Global};
use target_base::{Reg, Target, Unit};

/// A range in one block.
#[derive(Drop)]
pub(crate) struct Span {
    /// The block's position in the layout.
    pub position: u32,
    /// The points of the lanes.
    pub stretches: Vec<Stretch>,
    /// Whether some lane is live at the block's start, and at its end.
    pub is_live_in: bool,
    pub is_live_out: bool,
    /// The block's frequency.
    pub frequency: u128,
    /// Frequency times operands over the instructions that touch the range, and over the
    /// terminators among them.
    pub uses: u128,
    pub end_uses: u128,
}

/// Whether a stretch stands at a place among others.
fn stands_at(stretches: &[Stretch], place: usize, stretch: Stretch) -> bool
    ensures { result ≡ true → slice_get stretches.now place ≡ Some stretch }
{
    match stretches.get(place) {
        Some(there) => there.first == stretch.first && there.last == stretch.last,
        None => false,
    }
}

/// Adds a stretch, unless it stands at its place already.
fn join(stretches: &mut Vec<Stretch>, place: usize, stretch: Stretch) -> Result<(), AllocError>
    ensures { OnOk result ((p : StretchValue → Bool) → list_any p stretches.new.items ≡ (list_any p stretches.old.items || list_any p (stretch ∷ []))) }
{
    if stands_at(stretches.as_slice(), place, stretch) {
        return Ok(());
    }
    stretches.push(stretch)?;
    Ok(())
}

/// Adds the points of a lane in one of the blocks that it is in. The lanes of a range mostly have
/// the same ones, and what stands at its place already isn't added again.
fn add_stretches(
    live: &LiveFunc,
    lane: u32,
    place: usize,
    stretches: &mut Vec<Stretch>,
) -> Result<(), AllocError>
    ensures { OnOk result ((p : StretchValue → Bool) → list_any p stretches.new.items
        ≡ (list_any p stretches.old.items || list_any p (cell_stretches live.now.table.order.slots (slice_get (cells_of live.now.table.rows.rows.items lane) place)))) }
{
    let mut count: usize = 0;
    'pieces: for index in 0..live.piece_count(lane, place) {
        if let Some(extent) = live.extent(lane, place, index) {
            join(stretches, count, extent.stretch(live.slots()))?;
            count = count.saturating_add(1);
        }
    }
    Ok(())
}

/// Adds the points of a lane in the block of a span.
fn stretch_span(live: &LiveFunc, lane: u32, place: usize, span: &mut Span) -> Result<(), AllocError>
    ensures { OnOk result (told span.new ≡ stretched (cell_stretches live.now.table.order.slots (slice_get (cells_of live.now.table.rows.rows.items lane) place)) (told span.old)) }
{
    add_stretches(live, lane, place, &mut span.stretches)?;
    Ok(())
}

/// The range in a block, without points and uses.
fn empty_span(alloc: Global, live: &LiveFunc, v: u32, position: u32, frequency: u64) -> Span
    ensures { InOrder live.now.table → told result ≡ blank live.now v frequency position }
{
    Span {
        position,
        stretches: Vec::new(alloc),
        is_live_in: live.is_live_into(v, position),
        is_live_out: live.is_live_out_of(v, position),
        frequency: frequency as u128,
        uses: 0,
        end_uses: 0,
    }
}

/// The frequency of the block at a position.
fn frequency_of(freqs: &[u64], position: u32) -> u64
    ensures { result ≡ slice_index_or freqs.now position 0 }
{
    freqs.get(position as usize).copied().unwrap_or(0)
}

/// Adds the positions of the blocks in which a lane is named or live.
fn add_positions(live: &LiveFunc, lane: u32, positions: &mut Vec<u32>) -> Result<(), AllocError>
    ensures { OnOk result (positions.new.items ≡ positions.old.items ++ lane_positions live.now.table (Some lane)) }
{
    'cells: for place in 0..live.cell_count(lane) {
        if let Some(position) = live.cell_block(lane, place) {
            positions.push(position)?;
        }
    }
    Ok(())
}

/// The positions of the blocks in which lanes of a range are named or live, lane by lane.
fn all_positions(alloc: Global, live: &LiveFunc, v: u32) -> Result<Vec<u32>, AllocError>
    ensures { IfOk result (λ ps. ps.items ≡ range_positions live.now.table v (lanes_count (slice_get live.now.table.lanes.ranges.items v))) }
{
    let mut positions = Vec::new(alloc);
    'lanes: for k in 0..live.lane_count(v) as usize {
        if let Some(lane) = live.lane_of(v, k) {
            add_positions(live, lane, &mut positions)?;
        }
    }
    Ok(positions)
}

/// The positions of the blocks in which lanes of a range are named or live, in order.
fn positions_of(alloc: Global, live: &LiveFunc, v: u32) -> Result<Vec<u32>, AllocError>
    ensures order { IfOk result (λ ps. IsStrictlySortedBy nat_cmp ps.items) }
    ensures all { IfOk result (λ ps. (k : ℕ) → list_any (nat_eq k) ps.items ≡ list_any (nat_eq k) (range_positions live.now.table v (lanes_count (slice_get live.now.table.lanes.ranges.items v)))) }
{
    let mut positions = all_positions(alloc, live, v)?;
    // (those of each lane fall, and a stable sort merges such runs)
    positions.sort()?;
    positions.dedup();
    Ok(positions)
}

/// The place of the span of a block.
pub(crate) fn find_span(spans: &[Span], position: u32) -> Option<usize>
    ensures within { IfSome result (λ place. place < length spans.now) }
    ensures place { Rise spans.now → result ≡ span_place position spans.now }
{
    let place = spans.partition_point(|span| span.position < position);
    match spans.get(place) {
        Some(span) if span.position == position => Some(place),
        _ => None,
    }
}

/// Adds the points of a lane in the block at a position.
fn add_cell(
    live: &LiveFunc,
    lane: u32,
    place: usize,
    position: u32,
    spans: &mut [Span],
) -> Result<(), AllocError>
    ensures { OnOk result (Rise spans.old → map told spans.new ≡ map (with_stretches (λ k. cond (nat_eq k position) (cell_stretches live.now.table.order.slots (slice_get (cells_of live.now.table.rows.rows.items lane) place)) [])) (map told spans.old)) }
{
    if let Some(at) = find_span(spans, position) {
        stretch_span(live, lane, place, &mut spans[at])?;
    }
    Ok(())
}

/// Adds the points of a lane in all its blocks.
fn add_lane(live: &LiveFunc, lane: u32, spans: &mut [Span]) -> Result<(), AllocError>
    ensures { OnOk result (Rise spans.old → map told spans.new ≡ map (with_stretches (cells_stretches live.now.table.order.slots (cells_of live.now.table.rows.rows.items lane))) (map told spans.old)) }
{
    'cells: for place in 0..live.cell_count(lane) {
        if let Some(position) = live.cell_block(lane, place) {
            add_cell(live, lane, place, position, spans)?;
        }
    }
    Ok(())
}

/// Adds the points of all lanes of a range.
fn add_lanes(live: &LiveFunc, v: u32, spans: &mut [Span]) -> Result<(), AllocError>
    ensures { OnOk result (Rise spans.old → map told spans.new ≡ map (with_stretches (range_stretches live.now.table v (lanes_count (slice_get live.now.table.lanes.ranges.items v)))) (map told spans.old)) }
{
    'lanes: for k in 0..live.lane_count(v) as usize {
        if let Some(lane) = live.lane_of(v, k) {
            add_lane(live, lane, spans)?;
        }
    }
    Ok(())
}

/// Adds the uses of an instruction to a span.
fn count_uses(target: &Target, instr: &Instr, v: u32, span: &mut Span)
    ensures { told span.new ≡ counted target.now v instr.now (told span.old) }
{
    let uses = span
        .frequency
        .saturating_mul(operand_count(instr, v) as u128);
    span.uses = span.uses.saturating_add(uses);
    if is_terminator(target, instr) {
        span.end_uses = span.end_uses.saturating_add(uses);
    }
}

/// Adds the uses of an instruction to the span of the block at its position.
fn add_uses_at(target: &Target, instr: &Instr, v: u32, position: u32, spans: &mut [Span])
    ensures { Rise spans.old → map told spans.new ≡ map (λ s. cond (nat_eq s.position position) (counted target.now v instr.now s) s) (map told spans.old) }
{
    if let Some(at) = find_span(spans, position) {
        count_uses(target, instr, v, &mut spans[at]);
    }
}

/// Adds the uses of an instruction to the span of its block.
fn add_uses(live: &LiveFunc, v: u32, id: u32, spans: &mut [Span])
    ensures { FindsInstrs live.now.table live.now.func.blocks → (s : Site) → IsSite live.now.target live.now.func.blocks s → site_id s ≡ id → Rise spans.old
        → map told spans.new ≡ map (used live.now.target v s) (map told spans.old) }
{
    if let Some(instr) = live.instr(id) {
        add_uses_at(live.target(), instr, v, live.position_of(id), spans);
    }
}

/// Adds the uses of the instructions that touch a range.
fn add_touched(live: &LiveFunc, v: u32, touched: &[u32], spans: &mut [Span])
    ensures { FindsInstrs live.now.table live.now.func.blocks → (ss : List Site) → AreSites live.now.target live.now.func.blocks ss → map site_id ss ≡ touched.now → Rise spans.old
        → map told spans.new ≡ fold (λ ts s. map (used live.now.target v s) ts) (map told spans.old) ss }
{
    'touched: for id in touched {
        add_uses(live, v, *id, spans);
    }
}

/// The blocks at these positions, without points and uses.
fn empty_spans(
    alloc: Global,
    live: &LiveFunc,
    v: u32,
    freqs: &[u64],
    positions: &[u32],
) -> Result<Vec<Span>, AllocError>
    ensures { IfOk result (λ ss. InOrder live.now.table → map told ss.items ≡ map (λ k. blank live.now v (slice_index_or freqs.now k 0) k) positions.now) }
{
    let mut spans = Vec::new(alloc);
    'positions: for position in positions {
        let frequency = frequency_of(freqs, *position);
        spans.push(empty_span(alloc, live, v, *position, frequency))?;
    }
    Ok(spans)
}

/// Adds the points of all lanes of a range, and the uses of the instructions that touch it.
fn fill(live: &LiveFunc, v: u32, touched: &[u32], spans: &mut [Span]) -> Result<(), AllocError>
    ensures { OnOk result (FindsInstrs live.now.table live.now.func.blocks → (ss : List Site) → AreSites live.now.target live.now.func.blocks ss → map site_id ss ≡ touched.now → Rise spans.old
        → map told spans.new ≡ filled live.now v ss (map told spans.old)) }
{
    add_lanes(live, v, spans)?;
    add_touched(live, v, touched, spans);
    Ok(())
}

/// A range block by block, in layout order. Blocks without points of it are among them.
pub(crate) fn spans_of(
    alloc: Global,
    live: &LiveFunc,
    v: u32,
    freqs: &Freqs,
    touched: &[u32],
) -> Result<Vec<Span>, AllocError>
    ensures { IfOk result (λ ss. (m : MatrixValue) → m.live ≡ live.now → FindsPlaces live.now.target live.now.func live.now.table v → FindsPoints m
        → touched.now ≡ touching_ids live.now.func v → AreSpansOf m v freqs.now ss.items) }
{
    let positions = positions_of(alloc, live, v)?;
    let mut spans = empty_spans(alloc, live, v, freqs.as_slice(), positions.as_slice())?;
    fill(live, v, touched, spans.as_mut_slice())?;
    Ok(spans)
}

/// Whether a unit is held by anything but a range at some of these points.
#[tactic(auto, using(crate::proofs::Walks::anys))]
fn is_held_in(m: &Matrix, v: u32, u: Unit, position: u32, stretches: &[Stretch]) -> bool
    ensures { IsOrdered m.now → AreStretches stretches.now → result ≡ is_held_in m.now v position stretches.now u }
{
    'stretches: for at in stretches {
        if m.is_held_along(u, v, position, *at) {
            return true;
        }
    }
    false
}

/// Whether no unit of a register is held by anything but a range at some of these points.
#[tactic(auto, using(crate::proofs::Walks::anys))]
pub(crate) fn is_alone(m: &Matrix, v: u32, r: Reg, position: u32, stretches: &[Stretch]) -> bool
    ensures { IsOrdered m.now → AreStretches stretches.now → result ≡ is_alone m.now v r position stretches.now }
{
    'units: for u in m.live().target().units_at(r) {
        if is_held_in(m, v, *u, position, stretches) {
            return false;
        }
    }
    true
}
