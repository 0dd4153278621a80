//! The places that touch a range.

ghost use Rattle.std.specs.Prelude.{◌≡◌, ℕ, List, [], true, drop, filter, map, fold, OnOk, IfOk, Some, option_copied, slice_get};
ghost use Rattle.std.specs.List.{list_all};
ghost use Rattle.mir_func.specs.declared.func.Block.{Block};
ghost use Rattle.mir_func.specs.declared.func.Instr.{Instr};
ghost use Rattle.mir_func.specs.Edits.{block_place};
ghost use Rattle.mir_func.specs.Binding.{does, is_terminator};
ghost use Rattle.live_lanes.specs.Touching.{FindsInstrs};
ghost use Rattle.live_lanes.specs.Tells.{touching_ids};
ghost use Rattle.split_choose.specs.Offers.{View, first_id, last_id, touched_places};
ghost use Rattle.split_choose.specs.Seen.{ends_in_terminators, FindsPlaces};
ghost use Rattle.split_choose.specs.Places.{joined, is_ended_at, ending, single, place_in, place_at, placed, Site, IsSite, AreSites, site_id};

use live_lanes::LiveFunc;
use mir_func::opcodes::is_terminator;
use mir_func::{Block, Instr};
use std::alloc::{AllocError, Global};
use target_base::{Boxed, Target};

/// A place that touches a range: an instruction, or the terminators of a block together.
#[derive(Clone, Copy, PartialEq, Eq)]
pub(crate) struct TouchedPlace {
    /// The block's position in the layout.
    pub position: u32,
    /// The instruction, or the first terminator.
    pub first: u32,
    /// The instruction, or the last terminator.
    pub last: u32,
    /// Whether it is that of terminators.
    pub is_end: bool,
}

/// The place of the first of the terminators at the end of a block, or the block's end.
#[tactic(auto, using(crate::proofs::Ends::ends))]
pub(crate) fn first_terminator(target: &Target, instrs: &[Boxed<Instr>]) -> usize
    ensures { ends_in_terminators target.now instrs.now ≡ true → drop result instrs.now ≡ filter (does is_terminator target.now) instrs.now }
{
    let mut first = instrs.len();
    'ends: while first > 0 && is_terminator(target, instrs[first - 1].get()) {
        first -= 1;
    }
    first
}

/// Whether the last place is that of the terminators of the block at a position.
fn is_ended_at(places: &[TouchedPlace], position: u32) -> bool
    ensures { result ≡ is_ended_at position places.now }
{
    match places.last() {
        Some(place) => place.is_end && place.position == position,
        None => false,
    }
}

/// Puts a place behind the others, unless it is that of terminators and stands there already.
fn join(places: &mut Vec<TouchedPlace>, place: TouchedPlace) -> Result<(), AllocError>
    ensures { OnOk result (places.new.items ≡ joined places.old.items place) }
{
    if place.is_end && is_ended_at(places.as_slice(), place.position) {
        return Ok(());
    }
    places.push(place)?;
    Ok(())
}

/// The block at a position.
pub(crate) fn block_at(live: &LiveFunc, position: u32) -> Option<&Block>
    ensures { option_copied result ≡ slice_get live.now.func.blocks position }
{
    live.func().blocks.as_slice().get(position as usize)
}

/// The first of the terminators at the end of these instructions; none where there is none.
#[tactic(auto, using(crate::proofs::Ends::firsts))]
fn end_in(target: &Target, instrs: &[Boxed<Instr>]) -> Option<u32>
    ensures { ends_in_terminators target.now instrs.now ≡ true → result ≡ first_id (filter (does is_terminator target.now) instrs.now) }
{
    let first = first_terminator(target, instrs);
    if first >= instrs.len() {
        return None;
    }
    Some(instrs[first].get().id)
}

/// The last of these instructions; without any the one of an id.
#[tactic(auto, using(crate::proofs::Ends::lasts))]
fn last_in(instrs: &[Boxed<Instr>], id: u32) -> u32
    ensures { result ≡ last_id id instrs.now }
{
    match instrs.last() {
        Some(last) => last.get().id,
        None => id,
    }
}

/// The first of the terminators at the end of the block at a position; none where it has none.
pub(crate) fn end_of(live: &LiveFunc, position: u32) -> Option<u32>
    ensures { (b : Block) → slice_get live.now.func.blocks position ≡ Some b → ends_in_terminators live.now.target b.instrs ≡ true
        → result ≡ first_id (filter (does is_terminator live.now.target) b.instrs) }
{
    let block = block_at(live, position)?;
    end_in(live.target(), block.instrs.as_slice())
}

/// The first of these instructions.
fn first_of(instrs: &[Boxed<Instr>]) -> Option<u32>
    ensures { result ≡ first_id instrs.now }
{
    match instrs.first() {
        Some(instr) => Some(instr.get().id),
        None => None,
    }
}

/// The instruction that the block at a position begins with.
fn start_of(live: &LiveFunc, position: u32) -> Option<u32>
    ensures { (b : Block) → slice_get live.now.func.blocks position ≡ Some b → result ≡ first_id b.instrs }
{
    let block = block_at(live, position)?;
    first_of(block.instrs.as_slice())
}

/// The instruction that a block begins with, and the one before which its terminators begin.
pub(crate) fn gap_ids(live: &LiveFunc, position: u32) -> (Option<u32>, Option<u32>)
    ensures first { (b : Block) → slice_get live.now.func.blocks position ≡ Some b → result.0 ≡ first_id b.instrs }
    ensures end { (b : Block) → slice_get live.now.func.blocks position ≡ Some b → ends_in_terminators live.now.target b.instrs ≡ true
        → result.1 ≡ first_id (filter (does is_terminator live.now.target) b.instrs) }
{
    (start_of(live, position), end_of(live, position))
}

/// The place of the terminators at the end of a block, of which one has the id.
fn terminators_place(
    target: &Target,
    position: u32,
    instrs: &[Boxed<Instr>],
    id: u32,
) -> TouchedPlace
    ensures { (i : Instr) → i.id ≡ id → ends_in_terminators target.now instrs.now ≡ true → result ≡ ending target.now position instrs.now i }
{
    TouchedPlace {
        position,
        first: end_in(target, instrs).unwrap_or(id),
        last: last_in(instrs, id),
        is_end: true,
    }
}

/// The place to which an instruction belongs.
fn place_of(live: &LiveFunc, id: u32) -> Option<TouchedPlace>
    ensures { FindsInstrs live.now.table live.now.func.blocks → (s : Site) → IsSite live.now.target live.now.func.blocks s → site_id s ≡ id
        → result ≡ Some (place_at live.now.target s) }
{
    let instr = live.instr(id)?;
    let position = live.position_of(id);
    if !is_terminator(live.target(), instr) {
        return Some(TouchedPlace {
            position,
            first: id,
            last: id,
            is_end: false,
        });
    }
    let block = block_at(live, position)?;
    Some(terminators_place(live.target(), position, block.instrs.as_slice(), id))
}

/// Adds the place to which an instruction belongs.
fn add_place(live: &LiveFunc, id: u32, places: &mut Vec<TouchedPlace>) -> Result<(), AllocError>
    ensures { OnOk result (FindsInstrs live.now.table live.now.func.blocks → (s : Site) → IsSite live.now.target live.now.func.blocks s → site_id s ≡ id
        → places.new.items ≡ joined places.old.items (place_at live.now.target s)) }
{
    if let Some(place) = place_of(live, id) {
        join(places, place)?;
    }
    Ok(())
}

/// The places of instructions, in order, each once.
pub(crate) fn places_of(
    alloc: Global,
    live: &LiveFunc,
    touched: &[u32],
) -> Result<Vec<TouchedPlace>, AllocError>
    ensures { IfOk result (λ ps. (v : ℕ) (view : View) → FindsPlaces live.now.target live.now.func live.now.table v → touched.now ≡ touching_ids live.now.func v
        → ps.items ≡ map (placed live.now.func.blocks) (touched_places live.now.target live.now.func v view)) }
{
    let mut places = Vec::new(alloc);
    'touched: for id in touched {
        add_place(live, *id, &mut places)?;
    }
    Ok(places)
}
