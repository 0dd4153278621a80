//! Which definitions of a range reach which of its readings, lane by lane.

ghost use Rattle.std.specs.Prelude.{◌≡◌, ◌⊎◌, ◌↔◌, ◌<◌, ◌++◌, ◌∷◌, [], ℕ, true, cond, map, flat_map, length, nat_eq, slice_get, IfOk, OnOk};
ghost use Rattle.live_lanes.specs.Looks.{InOrder};
ghost use Rattle.live_lanes.specs.Touching.{ReadsInOrder};
ghost use Rattle.live_lanes.specs.Ways.{successors as ways_behind};
ghost use Rattle.mir_meaning.specs.Paths.{has};
ghost use Rattle.live_lanes.specs.Extents.{lanes_count};
ghost use Rattle.live_lanes.specs.Touching.{AreTouched};
ghost use Rattle.mir_meaning.specs.Points.{Tests};
ghost use Rattle.spiller.specs.MaySpill.{MaySpill};
ghost use Rattle.spiller.specs.Reaching.{Reaches};
ghost use Rattle.spiller.specs.Readings.{TellConstants, TellsConstant};
ghost use Rattle.spiller.specs.Walks.{touch_of, touches_at, touches_in, dead_at, seen, keeps, rest_behind, Spreads, Enters, reached_at, AddsTouch, IsFlow, HasFlows, AddsSeen, AreReached, FlowsTo, ListsFlows, lists, told_by};

use crate::plan::SpillView;
use crate::remat::is_repeatable_id;
use std::alloc::{AllocError, Global};
use std::collections::BTreeSet;

/// What an instruction does to a lane of the range.
#[derive(Clone, Copy, PartialEq, Eq)]
pub(crate) struct LaneTouch {
    /// The instruction.
    pub id: u32,
    /// Whether it reads the lane.
    pub reads: bool,
    /// Whether it writes the lane.
    pub writes: bool,
}

/// What the instructions of a block that touch the range do to a lane, in order.
#[derive(Drop)]
pub(crate) struct BlockTouches {
    pub list: Vec<LaneTouch>,
}

/// How a lane of the range flows through the blocks.
#[derive(Drop)]
pub(crate) struct LaneFlow {
    /// The lane's number.
    pub lane: u32,
    /// What is done to it in each block.
    pub blocks: Vec<BlockTouches>,
    /// Whether it is dead at the start of each block.
    pub dead: Vec<bool>,
}

/// A reading of a lane by an instruction.
#[derive(Clone, Copy, PartialEq, Eq, PartialOrd, Ord)]
pub(crate) struct LaneReading {
    pub lane: usize,
    pub by: u32,
}

/// An instruction that touches the range, and what its definitions of lanes reach.
#[derive(Drop)]
pub(crate) struct Definition {
    pub id: u32,
    /// Whether the instruction is a constant or an address, which alone is repeated.
    pub is_constant: bool,
    pub reached: BTreeSet<LaneReading>,
}

/// What an instruction does to a lane of the range.
fn touch_of(view: SpillView<'_>, lane: u32, id: u32) -> LaneTouch
    ensures { InOrder view.entry.live.now.table → ReadsInOrder view.entry.live.now.table → result ≡ touch_of view.entry.live.now.table view.entry.v lane id }
{
    LaneTouch {
        id,
        reads: view.live.is_read(view.v, lane, id),
        writes: view.live.is_written(view.v, lane, id),
    }
}

/// What is done to a lane in the block at a position.
fn touches_at(blocks: &[BlockTouches], position: u32) -> &[LaneTouch]
    ensures { result.now ≡ touches_at blocks.now position }
{
    match blocks.get(position as usize) {
        Some(block) => block.list.as_slice(),
        None => &[],
    }
}

/// So many blocks in which nothing is done.
fn no_touches(alloc: Global, count: usize) -> Result<Vec<BlockTouches>, AllocError>
    ensures count { IfOk result (λ bs. length bs.items ≡ count) }
    ensures none { IfOk result (λ bs. (p : ℕ) → touches_at bs.items p ≡ []) }
{
    let mut blocks = Vec::new(alloc);
    'blocks: for _ in 0..count {
        blocks.push(BlockTouches {
            list: Vec::new(alloc),
        })?;
    }
    Ok(blocks)
}

/// Adds what an instruction does behind the others of its block.
fn add_touch(
    blocks: &mut Vec<BlockTouches>,
    position: u32,
    touch: LaneTouch,
) -> Result<(), AllocError>
    ensures { OnOk result (AddsTouch blocks.old.items blocks.new.items position touch) }
{
    let place = position as usize;
    if place >= blocks.len() {
        return Ok(());
    }
    blocks[place].list.push(touch)?;
    Ok(())
}

/// What the instructions that touch the range do to a lane, block by block.
fn touches_of(
    view: SpillView<'_>,
    lane: u32,
    touched: &[u32],
) -> Result<Vec<BlockTouches>, AllocError>
    ensures { IfOk result (λ bs. InOrder view.entry.live.now.table → ReadsInOrder view.entry.live.now.table → (p : ℕ) → p < length view.entry.live.now.func.blocks → touches_at bs.items p ≡ touches_in view.entry.live.now.table view.entry.v lane touched.now p) }
{
    let mut blocks = no_touches(view.alloc, view.live.func().blocks.len())?;
    'touched: for id in touched {
        let touch = touch_of(view, lane, *id);
        add_touch(&mut blocks, view.live.position_of(*id), touch)?;
    }
    Ok(blocks)
}

/// Whether a lane is dead at the start of each block.
fn dead_starts(view: SpillView<'_>, lane: u32) -> Result<Vec<bool>, AllocError>
    ensures { IfOk result (λ ds. ds.items ≡ map (dead_at view.entry.live.now.table view.entry.v lane) view.entry.live.now.func.blocks) }
{
    let mut dead = Vec::new(view.alloc);
    'blocks: for block in view.live.func().blocks.as_slice() {
        dead.push(!view.live.live_at(view.v, lane as usize, block.number))?;
    }
    Ok(dead)
}

/// How a lane flows through the blocks.
fn flow_of(view: SpillView<'_>, lane: u32, touched: &[u32]) -> Result<LaneFlow, AllocError>
    ensures lane { IfOk result (λ flow. flow.lane ≡ lane) }
    ensures flow { IfOk result (IsFlow view.entry.live.now.table view.entry.live.now.func.blocks view.entry.v touched.now) }
{
    Ok(LaneFlow {
        lane,
        blocks: touches_of(view, lane, touched)?,
        dead: dead_starts(view, lane)?,
    })
}

/// Whether none of these instructions writes the lane.
fn keeps(touches: &[LaneTouch]) -> bool
    ensures { result ≡ keeps touches.now }
{
    'touches: for touch in touches {
        if touch.writes {
            return false;
        }
    }
    true
}

/// What is done behind an instruction of a block.
fn rest_behind(touches: &[LaneTouch], id: u32) -> &[LaneTouch]
    ensures { result.now ≡ rest_behind id touches.now }
{
    let mut rest = touches;
    'touches: while let [touch, behind @ ..] = rest {
        rest = behind;
        if touch.id == id {
            break;
        }
    }
    rest
}

/// Lets a lane's value reach the start of a block, where it isn't known to do so and the lane isn't
/// dead.
fn enter(starts: &mut Vec<bool>, work: &mut Vec<u32>, next: u32) -> Result<(), AllocError>
    ensures { OnOk result (Spreads starts.old.items work.old.items starts.new.items work.new.items (next ∷ [])) }
{
    let place = next as usize;
    if place >= starts.len() || starts[place] {
        return Ok(());
    }
    starts[place] = true;
    work.push(next)?;
    Ok(())
}

/// Lets it reach the starts of these blocks.
fn enter_all(starts: &mut Vec<bool>, work: &mut Vec<u32>, nexts: &[u32]) -> Result<(), AllocError>
    ensures { OnOk result (Spreads starts.old.items work.old.items starts.new.items work.new.items nexts.now) }
{
    'nexts: for next in nexts {
        enter(starts, work, *next)?;
    }
    Ok(())
}

/// Lets it leave a block, unless the rest of this writes the lane.
fn leave(
    view: SpillView<'_>,
    position: u32,
    rest: &[LaneTouch],
    starts: &mut Vec<bool>,
    work: &mut Vec<u32>,
) -> Result<(), AllocError>
    ensures { OnOk result (Spreads starts.old.items work.old.items starts.new.items work.new.items (cond (keeps rest.now) (ways_behind view.entry.live.now.table.flow.items position) [])) }
{
    if !keeps(rest) {
        return Ok(());
    }
    enter_all(starts, work, view.live.successors(position))
}

/// The blocks to whose starts a lane's value comes from the rest of a block.
fn blocks_reached(
    view: SpillView<'_>,
    flow: &LaneFlow,
    position: u32,
    rest: &[LaneTouch],
) -> Result<Vec<u32>, AllocError>
    ensures { IfOk result (λ qs. (q : ℕ) → (has q qs.items ≡ true) ↔ Enters (ways_behind view.entry.live.now.table.flow.items) flow.now.blocks.items flow.now.dead.items position rest.now q) }
{
    let mut starts = Vec::from_slice(view.alloc, flow.dead.as_slice())?;
    let mut work = Vec::new(view.alloc);
    leave(view, position, rest, &mut starts, &mut work)?;
    'walk: for k in 0..usize::MAX {
        if k >= work.len() {
            break;
        }
        let at = work[k];
        let touches = touches_at(flow.blocks.as_slice(), at);
        leave(view, at, touches, &mut starts, &mut work)?;
    }
    Ok(work)
}

/// Adds the readings of a lane up to the first instruction that writes it.
fn add_seen(
    lane: u32,
    touches: &[LaneTouch],
    reached: &mut Vec<LaneReading>,
) -> Result<(), AllocError>
    ensures { OnOk result (reached.new.items ≡ reached.old.items ++ map (reached_at lane) (seen touches.now)) }
{
    'touches: for touch in touches {
        if touch.reads {
            reached.push(LaneReading {
                lane: lane as usize,
                by: touch.id,
            })?;
        }
        if touch.writes {
            return Ok(());
        }
    }
    Ok(())
}

/// Adds the readings of a lane in these blocks, each up to the first instruction that writes it.
fn add_all_seen(
    flow: &LaneFlow,
    blocks: &[u32],
    reached: &mut Vec<LaneReading>,
) -> Result<(), AllocError>
    ensures { OnOk result (reached.new.items ≡ reached.old.items ++ map (reached_at flow.now.lane) (flat_map (λ q. seen (touches_at flow.now.blocks.items q)) blocks.now)) }
{
    'blocks: for at in blocks {
        add_seen(flow.lane, touches_at(flow.blocks.as_slice(), *at), reached)?;
    }
    Ok(())
}

/// Adds the readings of a lane that what stands there before the rest of a block reaches.
fn add_reached(
    view: SpillView<'_>,
    flow: &LaneFlow,
    position: u32,
    rest: &[LaneTouch],
    reached: &mut Vec<LaneReading>,
) -> Result<(), AllocError>
    ensures { OnOk result (AddsSeen (ways_behind view.entry.live.now.table.flow.items) flow.now position rest.now reached.old.items reached.new.items) }
{
    let blocks = blocks_reached(view, flow, position, rest)?;
    add_seen(flow.lane, rest, reached)?;
    add_all_seen(flow, blocks.as_slice(), reached)
}

/// Adds the readings that an instruction's definition of a lane reaches, if it is one.
fn add_definition(
    view: SpillView<'_>,
    flow: &LaneFlow,
    id: u32,
    reached: &mut Vec<LaneReading>,
) -> Result<(), AllocError>
    ensures others { OnOk result ((k i : ℕ) → (nat_eq flow.now.lane k ≡ true → ⊥) → lists reached.new.items k i ≡ lists reached.old.items k i) }
    ensures own { InOrder view.entry.live.now.table → OnOk result ((i : ℕ) → (lists reached.new.items flow.now.lane i ≡ true) ↔ ((lists reached.old.items flow.now.lane i ≡ true) ⊎ FlowsTo view.entry.live.now.table view.entry.v flow.now id i)) }
{
    if view.live.is_written(view.v, flow.lane, id) {
        let position = view.live.position_of(id);
        let rest = rest_behind(touches_at(flow.blocks.as_slice(), position), id);
        return add_reached(view, flow, position, rest, reached);
    }
    Ok(())
}

/// The readings that the definitions of lanes by an instruction reach.
fn readings_reached(
    view: SpillView<'_>,
    flows: &[LaneFlow],
    id: u32,
) -> Result<Vec<LaneReading>, AllocError>
    ensures { InOrder view.entry.live.now.table → IfOk result (λ rs. AreReached view.entry.live.now.table view.entry.v flows.now id rs.items) }
{
    let mut reached = Vec::new(view.alloc);
    'flows: for flow in flows {
        add_definition(view, flow, id, &mut reached)?;
    }
    Ok(reached)
}

/// These readings as a set, in which one is found fast: a constant may reach thousands.
fn set_of(alloc: Global, readings: &[LaneReading]) -> Result<BTreeSet<LaneReading>, AllocError>
    ensures { IfOk result (λ all. (k i : ℕ) → lists all.keys k i ≡ lists readings.now k i) }
{
    let mut all = BTreeSet::new(alloc);
    'readings: for reading in readings {
        all.insert(*reading)?;
    }
    Ok(all)
}

/// What the definitions of lanes by an instruction reach.
fn definition_of(view: SpillView<'_>, flows: &[LaneFlow], id: u32) -> Result<Definition, AllocError>
    ensures id { IfOk result (λ d. d.id ≡ id) }
    ensures constant { IfOk result (λ d. TellsConstant view.entry.target.now view.entry.live.now.func view.entry.live.now.table d) }
    ensures reached { InOrder view.entry.live.now.table → IfOk result (ListsFlows view.entry.live.now.table view.entry.v flows.now) }
{
    let readings = readings_reached(view, flows, id)?;
    Ok(Definition {
        id,
        is_constant: is_repeatable_id(view, id),
        reached: set_of(view.alloc, readings.as_slice())?,
    })
}

/// How each lane of the range flows.
fn flows_of(view: SpillView<'_>, touched: &[u32]) -> Result<Vec<LaneFlow>, AllocError>
    ensures { IfOk result (λ flows. HasFlows view.entry.live.now.table view.entry.live.now.func.blocks view.entry.v touched.now (lanes_count (slice_get view.entry.live.now.table.lanes.ranges.items view.entry.v)) flows.items) }
{
    let mut flows = Vec::new(view.alloc);
    'lanes: for lane in 0..view.live.lane_count(view.v) {
        flows.push(flow_of(view, lane, touched)?)?;
    }
    Ok(flows)
}

/// The instructions that touch the range, each with the readings that its definitions reach.
pub(crate) fn definitions_of(
    view: SpillView<'_>,
    touched: &[u32],
) -> Result<Vec<Definition>, AllocError>
    ensures ids { IfOk result (λ ds. map (λ d. d.id) ds.items ≡ touched.now) }
    ensures constants { IfOk result (λ ds. TellConstants view.entry.target.now view.entry.live.now.func view.entry.live.now.table ds.items) }
    ensures told { IfOk result (λ ds. MaySpill view.entry.target.now view.entry.live.now.func view.entry.live.now.table view.entry.v → AreTouched view.entry.live.now.table view.entry.v touched.now → Tests (λ (p : ℕ × ℕ × ℕ). Reaches view.entry.target.now view.entry.live.now.func view.entry.v p.0 p.1 p.2) (told_by ds.items)) }
{
    let flows = flows_of(view, touched)?;
    let mut definitions = Vec::new(view.alloc);
    'touched: for id in touched {
        definitions.push(definition_of(view, flows.as_slice(), *id)?)?;
    }
    Ok(definitions)
}
