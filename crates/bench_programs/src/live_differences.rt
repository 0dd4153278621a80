//! Where a function with what is live in it differs from the one that is wanted.

use crate::documents::text_of;
use crate::lives::{Point, lane_lives, tell_name, unit_lives};
use crate::random_edits::SLOTS;
use anyhow::Result;
use live_lanes::LiveFunc;
use mir_func::{Block, Func, Instr, Op, Operand, Place};
use std::alloc::{AllocError, Global};
use std::rt::HostRuntime;
use target_base::{Target, Unit};

/// How many lanes of a range or a slot are asked.
const LANES: u32 = 4;

/// Where two functions with what is live in them differ.
#[derive(Clone, Copy)]
pub enum Difference {
    /// The functions, apart from instructions.
    Function,
    /// The instructions at a place.
    Instr(Place),
    /// Whether a lane of a range is live at a point.
    Lane(Point, u32, u32),
    /// Whether a lane of a slot is live at a point.
    Slot(Point, u32, u32),
    /// Whether a unit is live at a point.
    Unit(Point, Unit),
    /// Whether the instruction of an id reads or writes a lane of a range.
    Act(u32, u32, u32),
    /// At how many points a range is live.
    Points(u32),
}

/// A function with what is live in it, and the same function with what is computed anew.
#[derive(Clone, Copy)]
struct LivePair<'a> {
    live: &'a LiveFunc,
    anew: &'a LiveFunc,
}

fn same_operand(a: &Operand, b: &Operand) -> bool {
    match (a, b) {
        (Operand::Reg(x), Operand::Reg(y)) => x == y,
        (Operand::Imm(x), Operand::Imm(y)) => x == y,
        (Operand::Block(x), Operand::Block(y)) => x == y,
        (Operand::Stack(x), Operand::Stack(y)) => x == y,
        (Operand::FixedStack(x), Operand::FixedStack(y)) => x == y,
        (Operand::Symbol(x), Operand::Symbol(y)) => x.as_slice() == y.as_slice(),
        (Operand::Index(x), Operand::Index(y)) => x == y,
        (Operand::Mask(x), Operand::Mask(y)) => x == y,
        _ => false,
    }
}

fn same_operands(some: &[Operand], others: &[Operand]) -> bool {
    for (a, b) in some.iter().zip(others) {
        if !same_operand(a, b) {
            return false;
        }
    }
    some.len() == others.len()
}

fn same_op(a: &Op, b: &Op) -> bool {
    match (a, b) {
        (Op::Known(x), Op::Known(y)) => x == y,
        (Op::Excluded(x), Op::Excluded(y)) => x.as_slice() == y.as_slice(),
        _ => false,
    }
}

fn same_instr(a: &Instr, b: &Instr) -> bool {
    a.id == b.id
        && same_op(&a.op, &b.op)
        && a.flags.as_slice() == b.flags.as_slice()
        && same_operands(a.operands.as_slice(), b.operands.as_slice())
        && a.tail.as_slice() == b.tail.as_slice()
}

/// Whether two blocks are alike but for their instructions, of which they have as many.
fn same_frame(a: &Block, b: &Block) -> bool {
    a.number == b.number
        && a.successors.as_slice() == b.successors.as_slice()
        && a.instrs.len() == b.instrs.len()
}

/// Where two blocks differ.
fn block_difference(a: &Block, b: &Block) -> Option<Difference> {
    if !same_frame(a, b) {
        return Some(Difference::Function);
    }
    let block = a.number;
    let mut at: u32 = 0;
    for (x, y) in a.instrs.as_slice().iter().zip(b.instrs.as_slice()) {
        if !same_instr(x.get(), y.get()) {
            return Some(Difference::Instr(Place { block, at }));
        }
        at = at.saturating_add(1);
    }
    None
}

/// Whether two functions are alike but for their blocks, of which they have as many.
fn same_head(f: &Func, g: &Func) -> bool {
    f.name.as_slice() == g.name.as_slice()
        && f.head.as_slice() == g.head.as_slice()
        && f.classes.as_slice() == g.classes.as_slice()
        && f.next_id == g.next_id
        && f.blocks.len() == g.blocks.len()
}

/// Where two functions differ.
fn function_difference(f: &Func, g: &Func) -> Option<Difference> {
    if !same_head(f, g) {
        return Some(Difference::Function);
    }
    for (a, b) in f.blocks.as_slice().iter().zip(g.blocks.as_slice()) {
        let found = block_difference(a, b);
        if found.is_some() {
            return found;
        }
    }
    None
}

/// Where lanes of a range differ at a point.
fn range_difference(pair: LivePair<'_>, v: u32, at: Point) -> Option<Difference> {
    for k in 0..LANES {
        if lane_lives(pair.live, v, k as usize, at) != lane_lives(pair.anew, v, k as usize, at) {
            return Some(Difference::Lane(at, v, k));
        }
    }
    None
}

/// Where ranges differ at a point.
fn ranges_difference(pair: LivePair<'_>, at: Point) -> Option<Difference> {
    let mut v: u32 = 0;
    for _ in pair.live.func().classes.as_slice() {
        let found = range_difference(pair, v, at);
        if found.is_some() {
            return found;
        }
        v = v.saturating_add(1);
    }
    None
}

/// Whether a lane of a slot is live at a point.
fn slot_lives(live: &LiveFunc, slot: u32, k: u32, at: Point) -> bool {
    let Some(own) = live.lanes_of_slot(slot) else {
        return false;
    };
    let Some(lane) = own.lane(k) else {
        return false;
    };
    let table = &live.table;
    match at {
        Point::Start(block) => table.is_live_in(lane, block),
        Point::Entry(id) => table.is_live_at(lane, live.position_of(id), live.entry_of(id)),
        Point::Exit(id) => table.is_live_at(lane, live.position_of(id), live.exit_of(id)),
    }
}

/// Where lanes of a slot differ at a point.
fn slot_difference(pair: LivePair<'_>, slot: u32, at: Point) -> Option<Difference> {
    for k in 0..LANES {
        if slot_lives(pair.live, slot, k, at) != slot_lives(pair.anew, slot, k, at) {
            return Some(Difference::Slot(at, slot, k));
        }
    }
    None
}

/// Where slots differ at a point.
fn slots_difference(pair: LivePair<'_>, at: Point) -> Option<Difference> {
    for slot in 0..SLOTS {
        let found = slot_difference(pair, slot, at);
        if found.is_some() {
            return found;
        }
    }
    None
}

/// Where units differ at a point.
fn units_difference(pair: LivePair<'_>, at: Point) -> Option<Difference> {
    let mut number: u16 = 0;
    for _ in pair.live.target().units.as_slice() {
        let unit = Unit(number);
        if unit_lives(pair.live, unit, at) != unit_lives(pair.anew, unit, at) {
            return Some(Difference::Unit(at, unit));
        }
        number = number.saturating_add(1);
    }
    None
}

/// Where what is live differs at a point.
fn point_difference(pair: LivePair<'_>, at: Point) -> Option<Difference> {
    let ranges = ranges_difference(pair, at);
    if ranges.is_some() {
        return ranges;
    }
    let slots = slots_difference(pair, at);
    if slots.is_some() {
        return slots;
    }
    units_difference(pair, at)
}

/// Whether the instruction of an id does the same to a lane of a range.
fn same_acts(pair: LivePair<'_>, v: u32, k: u32, id: u32) -> bool {
    let LivePair { live, anew } = pair;
    live.is_read(v, k, id) == anew.is_read(v, k, id)
        && live.is_written(v, k, id) == anew.is_written(v, k, id)
        && live.is_written_early(v, k, id) == anew.is_written_early(v, k, id)
}

/// Where an instruction does something else to lanes of a range.
fn act_difference(pair: LivePair<'_>, v: u32, id: u32) -> Option<Difference> {
    for k in 0..LANES {
        if !same_acts(pair, v, k, id) {
            return Some(Difference::Act(id, v, k));
        }
    }
    None
}

/// Where an instruction does something else to ranges.
fn acts_difference(pair: LivePair<'_>, id: u32) -> Option<Difference> {
    let mut v: u32 = 0;
    for _ in pair.live.func().classes.as_slice() {
        let found = act_difference(pair, v, id);
        if found.is_some() {
            return found;
        }
        v = v.saturating_add(1);
    }
    None
}

/// Where what is live differs at an instruction.
fn instr_difference(pair: LivePair<'_>, id: u32) -> Option<Difference> {
    let entry = point_difference(pair, Point::Entry(id));
    if entry.is_some() {
        return entry;
    }
    let exit = point_difference(pair, Point::Exit(id));
    if exit.is_some() {
        return exit;
    }
    acts_difference(pair, id)
}

/// Where what is live differs in a block.
fn lives_difference(pair: LivePair<'_>, block: &Block) -> Option<Difference> {
    let start = point_difference(pair, Point::Start(block.number));
    if start.is_some() {
        return start;
    }
    for instr in block.instrs.as_slice() {
        let found = instr_difference(pair, instr.get().id);
        if found.is_some() {
            return found;
        }
    }
    None
}

/// Which range is live at another number of points.
fn points_difference(pair: LivePair<'_>) -> Option<Difference> {
    let mut v: u32 = 0;
    for _ in pair.live.func().classes.as_slice() {
        if pair.live.points(v) != pair.anew.points(v) {
            return Some(Difference::Points(v));
        }
        v = v.saturating_add(1);
    }
    None
}

/// Where what is live differs.
fn table_difference(pair: LivePair<'_>) -> Option<Difference> {
    for block in pair.live.func().blocks.as_slice() {
        let found = lives_difference(pair, block);
        if found.is_some() {
            return found;
        }
    }
    points_difference(pair)
}

/// A copy of a function with what is live in it, computed anew.
fn compute_anew(alloc: Global, live: &LiveFunc, f: &Func) -> Result<LiveFunc, AllocError> {
    let target = live.target.share()?;
    let copy = f.copy(alloc)?;
    LiveFunc::compute_within(alloc, target, copy)
}

/// The same, tried again where it is refused once.
fn compute_or_retry(alloc: Global, live: &LiveFunc, f: &Func) -> Result<LiveFunc, AllocError> {
    match compute_anew(alloc, live, f) {
        Ok(made) => Ok(made),
        Err(_) => compute_anew(alloc, live, f),
    }
}

/// Where a function with what is live in it differs from a function with what is computed of it.
pub fn find_difference(
    alloc: Global,
    live: &LiveFunc,
    wanted: &Func,
) -> Result<Option<Difference>, AllocError> {
    let found = function_difference(live.func(), wanted);
    if found.is_some() {
        return Ok(found);
    }
    let anew = compute_or_retry(alloc, live, wanted)?;
    let found = table_difference(LivePair { live, anew: &anew });
    // what was computed of the function is given back by its own crate, which proves how
    anew.into_func();
    Ok(found)
}

/// The name of a unit.
fn unit_name(target: &Target, unit: Unit) -> &str {
    match target.units.as_slice().get(unit.0 as usize) {
        Some(unit) => text_of(unit.name.as_slice()),
        None => "",
    }
}

/// Prints where functions differ.
pub fn tell_difference(rt: &HostRuntime, target: &Target, found: Difference) -> Result<()> {
    match found {
        Difference::Function => print!(rt; "function")?,
        Difference::Instr(place) => print!(rt; "bb.{}:{}", place.block, place.at)?,
        Difference::Lane(at, v, k) => {
            tell_name(rt, at)?;
            print!(rt; " %{v}:{k}")?;
        }
        Difference::Slot(at, slot, k) => {
            tell_name(rt, at)?;
            print!(rt; " slot {slot}:{k}")?;
        }
        Difference::Unit(at, unit) => {
            tell_name(rt, at)?;
            print!(rt; " {}", unit_name(target, unit))?;
        }
        Difference::Act(id, v, k) => print!(rt; "{id} acts %{v}:{k}")?,
        Difference::Points(v) => print!(rt; "points %{v}")?,
    }
    Ok(())
}
