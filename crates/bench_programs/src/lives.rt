//! What is live in a function, point by point.
//!
//! A line for each point: `bb.N start`, the start of the block of a number, and `I entry` and `I exit`, of the
//! instruction of an id (ids are counted from 0 in the order of the text); behind it `%V:L` for each of the first four
//! lanes of a range that is live there, and the name of each unit that is. At the end `points P` for each range, and for
//! a number behind them that none has: at how many points the range is live.

use crate::documents::text_of;
use anyhow::Result;
use live_lanes::LiveFunc;
use mir_func::{Block, Func};
use std::rt::HostRuntime;
use target_base::{Target, Unit};

/// A point, by the block's number or the instruction's id.
#[derive(Clone, Copy)]
pub enum Point {
    /// The start of a block.
    Start(u32),
    /// The entry of an instruction.
    Entry(u32),
    /// The exit of an instruction.
    Exit(u32),
}

/// Whether a lane of a range is live at a point.
pub fn lane_lives(live: &LiveFunc, v: u32, lane: usize, at: Point) -> bool {
    match at {
        Point::Start(block) => live.live_at(v, lane, block),
        Point::Entry(id) => live.live_in(v, lane, id),
        Point::Exit(id) => live.live_out(v, lane, id),
    }
}

/// Whether a unit is live at a point.
pub fn unit_lives(live: &LiveFunc, unit: Unit, at: Point) -> bool {
    match at {
        Point::Start(block) => live.unit_at(unit, block),
        Point::Entry(id) => live.unit_in(unit, id),
        Point::Exit(id) => live.unit_out(unit, id),
    }
}

/// Prints the lanes of a range that are live at a point.
fn tell_lanes(rt: &HostRuntime, live: &LiveFunc, v: u32, at: Point) -> Result<()> {
    for lane in 0..4 {
        if lane_lives(live, v, lane, at) {
            print!(rt; " %{v}:{lane}")?;
        }
    }
    Ok(())
}

/// Prints the lanes of ranges that are live at a point.
fn tell_ranges(rt: &HostRuntime, live: &LiveFunc, at: Point) -> Result<()> {
    let mut v: u32 = 0;
    for _ in live.func().classes.as_slice() {
        tell_lanes(rt, live, v, at)?;
        v = v.saturating_add(1);
    }
    Ok(())
}

/// Prints the units that are live at a point.
fn tell_units(rt: &HostRuntime, live: &LiveFunc, at: Point) -> Result<()> {
    let mut number: u16 = 0;
    for unit in live.target().units.as_slice() {
        if unit_lives(live, Unit(number), at) {
            print!(rt; " {}", text_of(unit.name.as_slice()))?;
        }
        number = number.saturating_add(1);
    }
    Ok(())
}

/// Prints a point's name.
pub fn tell_name(rt: &HostRuntime, at: Point) -> Result<()> {
    match at {
        Point::Start(block) => print!(rt; "bb.{block} start")?,
        Point::Entry(id) => print!(rt; "{id} entry")?,
        Point::Exit(id) => print!(rt; "{id} exit")?,
    }
    Ok(())
}

/// Prints what is live at a point, behind the point's name.
fn tell_point(rt: &HostRuntime, live: &LiveFunc, at: Point) -> Result<()> {
    tell_name(rt, at)?;
    tell_ranges(rt, live, at)?;
    tell_units(rt, live, at)?;
    println!(rt; "")?;
    Ok(())
}

/// Prints what is live in a block.
fn tell_block(rt: &HostRuntime, live: &LiveFunc, block: &Block) -> Result<()> {
    tell_point(rt, live, Point::Start(block.number))?;
    for instr in block.instrs.as_slice() {
        let id = instr.get().id;
        tell_point(rt, live, Point::Entry(id))?;
        tell_point(rt, live, Point::Exit(id))?;
    }
    Ok(())
}

/// Prints at how many points a range is live.
fn tell_count(rt: &HostRuntime, live: &LiveFunc, v: u32) -> Result<()> {
    println!(rt; "points {}", live.points(v))?;
    Ok(())
}

/// Prints at how many points each range is live, and one that isn't there.
fn tell_counts(rt: &HostRuntime, live: &LiveFunc) -> Result<()> {
    let mut v: u32 = 0;
    for _ in live.func().classes.as_slice() {
        tell_count(rt, live, v)?;
        v = v.saturating_add(1);
    }
    tell_count(rt, live, v)
}

/// Prints what is live in a function.
fn tell_all(rt: &HostRuntime, live: &LiveFunc) -> Result<()> {
    for block in live.func().blocks.as_slice() {
        tell_block(rt, live, block)?;
    }
    tell_counts(rt, live)
}

/// Prints what is live in a function.
pub fn tell_live(rt: &HostRuntime, target: &Target, f: Func) -> Result<()> {
    let live = LiveFunc::compute(rt.alloc(), target, f)?;
    let answer = tell_all(rt, &live);
    // what was computed of the function is given back by its own crate, which proves how
    live.into_func();
    answer
}
