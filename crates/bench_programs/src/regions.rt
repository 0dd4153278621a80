//! Regions at least cost as text: the cut, the net and the flow, and what the nodes stand for.
//!
//! The lines of a region, in this order:
//!
//! - `range %V register $R base B cost C`: the range, the region's register, what the blocks without an inside cost,
//!   and what the cut costs beside them;
//! - `block bb.N frequency F operands U terminators E` for each block that has a point of the range or names it: its
//!   frequency, frequency times operands over the instructions that name the range, and over the terminators of these;
//! - `node K SIDE NAME..` for each node of the net: SIDE is `in` or `out`, the side of the cut, and NAME is `source`,
//!   `sink`, `bb.N:start` or `bb.N:end` for each border of a bundle at which the range is live, or `bb.N:inside`; the
//!   borders at the sink are those of bundles that must be out;
//! - `arc K K capacity C flow F` for each arc, from the first node to the second;
//! - `label bb.N start L` or `label bb.N before I L`: from the block's start on, or from before its instruction I on
//!   (counted from 0; the last gap has the number of instructions), the label L holds.

use crate::documents::{function_of, source_of, text_of};
use anyhow::{Context, Result, bail};
use block_freq::{Freqs, frequencies};
use coalescer::coalesce;
use interference::Matrix;
use live_lanes::{LiveFunc, Mark, Spot};
use mir_func::operands::class_of;
use mir_func::{Func, Gap, Instr};
use phi_elim::lower_phis;
use split_choose::{BlockNodes, Region, RegionNet, cut_region, region_net};
use std::alloc::{AllocError, Global};
use std::rt::HostRuntime;
use target_base::{Boxed, Reg, Target};
use two_address::lower_tied;

/// The function of a document, a valid source, without phis and ties.
fn lowered_of(rt: &HostRuntime, target: &Target, path: &str) -> Result<Func> {
    let Some(f) = function_of(rt, target, path)? else {
        bail!("no function");
    };
    let Some(source) = source_of(rt, target, f)? else {
        bail!("no valid source");
    };
    let f = lower_phis(rt.alloc(), target, source)?;
    Ok(lower_tied(rt.alloc(), target, f)?)
}

/// A lowered function with its copies joined, as the allocator takes it. No range is assigned yet.
fn joined(alloc: Global, target: &Target, f: Func, freqs: &Freqs) -> Result<Matrix, AllocError> {
    let live = LiveFunc::compute(alloc, target, f)?;
    let (live, _) = coalesce(alloc, target, live, freqs)?;
    Matrix::new(alloc, live)
}

/// The register of a name.
pub fn register_of(target: &Target, name: &str) -> Option<Reg> {
    let mut number = 0;
    for register in target.regs.as_slice() {
        if register.name.as_slice() == name.as_bytes() {
            return Some(Reg(number));
        }
        number = number.saturating_add(1);
    }
    None
}

/// The range of a number, if the function has it.
fn range_of(f: &Func, word: &str) -> Result<u32> {
    let v = word.parse::<u32>().context("reading a range")?;
    if class_of(f, v).is_none() {
        bail!("no such range");
    }
    Ok(v)
}

/// Assigns a range to the register of a name.
fn hold(m: &mut Matrix, range: &str, name: &str) -> Result<()> {
    let live = m.live();
    let v = range_of(live.func(), range)?;
    let Some(register) = register_of(live.target(), name) else {
        bail!("no such register");
    };
    m.assign(v, register)?;
    Ok(())
}

/// Does what words say: `V=R` assigns the range V to the register R, and `V` prints the region of the
/// range V.
fn answer_ranges(rt: &HostRuntime, m: &mut Matrix, freqs: &Freqs, words: &[String]) -> Result<()> {
    for word in words {
        match word.as_str().split_once('=') {
            Some((range, name)) => hold(m, range, name)?,
            None => tell_region(rt, m, freqs, word.as_str())?,
        }
    }
    Ok(())
}

/// Does what words say of a lowered function.
fn answer_lowered(rt: &HostRuntime, target: &Target, f: Func, words: &[String]) -> Result<()> {
    let freqs = frequencies(rt.alloc(), &f)?;
    let mut m = joined(rt.alloc(), target, f, &freqs)?;
    let answer = answer_ranges(rt, &mut m, &freqs, words);
    // what was computed of the function is given back by its own crates, which prove how
    m.into_live().into_func();
    answer
}

/// Answers `--region`.
pub fn answer_region(rt: &HostRuntime, target: &Target, words: &[String]) -> Result<()> {
    let [path, words @ ..] = words else {
        bail!("a target and a file are missing");
    };
    let f = lowered_of(rt, target, path.as_str())?;
    answer_lowered(rt, target, f, words)
}

/// Prints the region of a range.
fn tell_region(rt: &HostRuntime, m: &Matrix, freqs: &Freqs, word: &str) -> Result<()> {
    let v = range_of(m.live().func(), word)?;
    match cut_region(rt.alloc(), m, v, freqs)? {
        Some(region) => tell_found(rt, m, freqs, v, &region),
        None => {
            println!(rt; "range %{v} has no region")?;
            Ok(())
        }
    }
}

/// Prints a region of a range and its net.
fn tell_found(rt: &HostRuntime, m: &Matrix, freqs: &Freqs, v: u32, region: &Region) -> Result<()> {
    let net = region_net(rt.alloc(), m, v, freqs, region.reg)?;
    tell_lines(rt, m.live(), v, region, &net)
}

/// Prints the lines of a region of a range.
fn tell_lines(
    rt: &HostRuntime,
    live: &LiveFunc,
    v: u32,
    region: &Region,
    net: &RegionNet,
) -> Result<()> {
    tell_head(rt, live.target(), v, region)?;
    tell_blocks(rt, live.func(), net)?;
    tell_nodes(rt, live.func(), net, region.cut.inside.as_slice())?;
    tell_arcs(rt, net, region.cut.flow.as_slice())?;
    tell_labels(rt, live.func(), region.labels.as_slice())
}

/// The name of a register.
fn name_of(target: &Target, register: Reg) -> &str {
    match target.regs.as_slice().get(register.0 as usize) {
        Some(register) => text_of(register.name.as_slice()),
        None => "",
    }
}

/// Prints the range, the register and the costs.
fn tell_head(rt: &HostRuntime, target: &Target, v: u32, region: &Region) -> Result<()> {
    let name = name_of(target, region.reg);
    let base = region.base;
    let cost = region.cut.cost;
    println!(rt; "range %{v} register ${name} base {base} cost {cost}")?;
    Ok(())
}

/// The number of the block at a position.
fn number_of(f: &Func, position: u32) -> u32 {
    match f.blocks.as_slice().get(position as usize) {
        Some(block) => block.number,
        None => position,
    }
}

/// Prints what the blocks have.
fn tell_blocks(rt: &HostRuntime, f: &Func, net: &RegionNet) -> Result<()> {
    for row in net.rows.as_slice() {
        let number = number_of(f, row.position);
        let frequency = row.frequency;
        let uses = row.uses;
        let ends = row.end_uses;
        println!(rt; "block bb.{number} frequency {frequency} operands {uses} terminators {ends}")?;
    }
    Ok(())
}

/// Prints a part of a block, if it belongs to a node.
fn tell_part(
    rt: &HostRuntime,
    node: u32,
    owner: Option<u32>,
    number: u32,
    part: &str,
) -> Result<()> {
    if owner == Some(node) {
        print!(rt; " bb.{number}:{part}")?;
    }
    Ok(())
}

/// Prints the borders of the blocks that belong to a node, and the inside that it is.
fn tell_parts(rt: &HostRuntime, f: &Func, rows: &[BlockNodes], node: u32) -> Result<()> {
    for row in rows {
        let number = number_of(f, row.position);
        tell_part(rt, node, row.entry, number, "start")?;
        tell_part(rt, node, row.inside, number, "inside")?;
        tell_part(rt, node, row.exit, number, "end")?;
    }
    Ok(())
}

/// What a node is called beside the parts that belong to it.
fn role_of(node: u32) -> &'static str {
    match node {
        0 => " source",
        1 => " sink",
        _ => "",
    }
}

/// Prints the nodes, and on which side of the cut they are.
fn tell_nodes(rt: &HostRuntime, f: &Func, net: &RegionNet, inside: &[bool]) -> Result<()> {
    for node in 0..net.net.nodes {
        let side = match inside.get(node as usize) {
            Some(true) => "in",
            _ => "out",
        };
        let role = role_of(node);
        print!(rt; "node {node} {side}{role}")?;
        tell_parts(rt, f, net.rows.as_slice(), node)?;
        println!(rt; "")?;
    }
    Ok(())
}

/// Prints the arcs, with what flows through them.
fn tell_arcs(rt: &HostRuntime, net: &RegionNet, flow: &[u128]) -> Result<()> {
    for (arc, flows) in net.net.arcs.as_slice().iter().zip(flow) {
        let from = arc.from;
        let to = arc.to;
        let capacity = arc.cap;
        println!(rt; "arc {from} {to} capacity {capacity} flow {flows}")?;
    }
    Ok(())
}

/// The place of the instruction of an id among these, or behind them.
fn place_in(instrs: &[Boxed<Instr>], id: Option<u32>) -> usize {
    let mut place: usize = 0;
    for instr in instrs {
        if Some(instr.get().id) == id {
            return place;
        }
        place = place.saturating_add(1);
    }
    place
}

/// The place of the instruction before which a gap is, in its block.
fn place_of(f: &Func, gap: Gap) -> usize {
    for block in f.blocks.as_slice() {
        if block.number == gap.block {
            return place_in(block.instrs.as_slice(), gap.before);
        }
    }
    0
}

/// Prints from where on a label holds.
fn tell_label(rt: &HostRuntime, f: &Func, mark: &Mark) -> Result<()> {
    let block = mark.block;
    let label = mark.label;
    match mark.spot {
        Spot::Border => println!(rt; "label bb.{block} start {label}")?,
        Spot::Gap(gap) => {
            let place = place_of(f, gap);
            println!(rt; "label bb.{block} before {place} {label}")?;
        }
    }
    Ok(())
}

/// Prints the labels.
fn tell_labels(rt: &HostRuntime, f: &Func, labels: &[Mark]) -> Result<()> {
    for mark in labels {
        tell_label(rt, f, mark)?;
    }
    Ok(())
}
