//! Blocking flows, by a depth-first walk with current arcs.

ghost use Rattle.std.specs.Prelude.{◌≡◌, ◌+◌, ◌<◌, ◌≤◌, IfOk, OnOk, length};
ghost use Rattle.cut_place.specs.Flows.{HasEnds, HasSmallCapacities, IsBalanced, IsWithin};
ghost use Rattle.cut_place.specs.Links.{HasLinks, IsWalk};

use crate::links::Links;
use crate::net::Arc;
use crate::paths::{SINK, SOURCE, send};
use crate::steps::{ResidualArc, residual};
use std::alloc::{AllocError, Global};

/// The most steps of a walk: 4,096 nodes times 32,768 residual arcs. By Dinic's bound on a phase no
/// walk takes more.
const STEPS: usize = 134_217_728;

/// A walk back from the sink, level by level.
#[derive(Drop)]
struct Walk {
    /// Of each node, the place of its current link.
    current: Vec<usize>,
    /// Of each node on the way, the residual arc that leads to it.
    before: Vec<ResidualArc>,
    /// The nodes on the way, from the sink on.
    stack: Vec<usize>,
    /// The node where the walk is.
    at: usize,
}

/// The residual arc of the same arc the other way.
fn reverse_of(step: ResidualArc) -> ResidualArc
    ensures { result.arc ≡ step.arc }
{
    ResidualArc {
        arc: step.arc,
        along: !step.along,
    }
}

/// Goes on to the next link of the node where the walk is.
fn skip(links: &Links, walk: &mut Walk)
    requires each { length links.now.starts.items ≡ links.now.nodes + 1 }
    requires walk { IsWalk links.now.nodes walk.old.current.items (length walk.old.before.items) walk.old.stack.items walk.old.at }
    ensures { IsWalk links.now.nodes walk.new.current.items (length walk.new.before.items) walk.new.stack.items walk.new.at }
{
    let at = walk.at;
    let place = walk.current[at];
    if place < links.starts[at + 1] {
        walk.current[at] = place + 1;
    }
}

/// Goes back one node from a dead end. Says whether there was one.
fn retreat(links: &Links, walk: &mut Walk) -> bool
    requires each { length links.now.starts.items ≡ links.now.nodes + 1 }
    requires walk { IsWalk links.now.nodes walk.old.current.items (length walk.old.before.items) walk.old.stack.items walk.old.at }
    ensures { IsWalk links.now.nodes walk.new.current.items (length walk.new.before.items) walk.new.stack.items walk.new.at }
{
    match walk.stack.pop() {
        None => false,
        Some(node) => {
            walk.at = node;
            skip(links, walk);
            true
        }
    }
}

/// Looks among a node's links, from a place on, for one by which the node is entered with room from
/// a level lower. Gives its place, or that behind the node's links.
fn find_entry(
    arcs: &[Arc],
    flow: &[u128],
    levels: &[usize],
    links: &Links,
    at: usize,
    from: usize,
) -> usize
    requires within { IsWithin arcs.now flow.now }
    requires links { HasLinks links.now.nodes (length arcs.now) links.now.starts.items links.now.all.items }
    requires all_linked { links.now.nodes ≡ length levels.now }
    requires at_node { at < length levels.now }
{
    let all = links.all.as_slice();
    let below = levels[at].saturating_sub(1);
    let end = links.starts[at + 1];
    for place in from..end {
        let link = all[place];
        if levels[link.to] == below && residual(arcs, flow, reverse_of(link.step)) > 0 {
            return place;
        }
    }
    end
}

/// One step of a walk: on to a node a level lower, or back from a dead end. Says whether there was
/// one.
fn advance(
    arcs: &[Arc],
    flow: &[u128],
    levels: &[usize],
    links: &Links,
    walk: &mut Walk,
) -> Result<bool, AllocError>
    requires within { IsWithin arcs.now flow.now }
    requires links { HasLinks links.now.nodes (length arcs.now) links.now.starts.items links.now.all.items }
    requires all_linked { links.now.nodes ≡ length levels.now }
    requires walk { IsWalk links.now.nodes walk.old.current.items (length walk.old.before.items) walk.old.stack.items walk.old.at }
    ensures { OnOk result (IsWalk links.now.nodes walk.new.current.items (length walk.new.before.items) walk.new.stack.items walk.new.at) }
{
    let at = walk.at;
    let place = find_entry(arcs, flow, levels, links, at, walk.current[at]);
    walk.current[at] = place;
    if place >= links.starts[at + 1] {
        return Ok(retreat(links, walk));
    }
    let link = links.all[place];
    walk.stack.push(at)?;
    walk.before[at] = reverse_of(link.step);
    walk.at = link.to;
    Ok(true)
}

/// Augments a flow until its levels are blocked. Gives the flow's value.
pub(crate) fn blocking_flow(
    alloc: Global,
    arcs: &[Arc],
    flow: &mut [u128],
    links: &Links,
    levels: &[usize],
    mut value: u128,
) -> Result<u128, AllocError>
    requires within { IsWithin arcs.now flow.old }
    requires small { HasSmallCapacities arcs.now }
    requires few { length arcs.now ≤ 16384 }
    requires ends { HasEnds (length levels.now) arcs.now }
    requires nodes { 2 ≤ length levels.now }
    requires links { HasLinks links.now.nodes (length arcs.now) links.now.starts.items links.now.all.items }
    requires all_linked { links.now.nodes ≡ length levels.now }
    requires balanced { IsBalanced arcs.now flow.old value }
    ensures within { OnOk result (IsWithin arcs.now flow.new) }
    ensures balanced { IfOk result (λ v. IsBalanced arcs.now flow.new v) }
    ensures grows { IfOk result (λ v. value ≤ v) }
{
    let none = ResidualArc {
        arc: 0,
        along: false,
    };
    let mut walk = Walk {
        current: Vec::from_slice(alloc, links.starts.as_slice())?,
        before: Vec::from_elem(alloc, none, levels.len())?,
        stack: Vec::new(alloc),
        at: SINK,
    };
    let mut steps = Vec::new(alloc);
    'steps: for _ in 0..STEPS {
        if !advance(arcs, flow, levels, links, &mut walk)? {
            break;
        }
        if walk.at == SOURCE {
            value = send(
                arcs,
                flow,
                levels,
                walk.before.as_slice(),
                value,
                &mut steps,
            )?;
            walk.stack.clear();
            walk.at = SINK;
        }
    }
    Ok(value)
}
