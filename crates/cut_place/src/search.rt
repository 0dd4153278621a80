//! The search of the residual net from the source.

ghost use Rattle.std.specs.Prelude.{◌≡◌, ◌+◌, ◌*◌, ◌<◌, ◌≤◌, IfOk, OnOk, length, slice_index, true, false};
ghost use Rattle.cut_place.specs.Flows.{HasEnds, IsWithin};
ghost use Rattle.cut_place.specs.Links.{HasLinks};
ghost use Rattle.cut_place.specs.Searches.{IsClosed, IsSearch, Stays, reached, unreached};

use crate::links::{Link, Links};
use crate::net::Arc;
use crate::paths::{SINK, SOURCE};
use crate::steps::{ResidualArc, head, residual, tail};
use std::alloc::{AllocError, Global};

/// The level of a node that wasn't reached. Each other level is lower.
pub(crate) const UNREACHED: usize = 4096;

/// What a breadth-first search has reached.
#[derive(Drop)]
pub(crate) struct Search {
    /// Of each node, its level, or `UNREACHED`.
    pub(crate) levels: Vec<usize>,
    /// Of each node that was reached, the residual arc that reached it.
    pub(crate) before: Vec<ResidualArc>,
    /// The nodes that were reached, in order.
    pub(crate) queue: Vec<usize>,
}

/// Reaches the head of a residual arc with room from its tail. Says whether it wasn't reached yet.
fn reach(
    arcs: &[Arc],
    flow: &[u128],
    search: &mut Search,
    step: ResidualArc,
) -> Result<bool, AllocError>
    requires inside { step.arc < length arcs.now }
    requires within { IsWithin arcs.now flow.now }
    requires ends { HasEnds (length search.old.levels.items) arcs.now }
    requires search { IsSearch arcs.now flow.now search.old.levels.items search.old.before.items search.old.queue.items }
    ensures search { OnOk result (IsSearch arcs.now flow.now search.new.levels.items search.new.before.items search.new.queue.items) }
    ensures nodes { OnOk result (length search.new.levels.items ≡ length search.old.levels.items) }
    ensures more { IfOk result (λ r. r ≡ true → unreached search.new.levels.items + 1 ≡ unreached search.old.levels.items) }
    ensures same { IfOk result (λ r. r ≡ false → search.new.levels.items ≡ search.old.levels.items) }
    ensures stays { IfOk result (λ r. r ≡ false → Stays (reached search.old.levels.items) arcs.now flow.now step) }
{
    let room = residual(arcs, flow, step);
    if room == 0 {
        return Ok(false);
    }
    let from = tail(arcs, step);
    let to = head(arcs, step);
    let level = search.levels[from];
    let there = search.levels[to];
    if level >= UNREACHED || there < UNREACHED {
        return Ok(false);
    }
    search.queue.push(to)?;
    search.levels[to] = level + 1;
    search.before[to] = step;
    Ok(true)
}

/// Reaches the node that a link leads to, if it wasn't reached yet. Most are, and then nothing else
/// of the link is read.
fn follow(arcs: &[Arc], flow: &[u128], search: &mut Search, link: Link) -> Result<(), AllocError>
    requires inside { link.step.arc < length arcs.now }
    requires to { link.to < length search.old.levels.items }
    requires within { IsWithin arcs.now flow.now }
    requires ends { HasEnds (length search.old.levels.items) arcs.now }
    requires search { IsSearch arcs.now flow.now search.old.levels.items search.old.before.items search.old.queue.items }
    ensures search { OnOk result (IsSearch arcs.now flow.now search.new.levels.items search.new.before.items search.new.queue.items) }
    ensures nodes { OnOk result (length search.new.levels.items ≡ length search.old.levels.items) }
{
    if search.levels[link.to] < UNREACHED {
        return Ok(());
    }
    reach(arcs, flow, search, link.step)?;
    Ok(())
}

/// Reaches what the links of a node lead to.
fn visit(
    arcs: &[Arc],
    flow: &[u128],
    links: &Links,
    search: &mut Search,
    node: usize,
) -> Result<(), AllocError>
    requires inside { node < length search.old.levels.items }
    requires within { IsWithin arcs.now flow.now }
    requires ends { HasEnds (length search.old.levels.items) arcs.now }
    requires links { HasLinks links.now.nodes (length arcs.now) links.now.starts.items links.now.all.items }
    requires all_linked { links.now.nodes ≡ length search.old.levels.items }
    requires search { IsSearch arcs.now flow.now search.old.levels.items search.old.before.items search.old.queue.items }
    ensures search { OnOk result (IsSearch arcs.now flow.now search.new.levels.items search.new.before.items search.new.queue.items) }
    ensures nodes { OnOk result (length search.new.levels.items ≡ length search.old.levels.items) }
{
    let all = links.all.as_slice();
    for place in links.starts[node]..links.starts[node + 1] {
        follow(arcs, flow, search, all[place])?;
    }
    Ok(())
}

/// Visits the nodes that were reached, in order, until the sink is reached.
fn spread(arcs: &[Arc], flow: &[u128], links: &Links, search: &mut Search) -> Result<(), AllocError>
    requires within { IsWithin arcs.now flow.now }
    requires ends { HasEnds (length search.old.levels.items) arcs.now }
    requires links { HasLinks links.now.nodes (length arcs.now) links.now.starts.items links.now.all.items }
    requires all_linked { links.now.nodes ≡ length search.old.levels.items }
    requires search { IsSearch arcs.now flow.now search.old.levels.items search.old.before.items search.old.queue.items }
    ensures search { OnOk result (IsSearch arcs.now flow.now search.new.levels.items search.new.before.items search.new.queue.items) }
    ensures nodes { OnOk result (length search.new.levels.items ≡ length search.old.levels.items) }
{
    for i in 0..search.levels.len() {
        if i >= search.queue.len() || search.levels[SINK] < UNREACHED {
            break;
        }
        let node = search.queue[i];
        visit(arcs, flow, links, search, node)?;
    }
    Ok(())
}

/// Goes over every residual arc once. Says whether that reached a node.
fn close_round(arcs: &[Arc], flow: &[u128], search: &mut Search) -> Result<bool, AllocError>
    requires within { IsWithin arcs.now flow.now }
    requires ends { HasEnds (length search.old.levels.items) arcs.now }
    requires search { IsSearch arcs.now flow.now search.old.levels.items search.old.before.items search.old.queue.items }
    ensures search { OnOk result (IsSearch arcs.now flow.now search.new.levels.items search.new.before.items search.new.queue.items) }
    ensures nodes { OnOk result (length search.new.levels.items ≡ length search.old.levels.items) }
    ensures more { IfOk result (λ r. r ≡ true → unreached search.new.levels.items < unreached search.old.levels.items) }
    ensures closed { IfOk result (λ r. r ≡ false → IsClosed (reached search.new.levels.items) arcs.now flow.now) }
{
    let mut changed = false;
    for arc in 0..arcs.len() {
        let forth = reach(arcs, flow, search, ResidualArc { arc, along: true })?;
        let back = reach(arcs, flow, search, ResidualArc { arc, along: false })?;
        changed = changed || forth || back;
    }
    Ok(changed)
}

/// Goes over the residual arcs until all that can be reached is. After a breadth-first search one
/// round suffices.
fn close(arcs: &[Arc], flow: &[u128], search: &mut Search) -> Result<(), AllocError>
    requires within { IsWithin arcs.now flow.now }
    requires ends { HasEnds (length search.old.levels.items) arcs.now }
    requires search { IsSearch arcs.now flow.now search.old.levels.items search.old.before.items search.old.queue.items }
    ensures search { OnOk result (IsSearch arcs.now flow.now search.new.levels.items search.new.before.items search.new.queue.items) }
    ensures nodes { OnOk result (length search.new.levels.items ≡ length search.old.levels.items) }
    ensures closed { OnOk result (IsClosed (reached search.new.levels.items) arcs.now flow.now) }
{
    'rounds: loop {
        if !close_round(arcs, flow, search)? {
            return Ok(());
        }
    }
}

/// Searches the residual net breadth first from the source, until the sink is reached.
pub(crate) fn search_from(
    alloc: Global,
    arcs: &[Arc],
    flow: &[u128],
    links: &Links,
) -> Result<Search, AllocError>
    requires within { IsWithin arcs.now flow.now }
    requires nodes { 2 ≤ links.now.nodes }
    requires most { links.now.nodes ≤ 4096 }
    requires ends { HasEnds links.now.nodes arcs.now }
    requires links { HasLinks links.now.nodes (length arcs.now) links.now.starts.items links.now.all.items }
    ensures search { IfOk result (λ r. IsSearch arcs.now flow.now r.levels.items r.before.items r.queue.items) }
    ensures nodes { IfOk result (λ r. length r.levels.items ≡ links.now.nodes) }
    ensures closed { IfOk result (λ r. 4096 ≤ slice_index r.levels.items 1 → IsClosed (reached r.levels.items) arcs.now flow.now) }
{
    let nodes = links.nodes;
    let mut levels = Vec::from_elem(alloc, UNREACHED, nodes)?;
    levels[SOURCE] = 0;
    let none = ResidualArc {
        arc: 0,
        along: false,
    };
    let before = Vec::from_elem(alloc, none, nodes)?;
    let mut queue = Vec::new(alloc);
    queue.push(SOURCE)?;
    let mut search = Search {
        levels,
        before,
        queue,
    };
    spread(arcs, flow, links, &mut search)?;
    if search.levels[SINK] >= UNREACHED {
        close(arcs, flow, &mut search)?;
    }
    Ok(search)
}
