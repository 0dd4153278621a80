//! The residual arcs that leave each node, side by side in one list.

ghost use Rattle.std.specs.Prelude.{◌≡◌, ◌+◌, ◌*◌, ◌<◌, ◌≤◌, IfOk, OnOk, length};
ghost use Rattle.cut_place.specs.Flows.{HasEnds};
ghost use Rattle.cut_place.specs.Residual.{head_of};
ghost use Rattle.cut_place.specs.Links.{AreLinks, HasLinks, HasLists};

use crate::net::Arc;
use crate::steps::{ResidualArc, head};
use std::alloc::{AllocError, Global};

/// A residual arc that leaves a node.
#[derive(Clone, Copy)]
pub(crate) struct Link {
    /// The node that it enters.
    pub(crate) to: usize,
    /// The residual arc.
    pub(crate) step: ResidualArc,
}

/// The residual arcs that leave each node.
#[derive(Drop)]
pub(crate) struct Links {
    /// The number of nodes.
    pub(crate) nodes: usize,
    /// Of each node, the place of its first link; then the number of links. A node's links end
    /// where those of the next node begin.
    pub(crate) starts: Vec<usize>,
    /// The links, node by node.
    pub(crate) all: Vec<Link>,
}

/// The numbers of the links of each node, as linked lists. Link 2k + 1 is arc k, link 2k + 2 its
/// reverse, and 0 ends a list.
#[derive(Drop)]
struct Lists {
    /// Of each node, its first link.
    first: Vec<usize>,
    /// Of each link, the one after it: that of link k stands at k - 1.
    next: Vec<usize>,
}

/// Puts the next link at the front of a node's list.
fn list_link(lists: &mut Lists, node: usize) -> Result<(), AllocError>
    requires inside { node < length lists.old.first.items }
    requires lists { HasLists lists.old.first.items lists.old.next.items }
    ensures lists { OnOk result (HasLists lists.new.first.items lists.new.next.items) }
    ensures nodes { OnOk result (length lists.new.first.items ≡ length lists.old.first.items) }
    ensures more { OnOk result (length lists.new.next.items ≡ length lists.old.next.items + 1) }
{
    let after = lists.first[node];
    lists.next.push(after)?;
    let link = lists.next.len();
    lists.first[node] = link;
    Ok(())
}

/// The lists of a net.
fn make_lists(alloc: Global, arcs: &[Arc], nodes: usize) -> Result<Lists, AllocError>
    requires { HasEnds nodes arcs.now }
    ensures lists { IfOk result (λ r. HasLists r.first.items r.next.items) }
    ensures nodes { IfOk result (λ r. length r.first.items ≡ nodes) }
    ensures arcs { IfOk result (λ r. length r.next.items ≡ 2 * length arcs.now) }
{
    let mut lists = Lists {
        first: Vec::from_elem(alloc, 0, nodes)?,
        next: Vec::new(alloc),
    };
    for arc in arcs {
        list_link(&mut lists, arc.from as usize)?;
        list_link(&mut lists, arc.to as usize)?;
    }
    Ok(lists)
}

/// The link of a number.
fn link_of(arcs: &[Arc], number: usize) -> Link
    requires some { 0 < number }
    requires inside { number ≤ 2 * length arcs.now }
    ensures arc { result.step.arc < length arcs.now }
    ensures to { result.to ≡ head_of arcs.now result.step }
{
    let place = number - 1;
    let step = ResidualArc {
        arc: place / 2,
        along: place % 2 == 0,
    };
    Link {
        to: head(arcs, step),
        step,
    }
}

/// Adds the links of the list that begins with this one.
fn add_list(
    arcs: &[Arc],
    lists: &Lists,
    first: usize,
    links: &mut Vec<Link>,
) -> Result<(), AllocError>
    requires ends { HasEnds (length lists.now.first.items) arcs.now }
    requires lists { HasLists lists.now.first.items lists.now.next.items }
    requires places { length lists.now.next.items ≡ 2 * length arcs.now }
    requires inside { first ≤ length lists.now.next.items }
    requires links { AreLinks (length lists.now.first.items) (length arcs.now) links.old.items }
    ensures links { OnOk result (AreLinks (length lists.now.first.items) (length arcs.now) links.new.items) }
    ensures more { OnOk result (length links.old.items ≤ length links.new.items) }
{
    let mut number = first;
    'list: while number != 0 {
        links.push(link_of(arcs, number))?;
        number = lists.next[number - 1];
    }
    Ok(())
}

/// The links of a net.
pub(crate) fn make_links(alloc: Global, arcs: &[Arc], nodes: usize) -> Result<Links, AllocError>
    requires { HasEnds nodes arcs.now }
    ensures links { IfOk result (λ r. HasLinks nodes (length arcs.now) r.starts.items r.all.items) }
    ensures nodes { IfOk result (λ r. r.nodes ≡ nodes) }
{
    let lists = make_lists(alloc, arcs, nodes)?;
    let mut starts = Vec::new(alloc);
    let mut all = Vec::new(alloc);
    for first in lists.first.as_slice() {
        starts.push(all.len())?;
        add_list(arcs, &lists, *first, &mut all)?;
    }
    starts.push(all.len())?;
    Ok(Links { nodes, starts, all })
}
