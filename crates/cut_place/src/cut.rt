//! Least cuts, by Dinic's algorithm.

ghost use Rattle.std.specs.Prelude.{◌≡◌, ℕ, ◌<◌, ◌≤◌, ◌^◌, Bool, true, IfOk, OnOk, length, slice_index};
ghost use Rattle.cut_place.specs.Flows.{HasEnds, HasSmallCapacities, HasValue, IsBalanced, IsConserved, IsCut, IsWithin, capacity_leaving, in_set};
ghost use Rattle.cut_place.specs.Searches.{IsSearch, reached};
ghost use Rattle.cut_place.specs.Links.{HasLinks};

use crate::links::{Links, make_links};
use crate::net::{Arc, Cut, Net};
use crate::paths::{SINK, send};
use crate::search::{Search, UNREACHED, search_from};
use crate::walk::blocking_flow;
use std::alloc::{AllocError, Global};
use target_base::{Flags, List};

/// Which nodes were reached.
fn reached_nodes(alloc: Global, levels: &[usize]) -> Result<Flags, AllocError>
    ensures len { IfOk result (λ r. length r ≡ length levels.now) }
    ensures flags { IfOk result (λ r. (v : ℕ) → v < length levels.now → in_set r v ≡ reached levels.now v) }
{
    let mut flags = List::new(alloc);
    for level in levels {
        flags.push(*level < UNREACHED)?;
    }
    Ok(flags)
}

/// Augments a flow along the path by which the sink was reached, and then until the levels are
/// blocked. Gives the flow's value, which has grown.
fn phase(
    alloc: Global,
    arcs: &[Arc],
    flow: &mut [u128],
    links: &Links,
    search: &Search,
    value: u128,
) -> Result<u128, AllocError>
    requires within { IsWithin arcs.now flow.old }
    requires small { HasSmallCapacities arcs.now }
    requires few { length arcs.now ≤ 16384 }
    requires ends { HasEnds (length search.now.levels.items) arcs.now }
    requires links { HasLinks links.now.nodes (length arcs.now) links.now.starts.items links.now.all.items }
    requires all_linked { links.now.nodes ≡ length search.now.levels.items }
    requires search { IsSearch arcs.now flow.old search.now.levels.items search.now.before.items search.now.queue.items }
    requires sink { slice_index search.now.levels.items 1 < 4096 }
    requires balanced { IsBalanced arcs.now flow.old value }
    ensures within { OnOk result (IsWithin arcs.now flow.new) }
    ensures balanced { IfOk result (λ v. IsBalanced arcs.now flow.new v) }
    ensures more { IfOk result (λ v. value < v) }
    ensures fits { IfOk result (λ v. v ≤ 2 ^ 126) }
{
    let levels = search.levels.as_slice();
    let mut steps = Vec::new(alloc);
    let first = send(
        arcs,
        flow,
        levels,
        search.before.as_slice(),
        value,
        &mut steps,
    )?;
    let last = blocking_flow(alloc, arcs, flow, links, levels, first)?;
    Ok(last)
}

/// A least cut of a net, and a greatest flow, by Dinic's algorithm (E. A. Dinic, "Algorithm for
/// solution of a problem of maximum flow in networks with power estimation", Soviet Mathematics
/// Doklady 11, 1970): each phase numbers the nodes by their distance from the source in the
/// residual net, breadth first, and then blocks the flow between successive levels, depth first
/// with current arcs. The last phase doesn't reach the sink, and what it reaches is the source's
/// side of the cut.
pub fn least_cut(alloc: Global, net: &Net) -> Result<Cut, AllocError>
    requires nodes { 2 ≤ net.now.nodes }
    requires most { net.now.nodes ≤ 4096 }
    requires few { length net.now.arcs ≤ 16384 }
    requires ends { HasEnds net.now.nodes net.now.arcs }
    requires small { HasSmallCapacities net.now.arcs }
    ensures within { IfOk result (λ cut. IsWithin net.now.arcs cut.flow) }
    ensures conserved { IfOk result (λ cut. IsConserved net.now.arcs cut.flow) }
    ensures value { IfOk result (λ cut. HasValue net.now.arcs cut.flow cut.cost) }
    ensures sides { IfOk result (λ cut. length cut.inside ≡ net.now.nodes) }
    ensures cut { IfOk result (λ cut. IsCut (in_set cut.inside)) }
    ensures cost { IfOk result (λ cut. cut.cost ≡ capacity_leaving (in_set cut.inside) net.now.arcs) }
    ensures least { IfOk result (λ cut. (nodes : ℕ → Bool) → IsCut nodes → cut.cost ≤ capacity_leaving nodes net.now.arcs) }
    ensures smallest { IfOk result (λ cut. (nodes : ℕ → Bool) → IsCut nodes → capacity_leaving nodes net.now.arcs ≡ cut.cost → (v : ℕ) → in_set cut.inside v ≡ true → nodes v ≡ true) }
{
    let arcs = net.arcs.as_slice();
    let links = make_links(alloc, arcs, net.nodes as usize)?;
    let mut flow = Vec::from_elem(alloc, 0u128, arcs.len())?;
    let mut value = 0;
    'phases: loop {
        let search = search_from(alloc, arcs, flow.as_slice(), &links)?;
        let levels = search.levels.as_slice();
        if levels[SINK] >= UNREACHED {
            return Ok(Cut {
                inside: reached_nodes(alloc, levels)?,
                flow: List::from_vec(flow),
                cost: value,
            });
        }
        value = phase(alloc, arcs, flow.as_mut_slice(), &links, &search, value)?;
    }
}
