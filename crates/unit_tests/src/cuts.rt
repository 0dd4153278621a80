//! Least cuts of small nets.

ghost use Rattle.std.specs.Prelude.{◌≡◌, ◌<◌, ◌≤◌, ◌+◌, IfOk, OnOk, length};
ghost use Rattle.cut_place.specs.Flows.{HasEnds, HasSmallCapacities};

use cut_place::{Arc, Arcs, Net, least_cut};
use std::alloc::{AllocError, Global};
use std::test::Fail;
use target_base::List;

/// Adds an arc, if it's one between nodes.
fn add_arc(arcs: &mut Arcs, nodes: u32, arc: Arc) -> Result<(), AllocError>
    requires ends { HasEnds nodes arcs.old }
    requires small { HasSmallCapacities arcs.old }
    ensures more { OnOk result (length arcs.new ≤ length arcs.old + 1) }
    ensures ends { OnOk result (HasEnds nodes arcs.new) }
    ensures small { OnOk result (HasSmallCapacities arcs.new) }
{
    if arc.from >= nodes || arc.to >= nodes || arc.cap > 1_000_000 {
        return Ok(());
    }
    arcs.push(arc)?;
    Ok(())
}

/// The net of the rows that are arcs between nodes: from, to and capacity.
fn net_of(alloc: Global, nodes: u32, rows: &[(u32, u32, u128)]) -> Result<Net, AllocError>
    ensures nodes { IfOk result (λ made. made.nodes ≡ nodes) }
    ensures few { IfOk result (λ made. length made.arcs ≤ length rows.now) }
    ensures ends { IfOk result (λ made. HasEnds nodes made.arcs) }
    ensures small { IfOk result (λ made. HasSmallCapacities made.arcs) }
{
    let mut arcs: Arcs = List::new(alloc);
    for row in rows {
        let (from, to, cap) = *row;
        add_arc(&mut arcs, nodes, Arc { from, to, cap })?;
    }
    Ok(Net { nodes, arcs })
}

/// The cost of a least cut of four nodes, and whether nodes 0, 2 and 3 are inside.
fn cut_four(
    alloc: Global,
    rows: &[(u32, u32, u128)],
) -> Result<(u128, bool, bool, bool), AllocError>
    requires { length rows.now ≤ 16384 }
{
    let net = net_of(alloc, 4, rows)?;
    let cut = least_cut(alloc, &net)?;
    let inside = cut.inside.as_slice();
    Ok((cut.cost, inside[0], inside[2], inside[3]))
}

/// The flow must go round: two of three units that reach node 2 go straight on.
#[test]
fn cuts_four_nodes(rt: HostRuntime) -> Result<(), Fail> {
    let rows = [(0, 2, 3), (2, 1, 2), (0, 3, 1), (3, 1, 4), (2, 3, 5)];
    let (cost, first, second, third) = cut_four(rt.alloc(), &rows)?;
    assert_eq!(rt; cost, 4);
    assert!(rt; first && !second && !third);
    Ok(())
}

/// Of two least cuts, before node 2 and after it, the one that is nearer to the source.
#[test]
fn takes_the_least_side(rt: HostRuntime) -> Result<(), Fail> {
    let rows = [(0, 3, 9), (3, 2, 5), (2, 1, 5)];
    let (cost, first, second, third) = cut_four(rt.alloc(), &rows)?;
    assert_eq!(rt; cost, 5);
    assert!(rt; first && !second && third);
    Ok(())
}

/// A path has to be undone: the first one found may take arc 2 to 3.
#[test]
fn sends_back(rt: HostRuntime) -> Result<(), Fail> {
    let rows = [(2, 3, 1), (0, 2, 1), (0, 3, 1), (2, 1, 1), (3, 1, 1)];
    let (cost, first, second, third) = cut_four(rt.alloc(), &rows)?;
    assert_eq!(rt; cost, 2);
    assert!(rt; first && !second && !third);
    Ok(())
}
