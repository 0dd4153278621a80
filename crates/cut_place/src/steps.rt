//! Arcs of the residual net.

ghost use Rattle.std.specs.Prelude.{◌≡◌, ◌<◌, ◌≤◌, length};
ghost use Rattle.cut_place.specs.Residual.{head_of, pushed, residual_of, tail_of};
ghost use Rattle.cut_place.specs.Flows.{HasSmallCapacities, IsWithin};

use crate::net::Arc;

/// A residual arc: an arc of the net, along it or against it.
#[derive(Clone, Copy, Debug, PartialEq, Eq)]
pub(crate) struct ResidualArc {
    /// The number of the arc.
    pub(crate) arc: usize,
    /// Whether it goes along the arc.
    pub(crate) along: bool,
}

/// The node that a residual arc leaves.
pub(crate) fn tail(arcs: &[Arc], step: ResidualArc) -> usize
    requires { step.arc < length arcs.now }
    ensures { result ≡ tail_of arcs.now step }
{
    let arc = arcs[step.arc];
    if step.along {
        arc.from as usize
    } else {
        arc.to as usize
    }
}

/// The node that a residual arc enters.
pub(crate) fn head(arcs: &[Arc], step: ResidualArc) -> usize
    requires { step.arc < length arcs.now }
    ensures { result ≡ head_of arcs.now step }
{
    let arc = arcs[step.arc];
    if step.along {
        arc.to as usize
    } else {
        arc.from as usize
    }
}

/// What more can flow along a residual arc.
pub(crate) fn residual(arcs: &[Arc], flow: &[u128], step: ResidualArc) -> u128
    requires inside { step.arc < length arcs.now }
    requires within { IsWithin arcs.now flow.now }
    ensures { result ≡ residual_of arcs.now flow.now step }
{
    if step.along {
        arcs[step.arc].cap - flow[step.arc]
    } else {
        flow[step.arc]
    }
}

/// Sends an amount along a residual arc.
pub(crate) fn push(arcs: &[Arc], flow: &mut [u128], step: ResidualArc, amount: u128)
    requires inside { step.arc < length arcs.now }
    requires within { IsWithin arcs.now flow.old }
    requires small { HasSmallCapacities arcs.now }
    requires room { amount ≤ residual_of arcs.now flow.old step }
    ensures pushed { flow.new ≡ pushed flow.old step amount }
    ensures within { IsWithin arcs.now flow.new }
{
    if step.along {
        flow[step.arc] += amount;
    } else {
        flow[step.arc] -= amount;
    }
}
