//! Augmenting paths.

ghost use Rattle.std.specs.Prelude.{◌≡◌, ℕ, ◌+◌, ◌<◌, ◌≤◌, ◌↔◌, IsTrue, IfOk, IfSome, IsSome, OnOk, List, length, slice_index};
ghost use Rattle.cut_place.specs.Flows.{HasEnds, HasSmallCapacities, IsBalanced, IsWithin};
ghost use Rattle.cut_place.specs.Trails.{IsTrail, IsTree, LeadsTo};

use crate::net::Arc;
use crate::steps::{ResidualArc, head, push, residual, tail};
use std::alloc::AllocError;

/// The number of the source.
pub(crate) const SOURCE: usize = 0;

/// The number of the sink.
pub(crate) const SINK: usize = 1;

/// Whether a residual arc has room and enters a node from one a level lower.
pub(crate) fn leads_to(
    arcs: &[Arc],
    flow: &[u128],
    levels: &[usize],
    at: usize,
    step: ResidualArc,
) -> bool
    requires within { IsWithin arcs.now flow.now }
    requires ends { HasEnds (length levels.now) arcs.now }
    requires at_node { at < length levels.now }
    ensures { IsTrue result ↔ LeadsTo arcs.now flow.now levels.now at step }
{
    if step.arc >= arcs.len() {
        return false;
    }
    let before = levels[tail(arcs, step)];
    let here = levels[at];
    let enters = head(arcs, step) == at;
    let room = residual(arcs, flow, step);
    enters && room > 0 && before < here && here - before == 1
}

/// Follows the augmenting path back from the sink, by the residual arcs that lead to its nodes.
/// Gives the least of their residual capacities; None where they don't make a path.
fn trace(
    arcs: &[Arc],
    flow: &[u128],
    levels: &[usize],
    before: &[ResidualArc],
    steps: &mut Vec<ResidualArc>,
) -> Result<Option<u128>, AllocError>
    requires within { IsWithin arcs.now flow.now }
    requires ends { HasEnds (length levels.now) arcs.now }
    requires nodes { 2 ≤ length levels.now }
    requires same_len { length before.now ≡ length levels.now }
    ensures trail { IfOk result (λ r. IfSome r (λ amount. (1 ≤ amount) × IsTrail arcs.now flow.now levels.now amount 1 steps.new.items 0)) }
    ensures found { IsTree arcs.now flow.now levels.now before.now → slice_index levels.now 1 < 4096 → IfOk result (λ r. IsSome r) }
{
    steps.clear();
    let mut amount = u128::MAX;
    let mut at = SINK;
    'back: while at != SOURCE {
        let step = before[at];
        if !leads_to(arcs, flow, levels, at, step) {
            return Ok(None);
        }
        amount = amount.min(residual(arcs, flow, step));
        steps.push(step)?;
        at = tail(arcs, step);
    }
    Ok(Some(amount))
}

/// Sends an amount along a path.
fn augment(arcs: &[Arc], flow: &mut [u128], steps: &[ResidualArc], amount: u128)
    requires within { IsWithin arcs.now flow.old }
    requires small { HasSmallCapacities arcs.now }
    requires trail { (levels : List ℕ) × IsTrail arcs.now flow.old levels amount 1 steps.now 0 }
    ensures within { IsWithin arcs.now flow.new }
    ensures balanced { (value : ℕ) → IsBalanced arcs.now flow.old value → IsBalanced arcs.now flow.new (value + amount) }
{
    for step in steps {
        push(arcs, flow, *step, amount);
    }
}

/// Augments a flow along the path that the residual arcs before each node make, if they make one.
/// Gives the flow's value. The steps are room for the path, used again from call to call.
pub(crate) fn send(
    arcs: &[Arc],
    flow: &mut [u128],
    levels: &[usize],
    before: &[ResidualArc],
    value: u128,
    steps: &mut Vec<ResidualArc>,
) -> Result<u128, AllocError>
    requires within { IsWithin arcs.now flow.old }
    requires small { HasSmallCapacities arcs.now }
    requires few { length arcs.now ≤ 16384 }
    requires ends { HasEnds (length levels.now) arcs.now }
    requires nodes { 2 ≤ length levels.now }
    requires same_len { length before.now ≡ length levels.now }
    requires balanced { IsBalanced arcs.now flow.old value }
    ensures within { OnOk result (IsWithin arcs.now flow.new) }
    ensures balanced { IfOk result (λ v. IsBalanced arcs.now flow.new v) }
    ensures grows { IfOk result (λ v. value ≤ v) }
    ensures more { IsTree arcs.now flow.old levels.now before.now → slice_index levels.now 1 < 4096 → IfOk result (λ v. value < v) }
{
    match trace(arcs, flow, levels, before, steps)? {
        None => Ok(value),
        Some(amount) => {
            augment(arcs, flow, steps.as_slice(), amount);
            Ok(value + amount)
        }
    }
}
