//! What an instruction does to lanes otherwise than before.

ghost use Rattle.std.specs.Prelude.{◌≡◌, true, map, IfOk, OnOk};
ghost use Rattle.instr_effects.specs.LaneActs.{no_act, is_once};
ghost use Rattle.live_edits.specs.ActChanges.{AddsFormer, AddsFurther, AreChanged};

use instr_effects::lane_acts::{LaneAct, act_on, has_act};
use std::alloc::{AllocError, Global};

/// Whether two acts are the same on one lane.
fn same_act(a: LaneAct, b: LaneAct) -> bool
    ensures same { result ≡ true → a ≡ b }
    ensures other { a ≡ b → result ≡ true }
{
    a == b
}

/// Adds what is done now to the lanes to which something else was done before.
fn add_former(
    before: &[LaneAct],
    after: &[LaneAct],
    changed: &mut Vec<LaneAct>,
) -> Result<(), AllocError>
    ensures { OnOk result (AddsFormer before.now after.now changed.old.items changed.new.items) }
{
    'acts: for act in before {
        let now = act_on(after, act.lane);
        if !same_act(*act, now) {
            changed.push(now)?;
        }
    }
    Ok(())
}

/// Adds what is done now to the lanes to which nothing was done before.
fn add_further(
    before: &[LaneAct],
    after: &[LaneAct],
    changed: &mut Vec<LaneAct>,
) -> Result<(), AllocError>
    ensures { OnOk result (AddsFurther before.now after.now changed.old.items changed.new.items) }
{
    'acts: for act in after {
        if !has_act(before, act.lane) {
            changed.push(*act)?;
        }
    }
    Ok(())
}

/// Acts of nothing on the lanes of acts.
pub fn idle_acts(alloc: Global, acts: &[LaneAct]) -> Result<Vec<LaneAct>, AllocError>
    ensures { IfOk result (λ idle. idle.items ≡ map (λ a. no_act a.lane) acts.now) }
{
    let mut idle = Vec::with_capacity(alloc, acts.len())?;
    'acts: for act in acts {
        idle.push(LaneAct {
            lane: act.lane,
            read: None,
            write: None,
        })?;
    }
    Ok(idle)
}

/// What is done now to the lanes to which something else was done before.
pub fn changed_acts(
    alloc: Global,
    before: &[LaneAct],
    after: &[LaneAct],
) -> Result<Vec<LaneAct>, AllocError>
    ensures { IfOk result (λ acts. is_once after.now ≡ true → AreChanged before.now after.now acts.items) }
{
    let mut changed = Vec::with_capacity(alloc, after.len())?;
    add_former(before, after, &mut changed)?;
    add_further(before, after, &mut changed)?;
    Ok(changed)
}
