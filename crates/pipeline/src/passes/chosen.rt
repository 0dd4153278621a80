//! The registers of a function.

ghost use Rattle.std.specs.Prelude.{◌∷◌, List, OnOk, OnErr};
ghost use Rattle.watchers.specs.declared.steps.Step.{Step};
ghost use Rattle.watchers.specs.declared.steps.Step.TheVariants.{Begin};
ghost use Rattle.watchers.specs.Told.{AllTold, PartTold};
ghost use Rattle.greedy_core.specs.Bounds.{AreBounded};

use crate::passes::allocator::Allocator;
use crate::passes::ready::{PreparedFunc, prepare};
use greedy_core::{Watcher, allocate};
use live_lanes::LiveFunc;
use mir_func::Func;
use rewriter::rewrite;
use slot_colour::colour_slots;
use spiller::RunStop;
use std::alloc::Global;
use target_base::Target;

/// The function in physical form, with the registers that the run of an allocator chooses, and with its
/// spill slots coloured where the allocator does that. Its places were tested before (`served`). Its
/// number is that in its file, with which the run begins; each watcher is told every step of the run,
/// and a first part of the run where it is refused.
pub fn with_registers<W: Watcher>(
    alloc: Global,
    target: &Target,
    source: LiveFunc,
    allocator: Allocator,
    number: u32,
    watchers: &mut Vec<W>,
) -> Result<Func, RunStop>
    ensures told { OnOk result ((steps : List Step) × AllTold (W.next target.now) (Begin number ∷ steps) watchers.old.items watchers.new.items × AreBounded steps) }
    ensures part { OnErr result ((steps : List Step) × PartTold (W.next target.now) steps watchers.old.items watchers.new.items) }
{
    let PreparedFunc { live, freqs } = prepare(alloc, target, source)?;
    let done = allocate(
        alloc,
        target,
        live,
        &freqs,
        allocator.policy(),
        number,
        watchers,
    )?;
    let made = rewrite(alloc, target, done)?;
    if allocator.colours() {
        Ok(colour_slots(alloc, target, made)?)
    } else {
        Ok(made)
    }
}
