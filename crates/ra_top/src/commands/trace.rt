//! The command `trace` at a function.

ghost use Rattle.std.specs.Prelude.{◌≡◌, IfOk, IfErr, OnOk, OnErr};
ghost use Rattle.machine_verify.specs.Lives.{FitsTarget};
ghost use Rattle.mir_meaning.specs.Places.{PlacesServe};
ghost use Rattle.pipeline.specs.Guarded.Function.{IsTaken, IfRefused};
ghost use Rattle.pipeline.specs.Guarded.Told.{ToldRun, ToldPart};
ghost use Rattle.ra_top.specs.Commands.Documents.{IsTraceAnswer};
ghost use Rattle.ra_top.specs.Commands.Told.{ToldOne};

use crate::commands::answer::{AllocatorRun, Answer};
use crate::commands::refusal::refused;
use mir_func::Func;
use pipeline::guarded::{FunctionStop, ServedSource, served_source};
use pipeline::passes::with_registers;
use std::alloc::{AllocError, Global};
use target_base::{Bytes, Shared, Target};
use watchers::Watcher;

/// Allocates a function by a run of an allocator, for the watchers. Nothing is written of it, so that
/// the checker of allocations isn't asked.
fn run_over<W: Watcher>(
    alloc: Global,
    target: &Shared<Target>,
    f: Func,
    run: AllocatorRun,
    watchers: &mut Vec<W>,
) -> Result<(), FunctionStop>
    requires { FitsTarget target.now f }
    ensures ok { OnOk result (IsTaken target.now f × PlacesServe target.now f) }
    ensures err { IfErr result (IfRefused target.now f) }
    ensures told { OnOk result (ToldRun (W.next target.now) run.number watchers.old.items watchers.new.items) }
    ensures part { OnErr result (ToldPart (W.next target.now) watchers.old.items watchers.new.items) }
{
    let ServedSource { live, .. } = served_source(alloc, target, f)?;
    let AllocatorRun { allocator, number } = run;
    with_registers(alloc, target.get(), live, allocator, number, watchers)?;
    Ok(())
}

/// Allocates a function by a run of an allocator, for the watchers.
pub(crate) fn trace_function<W: Watcher>(
    alloc: Global,
    target: &Shared<Target>,
    f: Func,
    run: AllocatorRun,
    watchers: &mut Vec<W>,
) -> Result<Answer, AllocError>
    requires { FitsTarget target.now f }
    ensures answer { IfOk result (IsTraceAnswer target.now f) }
    ensures told { IfOk result (ToldOne (W.next target.now) run.number watchers.old.items watchers.new.items) }
    ensures part { OnErr result (ToldPart (W.next target.now) watchers.old.items watchers.new.items) }
{
    match run_over(alloc, target, f, run, watchers) {
        Ok(()) => Ok(Answer::Text(Bytes::new(alloc))),
        Err(stop) => refused(alloc, stop),
    }
}
