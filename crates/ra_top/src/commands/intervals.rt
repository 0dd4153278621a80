//! The command `intervals` at a function.

ghost use Rattle.std.specs.Prelude.{◌≤◌, ◌^◌, IfOk, IfErr};
ghost use Rattle.machine_verify.specs.Lives.{FitsTarget};
ghost use Rattle.mir_meaning.specs.Places.{PlacesServe};
ghost use Rattle.phi_elim.specs.Bulk.{bulk};
ghost use Rattle.pipeline.specs.Guarded.Function.{IsTaken, IfBeforeRun, IfRefused};
ghost use Rattle.ra_top.specs.Commands.Documents.{IsIntervals, IsIntervalsAnswer};

use crate::commands::answer::Answer;
use crate::commands::refusal::refused;
use crate::report::intervals::text_of_intervals;
use mir_func::Func;
use pipeline::guarded::{FunctionStop, ServedSource, served_source};
use pipeline::passes::prepare;
use std::alloc::{AllocError, Global};
use target_base::{Bytes, Shared, Target};

/// The text of what is live where in a function once it is made ready for the allocator's run.
fn text_of(alloc: Global, target: &Shared<Target>, f: Func) -> Result<Bytes, FunctionStop>
    requires fits { FitsTarget target.now f }
    requires bulk { bulk f ≤ 2 ^ 24 }
    ensures ok { IfOk result (λ text. IsTaken target.now f × PlacesServe target.now f × IsIntervals target.now f f.name text) }
    ensures err { IfErr result (IfRefused target.now f) }
    ensures early { IfErr result IfBeforeRun }
{
    let ServedSource { name, live } = served_source(alloc, target, f)?;
    let made = prepare(alloc, target.get(), live)?;
    let text = text_of_intervals(alloc, target.get(), name.as_slice(), &made)?;
    Ok(text)
}

/// What is live where in a function once it is made ready for the allocator's run.
#[tactic(auto, using(crate::proofs::CommandLemmas::Causes::intervals_refused))]
pub(crate) fn intervals_of(
    alloc: Global,
    target: &Shared<Target>,
    f: Func,
) -> Result<Answer, AllocError>
    requires fits { FitsTarget target.now f }
    requires bulk { bulk f ≤ 2 ^ 24 }
    ensures { IfOk result (IsIntervalsAnswer target.now f) }
{
    match text_of(alloc, target, f) {
        Ok(text) => Ok(Answer::Text(text)),
        Err(stop) => refused(alloc, stop),
    }
}
