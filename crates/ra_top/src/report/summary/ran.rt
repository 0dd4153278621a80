//! The lines for a function and its allocation.

ghost use Rattle.std.specs.Prelude.{IfOk};
ghost use Rattle.ra_top.specs.Report.Summary.Summary.{IsRanOf, IsSummary};

use crate::report::summary::counts::{RunSummary, ran_of, size_of};
use crate::report::summary::lines::{put_allocated, put_run, put_seed, put_source};
use mir_func::Func;
use mir_interp::{Env, run};
use std::alloc::{AllocError, Global};
use target_base::{Bytes, Target};

/// How many counted instructions a function is run through.
const STEPS: u64 = 10_000;

/// What the run of a function came to, in the environment of the seed.
fn ran(alloc: Global, target: &Target, seed: u64, f: &Func) -> Result<RunSummary, AllocError>
    ensures { IfOk result (IsRanOf target.now f.now 10000 seed) }
{
    let outcome = run(alloc, target, f, &Env { seed }, STEPS)?;
    Ok(ran_of(&outcome))
}

/// The five lines for a seed, a source and its allocation: the seed; how many blocks, instructions and
/// virtual registers the source has; how many instructions and spill slots the allocation; and of the
/// run of each, through 10,000 counted instructions in the environment of the seed, how many events it
/// had and how it ended.
pub(crate) fn summary(
    alloc: Global,
    target: &Target,
    seed: u64,
    source: &Func,
    made: &Func,
) -> Result<Bytes, AllocError>
    ensures { IfOk result (IsSummary target.now seed source.now made.now) }
{
    let before = ran(alloc, target, seed, source)?;
    let after = ran(alloc, target, seed, made)?;
    let mut out = Bytes::new(alloc);
    put_seed(&mut out, seed)?;
    put_source(&mut out, size_of(source))?;
    put_allocated(&mut out, size_of(made))?;
    put_run(&mut out, "source", before)?;
    put_run(&mut out, "allocated", after)?;
    Ok(out)
}
