//! The summary of a generated function.

ghost use Rattle.std.specs.Prelude.{IfOk, IfErr, OnOk, OnErr};
ghost use Rattle.ra_top.specs.Report.Summary.Generated.{IsTextOf, IsGenText, IfGenRefused};
ghost use Rattle.machine_verify.specs.Lives.{FitsTarget};
ghost use Rattle.pipeline.specs.Guarded.Function.{IfRefused};
ghost use Rattle.pipeline.specs.Guarded.Told.{ToldRun, ToldPart};
ghost use Rattle.target_base.specs.Mini.{mini_target};

use crate::generator::generate;
use crate::report::summary::ran::summary;
use mir_func::Func;
use mir_text::DocReader;
use pipeline::guarded::{Allocator, FunctionStop, Watcher, allocate_function};
use std::alloc::Global;
use target_base::{Bytes, Target, mini};

/// The summary of a function, once it is allocated under guard by the greedy allocator with the number 0.
fn text_of<W: Watcher>(
    alloc: Global,
    target: &Target,
    seed: u64,
    source: &Func,
    watchers: &mut Vec<W>,
) -> Result<Bytes, FunctionStop>
    requires { FitsTarget target.now source.now }
    ensures ok { IfOk result (IsTextOf target.now seed source.now) }
    ensures err { IfErr result (IfRefused target.now source.now) }
    ensures told { OnOk result (ToldRun (W.next target.now) 0 watchers.old.items watchers.new.items) }
    ensures part { OnErr result (ToldPart (W.next target.now) watchers.old.items watchers.new.items) }
{
    match DocReader::new(alloc, target) {
        Ok(reader) => text_by_reader(alloc, &reader, seed, source, watchers),
        Err(e) => Err(FunctionStop::Memory(e)),
    }
}

/// The same, where a reader over the target reads what is printed.
fn text_by_reader<W: Watcher>(
    alloc: Global,
    reader: &DocReader,
    seed: u64,
    source: &Func,
    watchers: &mut Vec<W>,
) -> Result<Bytes, FunctionStop>
    requires { FitsTarget reader.now source.now }
    ensures ok { IfOk result (IsTextOf reader.now seed source.now) }
    ensures err { IfErr result (IfRefused reader.now source.now) }
    ensures told { OnOk result (ToldRun (W.next reader.now) 0 watchers.old.items watchers.new.items) }
    ensures part { OnErr result (ToldPart (W.next reader.now) watchers.old.items watchers.new.items) }
{
    let copy = source.copy(alloc)?;
    match allocate_function(alloc, reader, copy, Allocator::Greedy, 0, watchers) {
        Ok(made) => Ok(summary(alloc, reader.target(), seed, source, &made.func)?),
        Err(stop) => Err(stop),
    }
}

/// The summary of the function that is generated for a seed over the built-in target, once it is
/// allocated under guard with the number 0: the five lines that begin with `gen`, `source`,
/// `allocated`, `source` and `allocated`. The watchers are told every step of the allocator's run, and a
/// first part of them where it is refused, as each function is that isn't allocated.
#[tactic(auto, using(crate::proofs::ReportLemmas::Summary::Fitting::generated_fits))]
pub fn text_of_gen<W: Watcher>(
    alloc: Global,
    seed: u64,
    watchers: &mut Vec<W>,
) -> Result<Bytes, FunctionStop>
    ensures ok { IfOk result (IsGenText seed) }
    ensures err { IfErr result (IfGenRefused seed) }
    ensures told { OnOk result (ToldRun (W.next mini_target) 0 watchers.old.items watchers.new.items) }
    ensures part { OnErr result (ToldPart (W.next mini_target) watchers.old.items watchers.new.items) }
{
    let target = mini(alloc)?;
    match generate(alloc, &target, seed)? {
        Some(source) => text_of(alloc, &target, seed, &source, watchers),
        None => Err(FunctionStop::NotYet),
    }
}
