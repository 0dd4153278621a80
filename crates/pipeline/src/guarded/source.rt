//! What is asked of a function before anything is made of it: its limits, its validity and its places,
//! here for all commands.

ghost use Rattle.std.specs.Prelude.{◌≡◌, None, IfOk, IfErr, OnOk};
ghost use Rattle.live_lanes.specs.Doing.{IsComputed};
ghost use Rattle.machine_verify.specs.Lives.{FitsTarget};
ghost use Rattle.mir_meaning.specs.Places.{PlacesServe};
ghost use Rattle.mir_meaning.specs.Valid.{IsValid};
ghost use Rattle.mir_meaning.specs.declared.Form.TheVariants as forms;
ghost use Rattle.pipeline.specs.Guarded.Limits.{passed_limit};
ghost use Rattle.pipeline.specs.Guarded.Function.{IsTaken, IfPassed, IfRefused, IfUnfit, IfBeforeRun};

use crate::guarded::limits::passed_limit;
use crate::guarded::stop::FunctionStop;
use crate::guarded::valid::{verify_allocated, verify_live};
use crate::passes::check_source_places;
use live_lanes::LiveFunc;
use machine_verify::LiveSource;
use mir_func::Func;
use std::alloc::Global;
use target_base::{Bytes, Copied, Shared, Target};

/// A function that lies within the limits and is valid as a source.
#[derive(Drop)]
pub struct NamedSource {
    /// Its name.
    pub name: Bytes,
    /// The function, with what is live in it.
    pub live: LiveSource,
}

/// Such a function each place of which has few enough variables and admits a choice of registers.
#[derive(Drop)]
pub struct ServedSource {
    /// Its name.
    pub name: Bytes,
    /// The function with what is live in it.
    pub live: LiveFunc,
}

/// Refused is a function that passes a limit: the first of Blocks, Instructions and Registers.
pub fn within_limits(f: &Func) -> Result<(), FunctionStop>
    ensures ok { OnOk result (passed_limit f.now ≡ None) }
    ensures err { IfErr result (IfPassed f.now) }
{
    match passed_limit(f) {
        Some(limit) => Err(FunctionStop::Limit(limit)),
        None => Ok(()),
    }
}

/// The function with its name and what is live in it. Refused are one that passes a limit, and then
/// one that isn't valid as a source.
#[tactic(auto, using(crate::proofs::GuardLemmas::Refused::unfit))]
pub fn live_source(alloc: Global, target: &Target, f: Func) -> Result<NamedSource, FunctionStop>
    requires { FitsTarget target.now f }
    ensures ok { IfOk result (λ s. (s.name ≡ f.name) × (s.live.source.func ≡ f) × IsTaken target.now f) }
    ensures live { IfOk result (λ s. IsComputed target.now s.live.source.func s.live.table.table) }
    ensures err { IfErr result (IfUnfit target.now forms.Source f) }
{
    within_limits(&f)?;
    let name = f.name.copied(alloc)?;
    match verify_live(alloc, target, f) {
        Ok(live) => Ok(NamedSource { name, live }),
        Err(stop) => Err(FunctionStop::of_verifier(name, stop)),
    }
}

/// The name of a function. Refused are one that passes a limit, and then one that isn't valid in the
/// allocated form.
#[tactic(auto, using(crate::proofs::GuardLemmas::Refused::unfit))]
pub fn allocated_name(alloc: Global, target: &Target, f: &Func) -> Result<Bytes, FunctionStop>
    requires { FitsTarget target.now f.now }
    ensures ok { IfOk result (λ name. (name ≡ f.now.name) × (passed_limit f.now ≡ None) × IsValid target.now forms.Allocated f.now) }
    ensures err { IfErr result (IfUnfit target.now forms.Allocated f.now) }
{
    within_limits(f)?;
    let name = f.name.copied(alloc)?;
    match verify_allocated(alloc, target, f) {
        Ok(()) => Ok(name),
        Err(stop) => Err(FunctionStop::of_verifier(name, stop)),
    }
}

/// The function with its name and what is live in it, ready to be lowered. Refused are, in this order,
/// one that passes a limit, one that isn't valid as a source, one a place of which has too many
/// variables, and one a place of which admits no choice of registers.
pub fn served_source(
    alloc: Global,
    target: &Shared<Target>,
    f: Func,
) -> Result<ServedSource, FunctionStop>
    requires { FitsTarget target.now f }
    ensures ok { IfOk result (λ s. (s.name ≡ f.name) × (s.live.func ≡ f) × IsTaken target.now f × PlacesServe target.now f) }
    ensures target { IfOk result (λ s. s.live.target ≡ target.now) }
    ensures err { IfErr result (IfRefused target.now f) }
    ensures early { IfErr result IfBeforeRun }
{
    let NamedSource { name, live } = live_source(alloc, target.get(), f)?;
    match check_source_places(alloc, target, live) {
        Ok(live) => Ok(ServedSource { name, live }),
        Err(stop) => Err(FunctionStop::of_places(name, stop)),
    }
}
