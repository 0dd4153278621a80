//! The command `run` at a function.

ghost use Rattle.std.specs.Prelude.{◌≡◌, IfOk};
ghost use Rattle.machine_verify.specs.Lives.{FitsTarget};
ghost use Rattle.ra_top.specs.Commands.Documents.{IsRunAnswer, IsNamedAnswer, IsSecondAnswer};

use crate::commands::answer::Answer;
use crate::commands::refusal::refused;
use crate::commands::status::Status;
use crate::commands::words::invalid_words;
use crate::report::run::text_of_run;
use machine_verify::{Invalid, VerifyStop};
use mir_func::Func;
use pipeline::guarded::{FunctionStop, live_source, verify_allocated};
use std::alloc::{AllocError, Global};
use target_base::{Bytes, Target};

/// Runs a function that isn't valid as a source, with this first fault, where it is valid as an
/// allocated function.
fn ran_allocated(
    alloc: Global,
    target: &Target,
    n: u64,
    seed: u64,
    f: &Func,
    invalid: Invalid,
) -> Result<Answer, AllocError>
    requires { FitsTarget target.now f.now }
    ensures { IfOk result (IsSecondAnswer target.now n seed f.now invalid) }
{
    match verify_allocated(alloc, target, f) {
        Ok(()) => Ok(Answer::Last(text_of_run(alloc, target, f, n, seed)?)),
        Err(VerifyStop::Invalid(_)) => {
            let detail = invalid_words(alloc, f.name.as_slice(), invalid)?;
            Ok(Answer::Refused(Status::Invalid(invalid), detail))
        }
        Err(VerifyStop::Memory(e)) => Err(e),
    }
}

/// Runs a function that is valid as a source, or else as an allocated function.
fn ran(alloc: Global, target: &Target, n: u64, seed: u64, f: Func) -> Result<Answer, AllocError>
    requires { FitsTarget target.now f }
    ensures { IfOk result (IsRunAnswer target.now n seed f) }
{
    let copy = f.copy(alloc)?;
    match live_source(alloc, target, copy) {
        Ok(named) => {
            Ok(Answer::Last(text_of_run(alloc, target, &named.live.source.func, n, seed)?))
        }
        Err(FunctionStop::Invalid(_, invalid)) => {
            ran_allocated(alloc, target, n, seed, &f, invalid)
        }
        Err(FunctionStop::Limit(limit)) => refused(alloc, FunctionStop::Limit(limit)),
        Err(FunctionStop::Unassignable(name, place)) => {
            refused(alloc, FunctionStop::Unassignable(name, place))
        }
        Err(FunctionStop::NotYet) => refused(alloc, FunctionStop::NotYet),
        Err(FunctionStop::Memory(e)) => Err(e),
    }
}

/// Runs a function where it has a name, and passes over it where it has another.
pub(crate) fn at_named(
    alloc: Global,
    target: &Target,
    name: &str,
    n: u64,
    seed: u64,
    f: Func,
) -> Result<Answer, AllocError>
    requires { FitsTarget target.now f }
    ensures { IfOk result (IsNamedAnswer target.now name.now n seed f) }
{
    if f.name.as_slice() == name.as_bytes() {
        ran(alloc, target, n, seed, f)
    } else {
        Ok(Answer::Text(Bytes::new(alloc)))
    }
}
