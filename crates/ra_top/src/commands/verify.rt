//! The command `verify` at a function.

ghost use Rattle.std.specs.Prelude.{◌≡◌, ◌++◌, None, IfOk, IfErr, codes};
ghost use Rattle.mir_meaning.specs.Valid.{IsValid};
ghost use Rattle.machine_verify.specs.Lives.{FitsTarget};
ghost use Rattle.mir_meaning.specs.declared.Form.TheVariants as forms;
ghost use Rattle.pipeline.specs.Guarded.Limits.{passed_limit};
ghost use Rattle.pipeline.specs.Guarded.Function.{IsTaken, IfUnfit};
ghost use Rattle.ra_top.specs.Commands.Documents.{valid_line, IsVerifyAnswer, VerifyRefuses};
ghost use Rattle.ra_top.specs.Commands.Piece.{IfBy};

use crate::commands::answer::Answer;
use crate::commands::refusal::{Refusal, refusal_of, refused};
use machine_verify::LiveSource;
use mir_func::{Func, Valid};
use mir_meaning::Form;
use pipeline::guarded::{FunctionStop, NamedSource, allocated_name, live_source};
use std::alloc::{AllocError, Global};
use target_base::{Bytes, Target};

/// The name of a function that lies within the limits and is valid in a form.
fn verify_in_form(
    alloc: Global,
    target: &Target,
    form: Form,
    f: Func,
) -> Result<Bytes, FunctionStop>
    requires { FitsTarget target.now f }
    ensures ok { IfOk result (λ name. (name ≡ f.name) × (passed_limit f ≡ None) × IsValid target.now form f) }
    ensures err { IfErr result (IfUnfit target.now form f) }
{
    match form {
        Form::Source => match live_source(alloc, target, f) {
            Ok(NamedSource { name, .. }) => Ok(name),
            Err(stop) => Err(stop),
        },
        Form::Allocated => allocated_name(alloc, target, &f),
    }
}

/// The function, where it is within the limits and valid as a source.
#[tactic(auto, using(crate::proofs::CommandLemmas::Causes::source_refused))]
pub(crate) fn source_of(alloc: Global, target: &Target, f: Func) -> Result<Valid, Refusal>
    requires { FitsTarget target.now f }
    ensures ok { IfOk result (λ v. (v.func ≡ f) × IsTaken target.now f) }
    ensures err { IfErr result (IfBy (VerifyRefuses target.now forms.Source f)) }
{
    match live_source(alloc, target, f) {
        Ok(NamedSource { live, .. }) => {
            let LiveSource { source, .. } = live;
            Ok(source)
        }
        Err(stop) => Err(refusal_of(alloc, stop)),
    }
}

/// The line of a valid function of a name.
fn valid_line(alloc: Global, name: &[u8]) -> Result<Bytes, AllocError>
    ensures { IfOk result (λ b. b ≡ valid_line name.now) }
{
    let mut line = Bytes::from_slice(alloc, b"valid ")?;
    line.extend(name)?;
    line.extend(b"\n")?;
    Ok(line)
}

/// Says of a function that it is valid in a form, or where it isn't.
#[tactic(auto, using(crate::proofs::CommandLemmas::Causes::verify_refused))]
pub(crate) fn verified_function(
    alloc: Global,
    target: &Target,
    form: Form,
    f: Func,
) -> Result<Answer, AllocError>
    requires { FitsTarget target.now f }
    ensures { IfOk result (IsVerifyAnswer target.now form f) }
{
    match verify_in_form(alloc, target, form, f) {
        Ok(name) => {
            let line = valid_line(alloc, name.as_slice())?;
            Ok(Answer::Text(line))
        }
        Err(stop) => refused(alloc, stop),
    }
}
