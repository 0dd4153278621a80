//! The verifiers over functions whose virtual registers are of classes of their target, as each function
//! is that is read under it: for these they are exact.

ghost use Rattle.std.specs.Prelude.{◌≡◌, IfOk, IfErr, OnOk};
ghost use Rattle.mir_meaning.specs.Valid.{IsValid, FirstFault};
ghost use Rattle.mir_meaning.specs.declared.Form.TheVariants as forms;
ghost use Rattle.live_lanes.specs.Doing.{IsComputed};
ghost use Rattle.machine_verify.specs.Lives.{FitsTarget};
ghost use Rattle.machine_verify.specs.Verdict.{IfInvalid};

use machine_verify::LiveSource;
use mir_func::Func;
use std::alloc::Global;
use target_base::Target;

/// The function, with what is live in it, where it is valid as a source, and else its first fault.
#[tactic(auto, using(alloc_check::proofs::Classes::valid_of, crate::proofs::GuardLemmas::Exact::if_first))]
pub fn verify_live(
    alloc: Global,
    target: &Target,
    f: Func,
) -> Result<LiveSource, machine_verify::VerifyStop>
    requires { FitsTarget target.now f }
    ensures ok { IfOk result (λ v. (v.source.func ≡ f) × IsValid target.now forms.Source f) }
    ensures live { IfOk result (λ v. IsComputed target.now v.source.func v.table.table) }
    ensures err { IfErr result (IfInvalid (FirstFault target.now forms.Source f)) }
{
    machine_verify::verify_live(alloc, target, f)
}

/// Whether a function is valid in the allocated form, and else its first fault.
#[tactic(auto, using(alloc_check::proofs::Classes::valid_of, crate::proofs::GuardLemmas::Exact::if_first))]
pub fn verify_allocated(
    alloc: Global,
    target: &Target,
    f: &Func,
) -> Result<(), machine_verify::VerifyStop>
    requires { FitsTarget target.now f.now }
    ensures ok { OnOk result (IsValid target.now forms.Allocated f.now) }
    ensures err { IfErr result (IfInvalid (FirstFault target.now forms.Allocated f.now)) }
{
    machine_verify::verify_allocated(alloc, target, f)
}
