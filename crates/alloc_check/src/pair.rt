//! The checker of allocations by anybody.

ghost use Rattle.std.specs.Prelude.{IfOk};
ghost use Rattle.machine_verify.specs.Lives.{FitsTarget};
ghost use Rattle.alloc_check.specs.Verdict.{IfYes, IsRight, TellsAgreement};

use crate::check::{Verdict, agree};
use crate::doubts::entry_place;
use crate::fitting::fits;
use machine_verify::{VerifyStop, verify_allocated};
use mir_func::{Func, Valid};
use std::alloc::{AllocError, Global};
use target_base::Target;

/// Whether an allocated function, whoever made it, is right for its source. Yes says that it is valid
/// in the allocated form, that it names no virtual register, that its blocks and counted instructions
/// match those of the source, so that calls and returns name the registers, symbols and masks that the
/// source names, and that it does all that the source does, in every environment and through every
/// number of instructions. No comes with the fault's
/// place in the allocated function, or the first place of the source in doubt; and with the start of
/// the allocated function where it holds a class that isn't the target's, as no function does that is
/// read under it.
#[tactic(auto, using(crate::proofs::Classes::valid_of))]
pub fn check_pair(
    alloc: Global,
    target: &Target,
    source: &Valid,
    allocated: &Func,
) -> Result<Verdict, AllocError>
    ensures right { IfOk result (IfYes (IsRight target.now source.now.func allocated.now)) }
    ensures agreement { FitsTarget target.now allocated.now → IfOk result (TellsAgreement target.now source.now.func allocated.now) }
{
    if !fits(target, allocated) {
        return Ok(Verdict::No(entry_place(allocated)));
    }
    match verify_allocated(alloc, target, allocated) {
        Ok(()) => agree(alloc, target, &source.func, allocated),
        Err(VerifyStop::Invalid(fault)) => Ok(Verdict::No(fault.place)),
        Err(VerifyStop::Memory(e)) => Err(e),
    }
}
