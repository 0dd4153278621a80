//! One function.

ghost use Rattle.std.specs.Prelude.{◌≡◌, true, IfOk, IfErr, OnOk, OnErr};
ghost use Rattle.machine_verify.specs.Lives.{FitsTarget};
ghost use Rattle.pipeline.specs.Guarded.Function.{Allocates, IsTextFor, IfRefused, comes_before_run};
ghost use Rattle.pipeline.specs.Guarded.Told.{ToldRun, ToldPart};

use crate::guarded::guard::check_allocation;
use crate::guarded::source::{ServedSource, served_source};
use crate::guarded::spelled::Allocation;
use crate::guarded::stop::FunctionStop;
use crate::passes::{Allocator, Watcher, with_registers};
use mir_func::{Func, Valid};
use mir_text::DocReader;
use std::alloc::Global;

/// The function with its registers chosen by an allocator and its text, once the checker of allocations
/// has said Yes to what the text spells: so too where the spill slots were coloured. Its number is that
/// in its file, with which the run begins; each watcher is told every step of the run.
/// Refused are, in this order, a function that passes a limit of its blocks, instructions or virtual
/// registers, one that isn't valid as a source, one a place of which has too many variables, one a
/// place of which admits no choice of registers, and one whose run passes the limit of range numbers.
/// The function is dropped at a refusal. The watchers are told nothing of a function that is refused
/// before its run, and a first part of the run at another refusal.
pub fn allocate_function<W: Watcher>(
    alloc: Global,
    reader: &DocReader,
    f: Func,
    allocator: Allocator,
    number: u32,
    watchers: &mut Vec<W>,
) -> Result<Allocation, FunctionStop>
    requires { FitsTarget reader.now f }
    ensures ok { IfOk result (λ a. Allocates reader.now f a.func) }
    ensures text { IfOk result (λ a. IsTextFor reader.now a.func a.text) }
    ensures err { IfErr result (IfRefused reader.now f) }
    ensures untold { IfErr result (λ stop. comes_before_run stop ≡ true → watchers.new ≡ watchers.old) }
    ensures told { OnOk result (ToldRun (W.next reader.now) number watchers.old.items watchers.new.items) }
    ensures part { OnErr result (ToldPart (W.next reader.now) watchers.old.items watchers.new.items) }
{
    let target = reader.target();
    let ServedSource { live, .. } = served_source(alloc, reader.shared_target(), f)?;
    // (lowering takes the function to pieces, and the guard needs it whole)
    let func = live.func().copy(alloc)?;
    let kept = Valid { func };
    let made = with_registers(alloc, target, live, allocator, number, watchers)?;
    match check_allocation(alloc, reader, &kept, made)? {
        Some(made) => Ok(made),
        None => Err(FunctionStop::NotYet),
    }
}
