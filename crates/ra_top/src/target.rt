//! Reading a target file.

ghost use Rattle.std.specs.Prelude.{◌≡◌, ℕ, List, IfOk, IfErr, IfSome, codes, true};
ghost use Rattle.ra_top.specs.Told.{TargetVerdict, IsTargetOf, NamesTarget};
ghost use Rattle.ra_top.specs.Words.Words.{is_word};
ghost use Rattle.ra_top.specs.declared.commands.status.Status.TheVariants as status;
ghost use Rattle.ra_top.specs.Steps.{IsFaultOrMemory, NamesNoDevice, HasTargetCause, NamesNone};
ghost use Rattle.ra_top.specs.Watched.{IsUndone};

use crate::commands::{LimitName, Status};
use crate::devices::Files;
use crate::devices::moves::{FileStop, read_file};
use crate::ending::ExitReport;
use crate::numbers::digits;
use crate::stream::ends;
use std::alloc::{AllocError, Global};
use target_base::{Bytes, Target, mini};
use target_desc::{TargetFault, TargetStop, read_target};

/// The most bytes of a target file.
const TARGET_MOST: u32 = 1_048_576;

/// Ends with the fault of a target file.
fn target_fault(alloc: Global, fault: TargetFault) -> ExitReport
    ensures told { IsFaultOrMemory fault result.status result.detail }
    ensures fault { NamesNoDevice result.status }
    ensures undone { IsUndone result.status }
{
    match digits(alloc, fault.line as u128) {
        Err(_) => ends(alloc, Status::Memory),
        Ok(detail) => ExitReport {
            status: Status::Target(fault),
            detail,
        },
    }
}

/// The target of a word: that of the file of this name, or the built-in one for `-`; or how a run ends.
pub fn named_target<F: Files>(
    alloc: Global,
    word: &str,
    files: &mut F,
) -> Result<Target, ExitReport>
    ensures contents { (n : List ℕ) → F.contents files.new n ≡ F.contents files.old n }
    ensures ok { IfOk result (NamesTarget (is_word word.now (codes "-")) (F.contents files.old word.now)) }
    ensures named { IfErr result (λ e. is_word word.now (codes "-") ≡ true → e.status ≡ status.Memory) }
    ensures err { IfErr result (λ e. IfSome (F.contents files.old word.now) (λ bytes. TargetVerdict bytes e.status e.detail)) }
    ensures cause { HasTargetCause result (F.faults files.old) (F.faults files.new) }
    ensures undone { IfErr result (λ e. IsUndone e.status) }
{
    if word == "-" {
        return match mini(alloc) {
            Ok(target) => Ok(target),
            Err(_) => Err(ends(alloc, Status::Memory)),
        };
    }
    read_target_file(alloc, word, files)
}

/// Reads the target file of a name, or ends.
fn read_target_file<F: Files>(
    alloc: Global,
    name: &str,
    files: &mut F,
) -> Result<Target, ExitReport>
    ensures contents { (n : List ℕ) → F.contents files.new n ≡ F.contents files.old n }
    ensures ok { IfOk result (λ t. IfSome (F.contents files.old name.now) (λ bytes. IsTargetOf bytes t)) }
    ensures err { IfErr result (λ e. IfSome (F.contents files.old name.now) (λ bytes. TargetVerdict bytes e.status e.detail)) }
    ensures cause { HasTargetCause result (F.faults files.old) (F.faults files.new) }
    ensures undone { IfErr result (λ e. IsUndone e.status) }
{
    match read_file(alloc, name, files, TARGET_MOST) {
        Err(FileStop::Failed) => Err(ends(alloc, Status::ReadFault)),
        Err(FileStop::Memory(_)) => Err(ends(alloc, Status::Memory)),
        Ok(bytes) => target_of(alloc, bytes.as_slice()),
    }
}

/// The target that the first bytes of a target file spell, one more than it may have where it has
/// more; or how a run ends with them.
fn target_of(alloc: Global, bytes: &[u8]) -> Result<Target, ExitReport>
    ensures ok { IfOk result (IsTargetOf bytes.now) }
    ensures err { IfErr result (λ e. TargetVerdict bytes.now e.status e.detail) }
    ensures fault { NamesNone result }
    ensures undone { IfErr result (λ e. IsUndone e.status) }
{
    if bytes.len() > TARGET_MOST as usize {
        return Err(ends(alloc, Status::Limit(LimitName::TargetBytes)));
    }
    match read_target(alloc, bytes) {
        Err(TargetStop::Memory(_)) => Err(ends(alloc, Status::Memory)),
        Err(TargetStop::Fault(fault)) => Err(target_fault(alloc, fault)),
        Ok(target) => Ok(target),
    }
}
