//! What `check` says of the functions of two files.

ghost use Rattle.std.specs.Prelude.{◌≡◌, ◌++◌, IfOk, OnOk, map};
ghost use Rattle.ra_top.specs.Commands.Pairs.{start_of, IsVerdictOn, verdict_line, alone_line, alone_lines, PutsLine};

use crate::numbers::put_numbered;
use alloc_check::{Verdict, check_pair};
use mir_func::{Func, Place, Valid};
use std::alloc::{AllocError, Global};
use target_base::{Bytes, Target};

/// The start of a function: its first block.
fn start_of(f: &Func) -> Place
    ensures { result ≡ start_of f.now.blocks }
{
    match f.blocks.as_slice() {
        [first, ..] => Place {
            block: first.number,
            at: 0,
        },
        [] => Place { block: 0, at: 0 },
    }
}

/// The verdict on a function of the source file and its partner: that of the checker of allocations
/// where both have one name, and else No with the start of the first.
#[tactic(auto, using(crate::proofs::CommandLemmas::Pairs::verdict))]
fn verdict_on(
    alloc: Global,
    target: &Target,
    source: &Valid,
    allocated: &Func,
) -> Result<Verdict, AllocError>
    ensures { IfOk result (IsVerdictOn target.now source.now.func allocated.now) }
{
    if source.func.name.as_slice() == allocated.name.as_slice() {
        check_pair(alloc, target, source, allocated)
    } else {
        Ok(Verdict::No(start_of(&source.func)))
    }
}

/// Adds the line of a verdict on a function of a name.
fn put_verdict(lines: &mut Bytes, name: &[u8], verdict: Verdict) -> Result<(), AllocError>
    ensures { OnOk result (lines.new ≡ lines.old ++ verdict_line name.now verdict) }
{
    match verdict {
        Verdict::Yes => {
            lines.extend(b"yes ")?;
            lines.extend(name)?;
        }
        Verdict::No(place) => {
            lines.extend(b"no ")?;
            lines.extend(name)?;
            put_numbered(lines, " bb.", place.block as u128)?;
            put_numbered(lines, ":", place.at as u128)?;
        }
    }
    lines.extend(b"\n")
}

/// Adds the line of a function of a name without a partner.
fn put_alone(lines: &mut Bytes, name: &[u8]) -> Result<(), AllocError>
    ensures { OnOk result (lines.new ≡ lines.old ++ alone_line name.now) }
{
    lines.extend(b"alone ")?;
    lines.extend(name)?;
    lines.extend(b"\n")
}

/// Adds the line of the next function of the second file: the verdict on it and the first function of
/// the source file that has no partner yet, or that it has none. Answers those that have none then.
pub(crate) fn put_pair<'a>(
    alloc: Global,
    target: &Target,
    left: &'a [Valid],
    allocated: &Func,
    lines: &mut Bytes,
) -> Result<&'a [Valid], AllocError>
    ensures { IfOk result (λ rest. PutsLine target.now (map (λ v. v.func) left.now) allocated.now (map (λ v. v.func) rest.now) lines.old lines.new) }
{
    match left {
        [source, rest @ ..] => {
            let verdict = verdict_on(alloc, target, source, allocated)?;
            put_verdict(lines, source.func.name.as_slice(), verdict)?;
            Ok(rest)
        }
        [] => {
            put_alone(lines, allocated.name.as_slice())?;
            Ok(left)
        }
    }
}

/// Adds the lines of the functions of the source file that have no partner.
pub(crate) fn put_left(left: &[Valid], lines: &mut Bytes) -> Result<(), AllocError>
    ensures { OnOk result (lines.new ≡ lines.old ++ alone_lines (map (λ v. v.func) left.now)) }
{
    'sources: for source in left {
        put_alone(lines, source.func.name.as_slice())?;
    }
    Ok(())
}
