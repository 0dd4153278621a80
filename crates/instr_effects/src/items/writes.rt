//! Writes of lanes.

ghost use Rattle.std.specs.Prelude.{◌≡◌, ◌+◌, ◌++◌, length, OnOk, IfOk};
ghost use Rattle.mir_meaning.specs.Registers.{operand_lanes, undefined_lanes};
ghost use Rattle.mir_meaning.specs.Items.{moved, undefined, computed, defined};

use crate::definitions::Definition;
use crate::items::lanes::{push_operand_lanes, push_undefined_lanes};
use meaning::{Fill, Lane, Source, Write, Writes};
use mir_func::Func;
use std::alloc::{AllocError, Global};
use target_base::{Copied, List, Target};

/// Appends writes that give each lane its source; what lacks a partner is left out.
pub fn push_moved(
    out: &mut Writes,
    alloc: Global,
    early: bool,
    lanes: &[Lane],
    sources: &[Source],
) -> Result<(), AllocError>
    ensures { OnOk result (out.new ≡ out.old ++ moved early lanes.now sources.now) }
{
    for k in 0..lanes.len() {
        if k >= sources.len() {
            return Ok(());
        }
        let fill = Fill::Moved(sources[k].copied(alloc)?);
        out.push(Write {
            lane: lanes[k],
            fill,
            early,
        })?;
    }
    Ok(())
}

/// Appends writes that make each lane Undef.
pub fn push_undefined(out: &mut Writes, early: bool, lanes: &[Lane]) -> Result<(), AllocError>
    ensures { OnOk result (out.new ≡ out.old ++ undefined early lanes.now) }
{
    for l in lanes {
        out.push(Write {
            lane: *l,
            fill: Fill::Moved(Source::Undef),
            early,
        })?;
    }
    Ok(())
}

/// A number of 32 bits. Want of memory stands for more, since no memory holds so many lanes.
pub fn number(k: usize) -> Result<u32, AllocError>
    ensures { IfOk result (λ n. n ≡ k) }
{
    match u32::try_from(k) {
        Ok(n) => Ok(n),
        Err(_) => Err(AllocError),
    }
}

/// Appends writes that give each lane the value of its number, counted from `first` on; answers the
/// number behind them. Want of memory stands for one past 32 bits, since no memory holds so many
/// lanes.
pub fn push_computed(
    out: &mut Writes,
    early: bool,
    first: u32,
    lanes: &[Lane],
) -> Result<u32, AllocError>
    ensures writes { OnOk result (out.new ≡ out.old ++ computed early first lanes.now) }
    ensures behind { IfOk result (λ n. n ≡ first + length lanes.now) }
{
    let mut next = first;
    for l in lanes {
        out.push(Write {
            lane: *l,
            fill: Fill::Computed(next),
            early,
        })?;
        next = next.checked_add(1).ok_or(AllocError)?;
    }
    Ok(next)
}

/// Appends the writes of a definition that is given sources; where it is `undef` the other lanes
/// become Undef.
pub(crate) fn push_defined(
    out: &mut Writes,
    alloc: Global,
    t: &Target,
    f: &Func,
    definition: Definition,
    sources: &[Source],
) -> Result<(), AllocError>
    ensures { OnOk result (out.new ≡ out.old ++ defined t.now f.now definition.0 definition.1 sources.now) }
{
    let (early, d) = definition;
    let mut lanes = List::new(alloc);
    push_operand_lanes(&mut lanes, t, f, &d)?;
    push_moved(out, alloc, early, lanes.as_slice(), sources)?;
    let mut others = List::new(alloc);
    push_undefined_lanes(&mut others, t, f, &d)?;
    push_undefined(out, early, others.as_slice())
}
