//! The end of a run in physical form.

ghost use Rattle.std.specs.Prelude.{◌≡◌, length, IfOk};
ghost use Rattle.spiller.specs.RangeSlots.{numbers_with_classes};
ghost use Rattle.rewriter.specs.Rewritten.{registers_of, IsRewritten};

use crate::live_units::LiveUnits;
use crate::physical::rewrite_assigned;
use interference::Matrix;
use mir_func::Func;
use spiller::Allocated;
use spiller::slot_map::RangeSlot;
use std::alloc::{AllocError, Global};
use target_base::{ClassId, Reg, Target};

/// The number of ranges of the function.
fn range_count(m: &Matrix) -> usize
    ensures { result ≡ length m.now.live.func.classes }
{
    m.live().func().classes.len()
}

/// The register of each range of the function.
fn registers_of(alloc: Global, m: &Matrix) -> Result<Vec<Option<Reg>>, AllocError>
    ensures { IfOk result (λ made. made.items ≡ registers_of m.now) }
{
    let mut made = Vec::new(alloc);
    'each: for v in 0..range_count(m).min(0x1_0000_0000) {
        made.push(m.register_of(v as u32))?;
    }
    Ok(made)
}

/// The number of each slot with the class of its original.
fn numbers_of(alloc: Global, slots: &[RangeSlot]) -> Result<Vec<(u32, ClassId)>, AllocError>
    ensures { IfOk result (λ made. made.items ≡ numbers_with_classes slots.now) }
{
    let mut made = Vec::new(alloc);
    'each: for s in slots {
        made.push((s.number, s.class))?;
    }
    Ok(made)
}

/// The end of a run in physical form (LLVM's `VirtRegRewriter`): each operand in the register that its
/// range is assigned, without copies of a register to itself, with the live-ins of its blocks and with
/// the slots declared. It is meant for an end at which every range that the function names is assigned;
/// an operand of another one stays as it is.
pub fn rewrite(alloc: Global, target: &Target, a: Allocated) -> Result<Func, AllocError>
    ensures { IfOk result (IsRewritten target.now a) }
{
    let Allocated { matrix, slots } = a;
    let registers = registers_of(alloc, &matrix)?;
    let live = LiveUnits::of(alloc, matrix.live(), registers.as_slice())?;
    let given = numbers_of(alloc, slots.given_slots())?;
    let f = matrix.into_live().into_func();
    rewrite_assigned(
        alloc,
        target,
        f,
        &live,
        registers.as_slice(),
        given.as_slice(),
    )
}
