//! The lines that declare spill slots.

ghost use Rattle.std.specs.Prelude.{◌≡◌, ◌++◌, flat_map, OnOk, IfOk};
ghost use Rattle.rewriter.specs.Head.{slot_bytes, slot_line};

use source_text::slots::{bytes_of_regs, line_end, line_start};
use std::alloc::{AllocError, Global};
use target_base::{Bytes, ClassId, Target};

/// The bytes that hold a register of a class.
fn slot_bytes(target: &Target, c: ClassId) -> u128
    ensures { result ≡ slot_bytes target.now c }
{
    bytes_of_regs(target, target.regs_in(c))
}

/// The line that declares a slot for registers of a class.
fn slot_line(alloc: Global, target: &Target, slot: u32, c: ClassId) -> Result<Bytes, AllocError>
    ensures { IfOk result (λ made. made ≡ slot_line target.now (slot, c)) }
{
    let mut text = line_start(alloc, slot)?;
    let end = line_end(alloc, slot_bytes(target, c))?;
    text.extend(end.as_slice())?;
    Ok(text)
}

/// Puts the line that declares a slot for registers of a class behind the others.
fn push_slot(
    alloc: Global,
    target: &Target,
    lines: &mut Bytes,
    slot: (u32, ClassId),
) -> Result<(), AllocError>
    ensures { OnOk result (lines.new ≡ lines.old ++ slot_line target.now slot) }
{
    let line = slot_line(alloc, target, slot.0, slot.1)?;
    lines.extend(line.as_slice())?;
    Ok(())
}

/// The lines that declare slots, in their order.
pub(crate) fn slot_lines(
    alloc: Global,
    target: &Target,
    slots: &[(u32, ClassId)],
) -> Result<Bytes, AllocError>
    ensures { IfOk result (λ made. made ≡ flat_map (slot_line target.now) slots.now) }
{
    let mut lines = Bytes::new(alloc);
    'slots: for k in 0..slots.len() {
        push_slot(alloc, target, &mut lines, slots[k])?;
    }
    Ok(lines)
}
