//! The key lines of a function with spill slots.

ghost use Rattle.std.specs.Prelude.{◌≡◌, ◌++◌, flat_map, OnOk, IfOk};
ghost use Rattle.mir_text.specs.Document.{lines};
ghost use Rattle.source_text.specs.Keys.{parts_of};
ghost use Rattle.rewriter.specs.Head.{slot_line, head_with_slots};

use crate::slots::slot_lines;
use source_text::keys::{Parts, parts_of};
use std::alloc::{AllocError, Global};
use target_base::{Bytes, ClassId, Target};

/// Puts two texts at the end of another.
fn push_both(text: &mut Bytes, first: &[u8], second: &[u8]) -> Result<(), AllocError>
    ensures { OnOk result (text.new ≡ text.old ++ (first.now ++ second.now)) }
{
    text.extend(first)?;
    text.extend(second)?;
    Ok(())
}

/// The lines of slots between the two parts of key lines.
fn between_parts(
    alloc: Global,
    target: &Target,
    head: &[u8],
    slots: &[(u32, ClassId)],
) -> Result<Bytes, AllocError>
    ensures { IfOk result (λ made. made ≡ (parts_of (lines head.now)).above ++ (flat_map (slot_line target.now) slots.now ++ (parts_of (lines head.now)).below)) }
{
    let parts = parts_of(alloc, head)?;
    let added = slot_lines(alloc, target, slots)?;
    let Parts { mut above, below } = parts;
    push_both(&mut above, added.as_slice(), below.as_slice())?;
    Ok(above)
}

/// The key lines with declarations of spill slots: behind the lines of the last key `stack`, whose `[]`
/// goes; where there is no such key, as one before the body line. Without slots they stay.
pub fn with_slots(
    alloc: Global,
    target: &Target,
    head: Bytes,
    slots: &[(u32, ClassId)],
) -> Result<Bytes, AllocError>
    ensures { IfOk result (λ made. made ≡ head_with_slots target.now slots.now head) }
{
    if slots.len() == 0 {
        return Ok(head);
    }
    between_parts(alloc, target, head.as_slice(), slots)
}
