//! A function in which slots go to others.

ghost use Rattle.std.specs.Prelude.{◌≡◌, ◌<◌, length, map, filter, not, slice_set, slice_index_or, IfOk, ℕ};
ghost use Rattle.mir_func.specs.declared.func.Operand.{Operand};
ghost use Rattle.slot_colour.specs.Colouring.{is_gone, renamed, renamed_instr, renamed_block};

use crate::choice::{TakenSlot, home_of, is_gone};
use mir_func::{Block, Blocks, Frames, Instr, Instrs, Operand, Operands};
use std::alloc::{AllocError, Global};
use target_base::List;

/// Names the kept slot in place of its member.
fn rename_operand(taken: &[TakenSlot], operands: &mut Operands, k: usize)
    requires { k < length operands.old }
    ensures { (o : Operand) → o ≡ slice_index_or operands.old k o → operands.new ≡ slice_set operands.old k (renamed taken.now o) }
{
    if let Operand::Stack(n) = operands.get(k) {
        let to = home_of(taken, *n);
        operands.set(k, Operand::Stack(to));
    }
}

/// Names kept slots in place of members among operands.
fn rename_operands(taken: &[TakenSlot], operands: &mut Operands)
    ensures { operands.new ≡ map (renamed taken.now) operands.old }
{
    'operands: for k in 0..operands.len() {
        rename_operand(taken, operands, k);
    }
}

/// Names kept slots in place of members in an instruction.
fn rename_instr(taken: &[TakenSlot], instr: &mut Instr)
    ensures { instr.new ≡ renamed_instr taken.now instr.old }
{
    rename_operands(taken, &mut instr.operands);
}

/// Names kept slots in place of members in instructions.
fn rename_instrs(taken: &[TakenSlot], instrs: &mut Instrs)
    ensures { instrs.new ≡ map (renamed_instr taken.now) instrs.old }
{
    'instrs: for k in 0..instrs.len() {
        rename_instr(taken, instrs.get_mut(k));
    }
}

/// Names kept slots in place of members in a block.
fn rename_block(taken: &[TakenSlot], block: &mut Block)
    ensures { block.new ≡ renamed_block taken.now block.old }
{
    rename_instrs(taken, &mut block.instrs);
}

/// Names kept slots in place of members in blocks.
pub(crate) fn rename_blocks(taken: &[TakenSlot], blocks: &mut Blocks)
    ensures { blocks.new ≡ map (renamed_block taken.now) blocks.old }
{
    'layout: for k in 0..blocks.len() {
        rename_block(taken, blocks.get_mut(k));
    }
}

/// Frame objects without the slots that went to others.
pub(crate) fn kept_frames(
    alloc: Global,
    taken: &[TakenSlot],
    frames: &[(u32, bool)],
) -> Result<Frames, AllocError>
    ensures { IfOk result (λ made. made ≡ filter (λ o. not (is_gone taken.now o.0)) frames.now) }
{
    let mut made = List::new(alloc);
    'objects: for object in frames {
        if !is_gone(taken, object.0) {
            made.push(*object)?;
        }
    }
    Ok(made)
}
