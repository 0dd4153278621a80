//! How operands that are no registers are spelled, and what an opaque instruction shows of itself.

ghost use Rattle.std.specs.Prelude.{◌≡◌, ◌++◌, OnOk, IfOk, codes, flat_map};
ghost use Rattle.std.specs.Fmt.{decimal};
ghost use Rattle.mir_func.specs.Spelling.{index_name, mask_name, op_name, word_of, event_name};

use crate::func::{Instr, Op, Operand};
use std::alloc::{AllocError, Global};
use target_base::{Bytes, IndexId, MaskId, Target};

/// The name of a subregister index, or nothing where the target doesn't have it.
pub fn index_name(target: &Target, index: IndexId) -> &[u8]
    ensures { result.now ≡ index_name target.now index }
{
    match target.indexes.as_slice().get(index.0 as usize) {
        None => &[],
        Some(d) => d.name.as_slice(),
    }
}

/// The name of a call mask, or nothing where the target doesn't have it.
pub fn mask_name(target: &Target, mask: MaskId) -> &[u8]
    ensures { result.now ≡ mask_name target.now mask }
{
    match target.masks.as_slice().get(mask.0 as usize) {
        None => &[],
        Some(d) => d.name.as_slice(),
    }
}

/// The name of an opcode, or nothing where the target doesn't have it.
pub fn op_name<'a>(target: &'a Target, op: &'a Op) -> &'a [u8]
    ensures { result.now ≡ op_name target.now op.now }
{
    match op {
        Op::Known(o) => match target.opcodes.as_slice().get(o.0 as usize) {
            None => &[],
            Some(d) => d.name.as_slice(),
        },
        Op::Excluded(name) => name.as_slice(),
    }
}

/// Appends a prefix and a name.
fn put_named(out: &mut Bytes, prefix: &str, name: &[u8]) -> Result<(), AllocError>
    ensures { OnOk result (out.new ≡ out.old ++ (prefix.now ++ name.now)) }
{
    out.extend(prefix.as_bytes())?;
    out.extend(name)?;
    Ok(())
}

/// Appends a prefix and a number.
fn put_numbered(out: &mut Bytes, prefix: &str, n: u32) -> Result<(), AllocError>
    ensures { OnOk result (out.new ≡ out.old ++ (prefix.now ++ decimal n)) }
{
    let text = n.to_string(out.allocator())?;
    put_named(out, prefix, text.as_bytes())
}

/// Appends a space and the spelling of an operand; nothing where it is a register or a block.
fn put_word(out: &mut Bytes, target: &Target, operand: &Operand) -> Result<(), AllocError>
    ensures { OnOk result (out.new ≡ out.old ++ word_of target.now operand.now) }
{
    match operand {
        Operand::Reg(_) | Operand::Block(_) => Ok(()),
        Operand::Imm(n) => {
            let text = n.to_string(out.allocator())?;
            put_named(out, " ", text.as_bytes())
        }
        Operand::Stack(n) => put_numbered(out, " %stack.", *n),
        Operand::FixedStack(n) => put_numbered(out, " %fixed-stack.", *n),
        Operand::Symbol(name) => put_named(out, " ", name.as_slice()),
        Operand::Index(i) => put_named(out, " %subreg.", index_name(target, *i)),
        Operand::Mask(m) => put_named(out, " ", mask_name(target, *m)),
    }
}

/// Appends such words of operands in order.
fn put_words(out: &mut Bytes, target: &Target, operands: &[Operand]) -> Result<(), AllocError>
    ensures { OnOk result (out.new ≡ out.old ++ flat_map (word_of target.now) operands.now) }
{
    'operands: for operand in operands {
        put_word(out, target, operand)?;
    }
    Ok(())
}

/// What an opaque instruction shows of itself: its opcode, and the spelling of each operand that is
/// no register and no block.
pub fn event_name(alloc: Global, target: &Target, instr: &Instr) -> Result<Bytes, AllocError>
    ensures { IfOk result (λ name. name ≡ event_name target.now instr.now) }
{
    let mut name = Bytes::from_slice(alloc, op_name(target, &instr.op))?;
    put_words(&mut name, target, instr.operands.as_slice())?;
    Ok(name)
}
