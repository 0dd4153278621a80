//! Instructions in physical form.

ghost use Rattle.std.specs.Prelude.{◌≡◌, ◌++◌, ◌∷◌, [], cond, OnOk, IfOk, map};
ghost use Rattle.rewriter.specs.Physical.{register_of, part_of, in_register, physical_at, physical, physical_instr, physical_instrs, moves_nothing, is_identity};

use mir_func::opcodes::is_copy;
use mir_func::operands::same_loc;
use mir_func::{Instr, Loc, Operand, Operands, RegOp};
use std::alloc::{AllocError, Global};
use target_base::{Boxed, Copied, IndexId, Reg, Target};

/// The register of a range.
fn register_of(registers: &[Option<Reg>], v: u32) -> Option<Reg>
    ensures { result ≡ register_of registers.now v }
{
    match registers.get(v as usize) {
        None => None,
        Some(r) => *r,
    }
}

/// The part of a register that an index names; without an index all of it.
fn part_of(target: &Target, r: Option<Reg>, index: Option<IndexId>) -> Option<Reg>
    ensures { result ≡ part_of target.now r index }
{
    match r {
        None => None,
        Some(r) => match index {
            None => Some(r),
            Some(x) => target.sub_at(r, x),
        },
    }
}

/// The operand in a physical register; where there is none it stays.
fn in_register(o: RegOp, r: Option<Reg>) -> RegOp
    ensures { result ≡ in_register o r }
{
    match r {
        None => o,
        Some(r) => RegOp {
            loc: Loc::Fixed(r),
            index: None,
            renamable: true,
            tie: None,
            ..o
        },
    }
}

/// A register operand in physical form.
fn physical_register(target: &Target, registers: &[Option<Reg>], o: RegOp) -> RegOp
    ensures { result ≡ physical_at target.now registers.now o o.loc }
{
    match o.loc {
        Loc::Fixed(_) => o,
        Loc::Virtual(v) => in_register(o, part_of(target, register_of(registers, v), o.index)),
    }
}

/// An operand in physical form.
fn physical_operand(
    alloc: Global,
    target: &Target,
    registers: &[Option<Reg>],
    o: &Operand,
) -> Result<Operand, AllocError>
    ensures { IfOk result (λ made. made ≡ physical target.now registers.now o.now) }
{
    match o {
        Operand::Reg(r) => Ok(Operand::Reg(physical_register(target, registers, *r))),
        _ => o.copied(alloc),
    }
}

/// Operands in physical form.
#[tactic(auto, using(crate::proofs::Physicals::physicals))]
fn physical_operands(
    alloc: Global,
    target: &Target,
    registers: &[Option<Reg>],
    operands: &[Operand],
) -> Result<Operands, AllocError>
    ensures { IfOk result (λ made. made ≡ map (physical target.now registers.now) operands.now) }
{
    let mut made = Operands::new(alloc);
    'each: for o in operands {
        made.push(physical_operand(alloc, target, registers, o)?)?;
    }
    Ok(made)
}

/// An instruction in physical form.
fn physical_instr(
    alloc: Global,
    target: &Target,
    registers: &[Option<Reg>],
    i: &Instr,
) -> Result<Instr, AllocError>
    ensures { IfOk result (λ made. made ≡ physical_instr target.now registers.now i.now) }
{
    Ok(Instr {
        id: i.id,
        op: i.op.copied(alloc)?,
        flags: i.flags.copied(alloc)?,
        operands: physical_operands(alloc, target, registers, i.operands.as_slice())?,
        tail: i.tail.copied(alloc)?,
    })
}

/// Whether the first two operands are of one location.
fn moves_nothing(operands: &[Operand]) -> bool
    ensures { result ≡ moves_nothing operands.now }
{
    match operands.get(0) {
        Some(Operand::Reg(d)) => match operands.get(1) {
            Some(Operand::Reg(s)) => same_loc(d.loc, s.loc),
            _ => false,
        },
        _ => false,
    }
}

/// Whether the instruction is a COPY of a register to itself.
fn is_identity(target: &Target, i: &Instr) -> bool
    ensures { result ≡ is_identity target.now i.now }
{
    is_copy(target, i) && moves_nothing(i.operands.as_slice())
}

/// Puts an instruction behind the others, unless it is a COPY of a register to itself.
fn push_unless_identity(
    target: &Target,
    i: Instr,
    out: &mut Vec<Boxed<Instr>>,
) -> Result<(), AllocError>
    ensures { OnOk result (out.new.items ≡ out.old.items ++ cond (is_identity target.now i) [] (i ∷ [])) }
{
    if !is_identity(target, &i) {
        let boxed = Boxed::new(*out.allocator(), i)?;
        out.push(boxed)?;
    }
    Ok(())
}

/// Instructions in physical form; copies of a register to itself go.
#[tactic(auto, using(crate::proofs::Physicals::physicals))]
pub fn physical_instrs(
    alloc: Global,
    target: &Target,
    registers: &[Option<Reg>],
    instrs: &[Boxed<Instr>],
) -> Result<Vec<Boxed<Instr>>, AllocError>
    ensures { IfOk result (λ made. made.items ≡ physical_instrs target.now registers.now instrs.now) }
{
    let mut made = Vec::new(alloc);
    'each: for i in instrs {
        let i = i.get();
        let physical = physical_instr(alloc, target, registers, i)?;
        push_unless_identity(target, physical, &mut made)?;
    }
    Ok(made)
}
