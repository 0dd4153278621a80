//! REG_SEQUENCE and INSERT_SUBREG as copies of parts.

ghost use Rattle.std.specs.Prelude.{◌≡◌, ◌++◌, OnOk, IfOk, map, not};
ghost use Rattle.std.specs.List.{list_any};
ghost use Rattle.std.specs.Option.{option_to_list};
ghost use Rattle.target_base.specs.Registers.{lanes_of};
ghost use Rattle.mir_func.specs.declared.func.Loc.TheVariants as locs;
ghost use Rattle.mir_meaning.specs.Registers.{has_number};
ghost use Rattle.two_address.specs.Sequences.{part, parts_of, is_input, built, into_part, at_last, fill_all, beginning, keeping_text, sequence_lowered, insertion_lowered};

use mir_func::operands::same_loc;
use mir_func::{Instr, Loc, Operand, RegOp};
use phi_elim::moves::{copy_of, implicit_def_of, move_of, whole_definition, whole_use};
use phi_elim::phis::located_class;
use std::alloc::{AllocError, Global};
use target_base::classes::{first_units, regs_at};
use target_base::{ClassId, Copied, IndexId, Target};

/// An input of a REG_SEQUENCE or an INSERT_SUBREG, with the index of the lanes that it fills.
#[derive(Clone, Copy)]
pub struct SubregInput {
    /// The input.
    pub input: RegOp,
    /// The index.
    pub index: IndexId,
}

/// The registers that an instruction is lowered with.
#[derive(Clone, Copy)]
pub struct Registers<'a> {
    /// The target, whose registers are fixed.
    pub target: &'a Target,
    /// The classes of the virtual registers that the function came with.
    pub classes: &'a [Option<ClassId>],
    /// The range number of the next one.
    pub next: u32,
}

/// The part that an operand and an index make.
pub fn part_of(input: &Operand, index: &Operand) -> Option<SubregInput>
    ensures { option_to_list result ≡ part input.now index.now }
{
    match input {
        Operand::Reg(o) => match index {
            Operand::Index(x) => Some(SubregInput {
                input: *o,
                index: *x,
            }),
            _ => None,
        },
        _ => None,
    }
}

/// Puts the part that an operand and an index make behind the others.
fn push_part(
    parts: &mut Vec<SubregInput>,
    input: &Operand,
    index: &Operand,
) -> Result<(), AllocError>
    ensures { OnOk result (parts.new.items ≡ parts.old.items ++ part input.now index.now) }
{
    if let Some(p) = part_of(input, index) {
        parts.push(p)?;
    }
    Ok(())
}

/// The inputs of a REG_SEQUENCE with these operands behind its result.
#[tactic(auto, using(crate::proofs::Parts::pieces))]
pub fn parts_of(alloc: Global, operands: &[Operand]) -> Result<Vec<SubregInput>, AllocError>
    ensures { IfOk result (λ made. made.items ≡ parts_of operands.now) }
{
    let mut parts = Vec::new(alloc);
    'pairs: for k in 0..operands.len() / 2 {
        push_part(&mut parts, &operands[2 * k], &operands[2 * k + 1])?;
    }
    Ok(parts)
}

/// Whether the register is an input.
pub fn is_input(v: u32, parts: &[SubregInput]) -> bool
    ensures { result ≡ is_input (locs.Virtual v) parts.now }
{
    parts.iter().any(|p| same_loc(Loc::Virtual(v), p.input.loc))
}

/// Whether the list has a number.
fn has_number(numbers: &[u8], n: usize) -> bool
    ensures { result ≡ has_number numbers.now n }
{
    numbers.iter().any(|m| n == *m as usize)
}

/// Whether some part fills the lane.
fn is_filled(target: &Target, parts: &[SubregInput], lane: usize) -> bool
    ensures { result ≡ list_any (λ p. has_number (lanes_of target.now p.index) lane) parts.now }
{
    parts
        .iter()
        .any(|p| has_number(target.lanes_at(p.index), lane))
}

/// Whether no part fills the lane.
fn is_missing(target: &Target, parts: &[SubregInput], lane: usize) -> bool
    ensures { result ≡ not (list_any (λ p. has_number (lanes_of target.now p.index) lane) parts.now) }
{
    !is_filled(target, parts, lane)
}

/// Whether the parts fill all lanes of a class.
#[tactic(auto, using(crate::proofs::Parts::pieces))]
fn fill_all(target: &Target, c: Option<ClassId>, parts: &[SubregInput]) -> bool
    ensures { result ≡ fill_all target.now c parts.now }
{
    let lanes = first_units(
        target.regs.as_slice(),
        regs_at(target.classes.as_slice(), c),
    )
    .len();
    'lanes: for lane in 0..lanes {
        if is_missing(target, parts, lane) {
            return false;
        }
    }
    true
}

/// Puts the moves of the inputs into their lanes of `to` behind the others.
#[tactic(auto, using(crate::proofs::Parts::pieces))]
fn push_parts(
    alloc: Global,
    to: u32,
    parts: &[SubregInput],
    out: &mut Vec<Instr>,
) -> Result<(), AllocError>
    ensures { OnOk result (out.new.items ≡ out.old.items ++ map (into_part to) parts.now) }
{
    'each: for p in parts {
        out.push(into_part(alloc, to, *p)?)?;
    }
    Ok(())
}

/// The move of an input into its lanes of `to`.
fn into_part(alloc: Global, to: u32, p: SubregInput) -> Result<Instr, AllocError>
    ensures { IfOk result (λ i. i ≡ into_part to p) }
{
    let lanes = RegOp {
        index: Some(p.index),
        ..whole_definition(to)
    };
    move_of(alloc, lanes, p.input)
}

/// Puts the copy from the register that was built, where it is another one than `v`, behind the others.
fn push_at_last(
    alloc: Global,
    c: u32,
    v: u32,
    parts: &[SubregInput],
    out: &mut Vec<Instr>,
) -> Result<(), AllocError>
    ensures { OnOk result (out.new.items ≡ out.old.items ++ at_last c v parts.now) }
{
    if is_input(v, parts) {
        out.push(copy_of(alloc, whole_definition(v), whole_use(c))?)?;
    }
    Ok(())
}

/// Makes all of the register that is built undefined, where the parts don't fill it.
fn push_beginning(
    alloc: Global,
    target: &Target,
    class: Option<ClassId>,
    to: u32,
    parts: &[SubregInput],
    out: &mut Vec<Instr>,
) -> Result<(), AllocError>
    ensures { OnOk result (out.new.items ≡ out.old.items ++ beginning target.now class to parts.now) }
{
    if !fill_all(target, class, parts) {
        out.push(implicit_def_of(alloc, whole_definition(to))?)?;
    }
    Ok(())
}

/// Gives the first instruction the flags and the tail of the one that all are made of.
fn keep_text(alloc: Global, i: &Instr, made: &mut Vec<Instr>) -> Result<(), AllocError>
    ensures { OnOk result (made.new.items ≡ keeping_text i.now made.old.items) }
{
    if made.len() > 0 {
        let first = &mut made[0];
        first.flags = i.flags.copied(alloc)?;
        first.tail = i.tail.copied(alloc)?;
    }
    Ok(())
}

/// The register that is built: `c`, where an input would be overwritten.
fn built(c: u32, v: u32, parts: &[SubregInput]) -> u32
    ensures { result ≡ built c v parts.now }
{
    if is_input(v, parts) { c } else { v }
}

/// What becomes of REG_SEQUENCE into register `v`.
pub fn sequence_lowered(
    alloc: Global,
    registers: &Registers,
    i: &Instr,
    v: u32,
    parts: &[SubregInput],
) -> Result<Vec<Instr>, AllocError>
    ensures { IfOk result (λ made. made.items ≡ sequence_lowered registers.now.target.now registers.now.classes.now registers.now.next i.now v parts.now) }
{
    let to = built(registers.next, v, parts);
    let class = located_class(registers.classes, Loc::Virtual(v));
    let mut made = Vec::new(alloc);
    push_beginning(alloc, registers.target, class, to, parts, &mut made)?;
    push_parts(alloc, to, parts, &mut made)?;
    push_at_last(alloc, registers.next, v, parts, &mut made)?;
    keep_text(alloc, i, &mut made)?;
    Ok(made)
}

/// What becomes of INSERT_SUBREG of a part into register `a`, as register `v`.
pub fn insertion_lowered(
    alloc: Global,
    c: u32,
    i: &Instr,
    v: u32,
    a: RegOp,
    p: SubregInput,
) -> Result<Vec<Instr>, AllocError>
    ensures { IfOk result (λ made. made.items ≡ insertion_lowered c i.now v a p) }
{
    let parts = [p];
    let to = built(c, v, &parts);
    let mut made = Vec::new(alloc);
    made.push(move_of(alloc, whole_definition(to), a)?)?;
    push_parts(alloc, to, &parts, &mut made)?;
    push_at_last(alloc, c, v, &parts, &mut made)?;
    keep_text(alloc, i, &mut made)?;
    Ok(made)
}
