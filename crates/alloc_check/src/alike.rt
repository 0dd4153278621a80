//! Whether an instruction may be another one with its registers chosen: one opcode, and operands
//! alike in order, the explicit ones and the implicit ones apart.

ghost use Rattle.std.specs.Prelude.{◌≡◌, ◌∷◌, [], MatchOption, IfOk};
ghost use Rattle.mir_meaning.specs.Agreement.{same_op, undef_alike, register_alike, operand_alike, implicit_alike, all_alike, are_partners, widths_alike, are_paired};
ghost use Rattle.mir_meaning.specs.Registers.{operand_widths};
ghost use Rattle.mir_meaning.specs.Rules.{is_opaque};
ghost use Rattle.mir_func.specs.Binding.{does, is_implicit_operand, explicit_operands, implicit_registers};

use crate::facts::same_bytes;
use crate::rests::same_numbers;
use instr_effects::items::lanes::push_operand_widths;
use mir_func::opcodes::effect_of;
use mir_func::operands::{is_implicit_operand, is_virtual, same_loc};
use mir_func::{Func, Instr, Op, Operand, RegOp};
use std::alloc::{AllocError, Global};
use target_base::{Effect, List, Numbers, Target};

fn same_op(a: &Op, b: &Op) -> bool
    ensures { result ≡ same_op a.now b.now }
{
    match (a, b) {
        (Op::Known(x), Op::Known(y)) => x.0 == y.0,
        (Op::Excluded(x), Op::Excluded(y)) => same_bytes(x.as_slice(), y.as_slice()),
        _ => false,
    }
}

/// `undef` stands in the second only where the first has it.
fn undef_alike(o: &RegOp, p: &RegOp) -> bool
    ensures { result ≡ undef_alike o.now p.now }
{
    o.undef || !p.undef
}

/// A fixed register of the first stays; a virtual one may be any.
fn register_alike(o: &RegOp, p: &RegOp) -> bool
    ensures { result ≡ register_alike o.now p.now }
{
    o.def == p.def && (is_virtual(o.loc) || same_loc(o.loc, p.loc)) && undef_alike(o, p)
}

fn operand_alike(o: &Operand, p: &Operand) -> bool
    ensures { result ≡ operand_alike o.now p.now }
{
    match (o, p) {
        (Operand::Reg(a), Operand::Reg(b)) => register_alike(a, b),
        (Operand::Imm(a), Operand::Imm(b)) => *a == *b,
        (Operand::Block(a), Operand::Block(b)) => *a == *b,
        (Operand::Stack(a), Operand::Stack(b)) => *a == *b,
        (Operand::FixedStack(a), Operand::FixedStack(b)) => *a == *b,
        (Operand::Symbol(a), Operand::Symbol(b)) => same_bytes(a.as_slice(), b.as_slice()),
        (Operand::Index(a), Operand::Index(b)) => a.0 == b.0,
        (Operand::Mask(a), Operand::Mask(b)) => a.0 == b.0,
        _ => false,
    }
}

/// An implicit register stays.
fn implicit_alike(o: &RegOp, p: &RegOp) -> bool
    ensures { result ≡ implicit_alike o.now p.now }
{
    o.def == p.def && same_loc(o.loc, p.loc) && undef_alike(o, p)
}

/// The first explicit operand, with the operands behind it.
fn next_explicit(operands: &[Operand]) -> Option<(&Operand, &[Operand])>
    ensures { MatchOption result (explicit_operands operands.now ≡ []) (λ n. explicit_operands operands.now ≡ n.0.now ∷ explicit_operands n.1.now) }
{
    for k in 0..operands.len() {
        if !is_implicit_operand(&operands[k]) {
            return Some((&operands[k], &operands[k + 1..]));
        }
    }
    None
}

/// Whether the explicit operands are alike in order.
fn explicit_alike(operands: &[Operand], others: &[Operand]) -> bool
    ensures { result ≡ all_alike operand_alike (explicit_operands operands.now) (explicit_operands others.now) }
{
    let mut left = others;
    for o in operands {
        if !is_implicit_operand(o) {
            match next_explicit(left) {
                None => return false,
                Some((p, behind)) => {
                    if !operand_alike(o, p) {
                        return false;
                    }
                    left = behind;
                }
            }
        }
    }
    next_explicit(left).is_none()
}

/// The first implicit register, with the operands behind it.
fn next_implicit(operands: &[Operand]) -> Option<(&RegOp, &[Operand])>
    ensures { MatchOption result (implicit_registers operands.now ≡ []) (λ n. implicit_registers operands.now ≡ n.0.now ∷ implicit_registers n.1.now) }
{
    for k in 0..operands.len() {
        if let Operand::Reg(r) = &operands[k] {
            if r.implicit {
                return Some((r, &operands[k + 1..]));
            }
        }
    }
    None
}

/// Whether the implicit registers are alike in order.
fn implicits_alike(operands: &[Operand], others: &[Operand]) -> bool
    ensures { result ≡ all_alike implicit_alike (implicit_registers operands.now) (implicit_registers others.now) }
{
    let mut left = others;
    for o in operands {
        if let Operand::Reg(r) = o {
            if r.implicit {
                match next_implicit(left) {
                    None => return false,
                    Some((p, behind)) => {
                        if !implicit_alike(r, p) {
                            return false;
                        }
                        left = behind;
                    }
                }
            }
        }
    }
    next_implicit(left).is_none()
}

/// Whether the second may be the first with its registers chosen.
fn are_partners(i: &Instr, j: &Instr) -> bool
    ensures { result ≡ are_partners i.now j.now }
{
    let (operands, others) = (i.operands.as_slice(), j.operands.as_slice());
    same_op(&i.op, &j.op) && explicit_alike(operands, others) && implicits_alike(operands, others)
}

/// The lane widths of a register operand.
fn widths_of(alloc: Global, t: &Target, f: &Func, o: &RegOp) -> Result<Numbers, AllocError>
    ensures { IfOk result (λ made. made ≡ operand_widths t.now f.now o.now) }
{
    let mut made = List::new(alloc);
    push_operand_widths(&mut made, t, f, o)?;
    Ok(made)
}

/// Whether two operands have the same lane widths, where both are registers.
fn widths_alike(
    alloc: Global,
    t: &Target,
    f: &Func,
    g: &Func,
    o: &Operand,
    p: &Operand,
) -> Result<bool, AllocError>
    ensures { IfOk result (λ yes. yes ≡ widths_alike t.now f.now g.now o.now p.now) }
{
    match (o, p) {
        (Operand::Reg(a), Operand::Reg(b)) => {
            let first = widths_of(alloc, t, f, a)?;
            let second = widths_of(alloc, t, g, b)?;
            Ok(same_numbers(first.as_slice(), second.as_slice()))
        }
        _ => Ok(true),
    }
}

/// Whether the explicit registers have the same lane widths in order.
fn all_widths_alike(
    alloc: Global,
    t: &Target,
    f: &Func,
    g: &Func,
    operands: &[Operand],
    others: &[Operand],
) -> Result<bool, AllocError>
    ensures { IfOk result (λ yes. yes ≡ all_alike (widths_alike t.now f.now g.now) (explicit_operands operands.now) (explicit_operands others.now)) }
{
    let mut left = others;
    for o in operands {
        if !is_implicit_operand(o) {
            match next_explicit(left) {
                None => return Ok(false),
                Some((p, behind)) => {
                    if !widths_alike(alloc, t, f, g, o, p)? {
                        return Ok(false);
                    }
                    left = behind;
                }
            }
        }
    }
    Ok(next_explicit(left).is_none())
}

fn is_opaque(t: &Target, i: &Instr) -> bool
    ensures { result ≡ does is_opaque t.now i.now }
{
    match effect_of(t, i) {
        Some(Effect::Opaque(_)) => true,
        _ => false,
    }
}

/// Whether an instruction of the first function and one of the second may be a pair: the second may
/// be the first with its registers chosen, and where they are opaque, these have the same lane widths.
pub fn are_paired(
    alloc: Global,
    t: &Target,
    f: &Func,
    g: &Func,
    i: &Instr,
    x: &Instr,
) -> Result<bool, AllocError>
    ensures { IfOk result (λ yes. yes ≡ are_paired t.now f.now g.now i.now x.now) }
{
    if !are_partners(i, x) {
        return Ok(false);
    }
    if !is_opaque(t, i) {
        return Ok(true);
    }
    all_widths_alike(alloc, t, f, g, i.operands.as_slice(), x.operands.as_slice())
}
