//! V2 to V4: whether registers lie in the classes of their operands, have one class, and whether
//! their indexes fit it.

ghost use Rattle.std.specs.Prelude.{◌≡◌, ◌++◌, ◌&&◌, ◌||◌, not, flat_map, is_some, option_and_then, IfOk, OnOk, Some};
ghost use Rattle.std.specs.List.{list_all};
ghost use Rattle.target_base.specs.Registers.{regs_of, lanes_of, home_of};
ghost use Rattle.target_base.specs.Storage.{same_numbers};
ghost use Rattle.mir_func.specs.Binding as binding;
ghost use Rattle.mir_meaning.specs.Registers as registers;
ghost use Rattle.mir_meaning.specs.Rules as rules;
ghost use Rattle.target_base.specs.declared.types.Effect.TheVariants as effects;
ghost use Rattle.machine_verify.specs.Operands.{part_fits};
ghost use Rattle.bound_operands.specs.Seen.{seen, seen_all};

use crate::lanes::{has_class, has_lanes, index_fits, is_reserved_register};
use crate::numbers::are_distinct;
use crate::words::is_opaque;
use bound_operands::BoundOperand;
use instr_effects::items::lanes::push_operand_widths;
use mir_func::opcodes::{asked_class, puts_together};
use mir_func::operands::class_of;
use mir_func::{Func, Loc, Operand, RegOp};
use std::alloc::{AllocError, Global};
use target_base::classes::{are_within, find_home, hold_subs, holds, regs_at};
use target_base::{ClassId, Effect, IndexId, List, Numbers, Reg, Role, Target};

/// Whether each register of class `c`, through the index, lies in class `k`.
#[tactic(auto, using(crate::proofs::Within::within_self))]
fn lies_in(target: &Target, k: ClassId, c: ClassId, x: Option<IndexId>) -> bool
    ensures { result ≡ rules.lies_in target.now k c x }
{
    match x {
        None => k == c || are_within(target.regs_in(c), target.regs_in(k)),
        Some(i) => hold_subs(
            target.regs.as_slice(),
            target.lanes_at(i),
            target.regs_in(c),
            target.regs_in(k),
        ),
    }
}

/// Whether the register, or each register of its class through the index, lies in class `k`.
fn register_lies_in(target: &Target, f: &Func, k: ClassId, o: &RegOp) -> bool
    ensures { result ≡ rules.register_lies_in target.now f.now k o.now.loc o.now.index }
{
    match o.loc {
        Loc::Fixed(r) => holds(target.regs_in(k), r),
        Loc::Virtual(v) => match class_of(f, v) {
            None => false,
            Some(c) => lies_in(target, k, c, o.index),
        },
    }
}

/// The class that a role asks for, if there is a role and it asks for one.
fn role_class(role: Option<Role>) -> Option<ClassId>
    ensures { result ≡ option_and_then binding.asked_class role }
{
    match role {
        None => None,
        Some(r) => asked_class(r),
    }
}

/// Whether the role takes reserved registers of any class at an opaque opcode.
fn takes_reserved(role: Option<Role>) -> bool
    ensures { result ≡ binding.passes rules.takes_reserved role }
{
    match role {
        Some(Role::Value(_)) | Some(Role::Address(_)) => true,
        _ => false,
    }
}

/// Whether the register is a reserved one, and the role takes these at this effect.
fn is_taken_reserved(target: &Target, effect: Effect, role: Option<Role>, loc: Loc) -> bool
    ensures { result ≡ rules.is_taken_reserved target.now effect role loc }
{
    is_opaque(effect) && takes_reserved(role) && is_reserved_register(target, loc)
}

/// Whether the register lies in the class that its role asks for, where its lanes are known.
fn in_operand_class(target: &Target, f: &Func, effect: Effect, b: &BoundOperand) -> bool
    ensures { result ≡ rules.in_operand_class target.now f.now effect (seen b.now) }
{
    match b.operand {
        Operand::Reg(o) => match role_class(b.role) {
            None => true,
            Some(k) => {
                !has_lanes(target, f, o)
                    || is_taken_reserved(target, effect, b.role, o.loc)
                    || register_lies_in(target, f, k, o)
            }
        },
        _ => true,
    }
}

fn in_operand_classes(target: &Target, f: &Func, effect: Effect, bound: &[BoundOperand]) -> bool
    ensures { result ≡ list_all (rules.in_operand_class target.now f.now effect) (seen_all bound.now) }
{
    for b in bound {
        if !in_operand_class(target, f, effect, b) {
            return false;
        }
    }
    true
}

/// Whether two lists have equal elements.
fn same_numbers(a: &[u32], b: &[u32]) -> bool
    ensures { result ≡ same_numbers a.now b.now }
{
    a == b
}

/// The lane widths of an operand.
fn widths_of(alloc: Global, target: &Target, f: &Func, o: &RegOp) -> Result<Numbers, AllocError>
    ensures { IfOk result (λ made. made ≡ registers.operand_widths target.now f.now o.now) }
{
    let mut widths = List::new(alloc);
    push_operand_widths(&mut widths, target, f, o)?;
    Ok(widths)
}

/// Whether the operands have equal lane widths, where the lanes of both are known.
pub(crate) fn same_widths(
    alloc: Global,
    target: &Target,
    f: &Func,
    a: &RegOp,
    b: &RegOp,
) -> Result<bool, AllocError>
    ensures { IfOk result (λ is_right. is_right ≡ rules.same_widths target.now f.now a.now b.now) }
{
    if !has_lanes(target, f, a) {
        return Ok(true);
    }
    if !has_lanes(target, f, b) {
        return Ok(true);
    }
    let of_a = widths_of(alloc, target, f, a)?;
    let of_b = widths_of(alloc, target, f, b)?;
    Ok(same_numbers(of_a.as_slice(), of_b.as_slice()))
}

/// Whether some class holds the register.
fn is_in_some_class(target: &Target, r: Reg) -> bool
    ensures { result ≡ is_some (home_of target.now r) }
{
    match find_home(target.classes.as_slice(), r) {
        None => false,
        Some(_) => true,
    }
}

/// Whether a fixed side of a copy whose other side is virtual lies in some class.
fn has_home(target: &Target, a: Loc, b: Loc) -> bool
    ensures { result ≡ rules.has_home target.now a b }
{
    match (a, b) {
        (Loc::Fixed(r), Loc::Virtual(_)) => is_in_some_class(target, r),
        _ => true,
    }
}

/// The lanes of a register that an index picks, as an operand.
fn at_index(d: &RegOp, x: IndexId) -> RegOp
    ensures { result ≡ rules.at_index d.now x }
{
    RegOp {
        index: Some(x),
        ..*d
    }
}

/// Whether the register operands among these have the widths of one.
fn all_same_widths(
    alloc: Global,
    target: &Target,
    f: &Func,
    d: &RegOp,
    operands: &[Operand],
) -> Result<bool, AllocError>
    ensures { IfOk result (λ is_right. is_right ≡ list_all (rules.same_widths target.now f.now d.now) (binding.registers operands.now)) }
{
    for o in operands {
        if let Operand::Reg(r) = o {
            if !same_widths(alloc, target, f, d, r)? {
                return Ok(false);
            }
        }
    }
    Ok(true)
}

/// Puts the lanes of an index at the end.
fn push_lanes(out: &mut Vec<u32>, lanes: &[u8]) -> Result<(), AllocError>
    ensures { OnOk result (out.new.items ≡ out.old.items ++ lanes.now) }
{
    for k in lanes {
        out.push(*k as u32)?;
    }
    Ok(())
}

/// The lanes that index operands pick, in order.
fn picked_lanes(
    alloc: Global,
    target: &Target,
    operands: &[Operand],
) -> Result<Vec<u32>, AllocError>
    ensures { IfOk result (λ made. made.items ≡ flat_map (lanes_of target.now) (flat_map rules.index_of operands.now)) }
{
    let mut made = Vec::new(alloc);
    for o in operands {
        if let Operand::Index(x) = o {
            push_lanes(&mut made, target.lanes_at(*x))?;
        }
    }
    Ok(made)
}

/// Whether the indexes share no lane.
fn are_apart(alloc: Global, target: &Target, operands: &[Operand]) -> Result<bool, AllocError>
    ensures { IfOk result (λ is_right. is_right ≡ rules.are_apart target.now operands.now) }
{
    let picked = picked_lanes(alloc, target, operands)?;
    are_distinct(alloc, picked.as_slice())
}

/// Whether an input of a REG_SEQUENCE has the widths of its index. What isn't such a pair ends the
/// question.
fn part_fits(
    alloc: Global,
    target: &Target,
    f: &Func,
    d: &RegOp,
    s: &Operand,
    x: &Operand,
) -> Result<Option<bool>, AllocError>
    ensures { IfOk result (λ is_right. is_right ≡ part_fits target.now f.now d.now s.now x.now) }
{
    match (s, x) {
        (Operand::Reg(s), Operand::Index(x)) => {
            let is_right = same_widths(alloc, target, f, s, &at_index(d, *x))?;
            Ok(Some(is_right))
        }
        _ => Ok(None),
    }
}

/// Whether each input of a REG_SEQUENCE has the widths of its index.
#[tactic(auto, using(crate::proofs::Fit::parts_pair, crate::proofs::Fit::parts_lone))]
fn parts_fit(
    alloc: Global,
    target: &Target,
    f: &Func,
    d: &RegOp,
    operands: &[Operand],
) -> Result<bool, AllocError>
    ensures { IfOk result (λ is_right. is_right ≡ rules.parts_fit target.now f.now d.now operands.now) }
{
    let mut rest = operands;
    'parts: while let [s, x, more @ ..] = rest {
        match part_fits(alloc, target, f, d, s, x)? {
            None => return Ok(true),
            Some(is_right) => {
                if !is_right {
                    return Ok(false);
                }
                rest = more;
            }
        }
    }
    Ok(true)
}

/// Whether the widths of a copy's sides are equal, and a fixed side of another's virtual one lies
/// in some class.
fn copy_widths_fit(
    alloc: Global,
    target: &Target,
    f: &Func,
    operands: &[Operand],
) -> Result<bool, AllocError>
    ensures { IfOk result (λ is_right. is_right ≡ rules.widths_fit target.now f.now effects.Copy operands.now) }
{
    match operands {
        [Operand::Reg(d), Operand::Reg(s), ..] => {
            if !same_widths(alloc, target, f, d, s)? {
                return Ok(false);
            }
            Ok(has_home(target, d.loc, s.loc) && has_home(target, s.loc, d.loc))
        }
        _ => Ok(true),
    }
}

/// Whether the widths of a phi's operands are those of its result.
fn phi_widths_fit(
    alloc: Global,
    target: &Target,
    f: &Func,
    operands: &[Operand],
) -> Result<bool, AllocError>
    ensures { IfOk result (λ is_right. is_right ≡ rules.widths_fit target.now f.now effects.Phi operands.now) }
{
    match operands {
        [Operand::Reg(d), more @ ..] => all_same_widths(alloc, target, f, d, more),
        _ => Ok(true),
    }
}

/// Whether the indexes of a REG_SEQUENCE share no lane, and its inputs have their widths.
fn sequence_widths_fit(
    alloc: Global,
    target: &Target,
    f: &Func,
    operands: &[Operand],
) -> Result<bool, AllocError>
    ensures { IfOk result (λ is_right. is_right ≡ rules.widths_fit target.now f.now effects.RegSequence operands.now) }
{
    match operands {
        [Operand::Reg(d), more @ ..] => {
            if !are_apart(alloc, target, more)? {
                return Ok(false);
            }
            parts_fit(alloc, target, f, d, more)
        }
        _ => Ok(true),
    }
}

/// Whether the first input of an INSERT_SUBREG has the result's widths, and the second those of
/// its index.
fn insertion_widths_fit(
    alloc: Global,
    target: &Target,
    f: &Func,
    operands: &[Operand],
) -> Result<bool, AllocError>
    ensures { IfOk result (λ is_right. is_right ≡ rules.widths_fit target.now f.now effects.InsertSubreg operands.now) }
{
    match operands {
        [
            Operand::Reg(d),
            Operand::Reg(a),
            Operand::Reg(b),
            Operand::Index(x),
            ..
        ] => {
            if !same_widths(alloc, target, f, a, d)? {
                return Ok(false);
            }
            same_widths(alloc, target, f, b, &at_index(d, *x))
        }
        _ => Ok(true),
    }
}

/// Whether the widths of what COPY, PHI, REG_SEQUENCE and INSERT_SUBREG put together fit.
fn widths_fit(
    alloc: Global,
    target: &Target,
    f: &Func,
    effect: Effect,
    operands: &[Operand],
) -> Result<bool, AllocError>
    ensures { IfOk result (λ is_right. is_right ≡ rules.widths_fit target.now f.now effect operands.now) }
{
    match effect {
        Effect::Copy => copy_widths_fit(alloc, target, f, operands),
        Effect::Phi => phi_widths_fit(alloc, target, f, operands),
        Effect::RegSequence => sequence_widths_fit(alloc, target, f, operands),
        Effect::InsertSubreg => insertion_widths_fit(alloc, target, f, operands),
        _ => Ok(true),
    }
}

/// V2: whether registers lie in their operand's class, and what is copied or put together has equal
/// lane widths.
pub(crate) fn classes_fit(
    alloc: Global,
    target: &Target,
    f: &Func,
    effect: Effect,
    operands: &[Operand],
    bound: &[BoundOperand],
) -> Result<bool, AllocError>
    ensures { IfOk result (λ is_right. is_right ≡ (list_all (rules.in_operand_class target.now f.now effect) (seen_all bound.now) && rules.widths_fit target.now f.now effect operands.now)) }
{
    if !in_operand_classes(target, f, effect, bound) {
        return Ok(false);
    }
    widths_fit(alloc, target, f, effect, operands)
}

/// V3: whether each virtual register has just one class.
pub(crate) fn have_classes(f: &Func, named: &[RegOp]) -> bool
    ensures { result ≡ list_all (λ o. rules.has_class f.now o.loc) named.now }
{
    named.iter().all(|o| has_class(f, o.loc))
}

fn indexes_fit(target: &Target, f: &Func, named: &[RegOp]) -> bool
    ensures { result ≡ list_all (λ o. rules.index_fits target.now f.now o.loc o.index) named.now }
{
    named.iter().all(|o| index_fits(target, f, o.loc, o.index))
}

/// Whether index operands fit a register's class.
fn all_fit(target: &Target, f: &Func, loc: Loc, operands: &[Operand]) -> bool
    ensures { result ≡ list_all (λ x. rules.index_fits target.now f.now loc (Some x)) (flat_map rules.index_of operands.now) }
{
    for o in operands {
        if let Operand::Index(x) = o {
            if !index_fits(target, f, loc, Some(*x)) {
                return false;
            }
        }
    }
    true
}

/// Whether the `%subreg` operands of what puts a register together fit its class.
fn subregs_fit(target: &Target, f: &Func, operands: &[Operand]) -> bool
    ensures { result ≡ rules.subregs_fit target.now f.now operands.now }
{
    match operands {
        [Operand::Reg(d), more @ ..] => all_fit(target, f, d.loc, more),
        _ => true,
    }
}

/// V4: whether indexes fit the classes of their registers, and physical registers have none.
pub(crate) fn have_right_indexes(
    target: &Target,
    f: &Func,
    effect: Effect,
    operands: &[Operand],
    named: &[RegOp],
) -> bool
    ensures { result ≡ (list_all (λ o. rules.index_fits target.now f.now o.loc o.index) named.now && (not (binding.puts_together effect) || rules.subregs_fit target.now f.now operands.now)) }
{
    if !indexes_fit(target, f, named) {
        return false;
    }
    !puts_together(effect) || subregs_fit(target, f, operands)
}
