//! What instructions write that count for nothing in a run: copies, constants, spills and reloads.

ghost use Rattle.std.specs.Prelude.{◌≡◌, false, sum, ◌+◌, ◌*◌, ◌/◌, ◌%◌, ◌^◌, ◌≤◌, ◌++◌, OnOk, IfOk, [], map, flat_map};
ghost use Rattle.meaning.specs.declared.types.Lane.TheVariants.{SlotLane};
ghost use Rattle.meaning.specs.declared.types.Source.TheVariants.{FromLane};
ghost use Rattle.meaning.specs.Environment.{constant_source};
ghost use Rattle.mir_func.specs.Binding.{is_early_clobber, roles_of};
ghost use Rattle.mir_meaning.specs.Registers.{numbers, operand_lanes, use_sources, operand_widths, slot_lane_numbers, slot_lanes, has_number};
ghost use Rattle.mir_meaning.specs.Items.{moved, undefined, copied, defined_undef, parts, sequenced, inserted, constant_bits, constant_lanes, constant_of, given_constant, widths_once, at_all_widths, spilled, reloaded, silent_writes};

use crate::definitions::LATE;
use crate::items::counted::{low_bits, residue, total};
use crate::items::lanes::{
    LaneList, Sources, push_located_lanes, push_operand_lanes, push_operand_widths,
    push_undefined_lanes, use_sources,
};
use crate::items::writes::{number, push_defined, push_moved, push_undefined};
use meaning::{Constant, Lane, Source, Writes};
use mir_func::opcodes::{is_early_clobber, roles_of};
use mir_func::{Func, Instr, Operand, RegOp};
use std::alloc::{AllocError, Global};
use target_base::{Copied, Effect, List, Numbers, Target};

/// COPY: the lanes of the source go to those of the definition.
fn push_copied(
    out: &mut Writes,
    alloc: Global,
    t: &Target,
    f: &Func,
    operands: &[Operand],
) -> Result<(), AllocError>
    ensures { OnOk result (out.new ≡ out.old ++ copied t.now f.now operands.now) }
{
    match operands {
        [Operand::Reg(d), Operand::Reg(s), ..] => {
            let sources = use_sources(alloc, t, f, s)?;
            push_defined(out, alloc, t, f, (LATE, *d), sources.as_slice())
        }
        _ => Ok(()),
    }
}

/// IMPLICIT_DEF: the lanes become Undef.
fn push_defined_undef(
    out: &mut Writes,
    alloc: Global,
    t: &Target,
    f: &Func,
    operands: &[Operand],
) -> Result<(), AllocError>
    ensures { OnOk result (out.new ≡ out.old ++ defined_undef t.now f.now operands.now) }
{
    match operands {
        [Operand::Reg(d), ..] => {
            let mut lanes = List::new(alloc);
            push_operand_lanes(&mut lanes, t, f, d)?;
            push_undefined_lanes(&mut lanes, t, f, d)?;
            push_undefined(out, LATE, lanes.as_slice())
        }
        _ => Ok(()),
    }
}

/// One part of a REG_SEQUENCE or an INSERT_SUBREG, in the lanes of its index.
fn push_part(
    out: &mut Writes,
    alloc: Global,
    t: &Target,
    f: &Func,
    lanes: &[Lane],
    s: &RegOp,
) -> Result<(), AllocError>
    ensures { OnOk result (out.new ≡ out.old ++ moved false lanes.now (use_sources t.now f.now s.now)) }
{
    let sources = use_sources(alloc, t, f, s)?;
    push_moved(out, alloc, LATE, lanes, sources.as_slice())
}

/// The parts of a REG_SEQUENCE, each in the lanes of its index.
fn push_parts(
    out: &mut Writes,
    alloc: Global,
    t: &Target,
    f: &Func,
    d: &RegOp,
    operands: &[Operand],
) -> Result<(), AllocError>
    ensures { OnOk result (out.new ≡ out.old ++ parts t.now f.now d.now operands.now) }
{
    let mut rest = operands;
    while let [Operand::Reg(s), Operand::Index(x), more @ ..] = rest {
        let mut lanes = List::new(alloc);
        push_located_lanes(&mut lanes, t, f, d.loc, Some(*x))?;
        push_part(out, alloc, t, f, lanes.as_slice(), s)?;
        rest = more;
    }
    Ok(())
}

/// The parts, and Undef in the lanes that no part fills.
fn push_sequence(
    out: &mut Writes,
    alloc: Global,
    t: &Target,
    f: &Func,
    d: &RegOp,
    inputs: &[Operand],
) -> Result<(), AllocError>
    ensures { OnOk result (out.new ≡ out.old ++ (parts t.now f.now d.now inputs.now ++ undefined false (operand_lanes t.now f.now d.now))) }
{
    push_parts(out, alloc, t, f, d, inputs)?;
    let mut lanes = List::new(alloc);
    push_operand_lanes(&mut lanes, t, f, d)?;
    push_undefined(out, LATE, lanes.as_slice())
}

/// REG_SEQUENCE: its parts.
fn push_sequenced(
    out: &mut Writes,
    alloc: Global,
    t: &Target,
    f: &Func,
    operands: &[Operand],
) -> Result<(), AllocError>
    ensures { OnOk result (out.new ≡ out.old ++ sequenced t.now f.now operands.now) }
{
    match operands {
        [Operand::Reg(d), inputs @ ..] => push_sequence(out, alloc, t, f, d, inputs),
        _ => Ok(()),
    }
}

/// INSERT_SUBREG: the part at its index, and the first input in the other lanes.
fn push_inserted(
    out: &mut Writes,
    alloc: Global,
    t: &Target,
    f: &Func,
    operands: &[Operand],
) -> Result<(), AllocError>
    ensures { OnOk result (out.new ≡ out.old ++ inserted t.now f.now operands.now) }
{
    match operands {
        [
            Operand::Reg(d),
            Operand::Reg(a),
            Operand::Reg(b),
            Operand::Index(x),
            ..
        ] => {
            let mut picked = List::new(alloc);
            push_located_lanes(&mut picked, t, f, d.loc, Some(*x))?;
            push_part(out, alloc, t, f, picked.as_slice(), b)?;
            let mut lanes = List::new(alloc);
            push_operand_lanes(&mut lanes, t, f, d)?;
            push_part(out, alloc, t, f, lanes.as_slice(), a)
        }
        _ => Ok(()),
    }
}

/// The bits of a number from bit `low` on, as many as w.
fn bits_from(n: u128, low: u32, w: u32) -> u128
    requires { low + w ≤ 128 }
    ensures { result ≡ n % 2 ^ (low + w) / 2 ^ low }
{
    if low >= 128 {
        return 0;
    }
    low_bits(n, low + w) / (1 << low)
}

/// The source of some bits of a constant.
fn constant_source(alloc: Global, c: &Constant, low: u32, w: u32) -> Result<Source, AllocError>
    requires { low + w ≤ 128 }
    ensures { IfOk result (λ made. made ≡ constant_source c.now low w) }
{
    match c {
        Constant::Immediate(n) => Ok(Source::Bits(
            Constant::Immediate(bits_from(*n, low, w)),
            0,
            w,
        )),
        _ => Ok(Source::Bits(c.copied(alloc)?, low, w)),
    }
}

/// The bits of a constant at lanes of these widths. Want of memory stands for more than 128 bits,
/// which no register has.
fn constant_bits(alloc: Global, c: &Constant, widths: &[u32]) -> Result<Sources, AllocError>
    ensures { IfOk result (λ made. made ≡ constant_bits c.now 0 widths.now) }
{
    let mut made = List::new(alloc);
    let mut low: u32 = 0;
    for w in widths {
        if *w > 128 - low {
            return Err(AllocError);
        }
        made.push(constant_source(alloc, c, low, *w)?)?;
        low += *w;
    }
    Ok(made)
}

/// An operand that is a constant; an immediate counts modulo 2^w.
fn constant_of(alloc: Global, w: u32, o: &Operand) -> Result<Option<Constant>, AllocError>
    requires { w ≤ 128 }
    ensures { IfOk result (λ c. c ≡ constant_of w o.now) }
{
    match o {
        Operand::Imm(z) => Ok(Some(Constant::Immediate(residue(*z, w)))),
        Operand::Stack(n) => Ok(Some(Constant::StackAddress(*n))),
        Operand::FixedStack(n) => Ok(Some(Constant::FixedStackAddress(*n))),
        Operand::Symbol(name) => Ok(Some(Constant::SymbolAddress(name.copied(alloc)?))),
        _ => Ok(None),
    }
}

/// A constant's bits at the lanes of a definition.
fn constant_lanes(
    alloc: Global,
    t: &Target,
    f: &Func,
    d: &RegOp,
    o: &Operand,
) -> Result<Sources, AllocError>
    ensures { IfOk result (λ made. made ≡ constant_lanes t.now f.now d.now (constant_of (sum (operand_widths t.now f.now d.now)) o.now)) }
{
    let mut widths = List::new(alloc);
    push_operand_widths(&mut widths, t, f, d)?;
    let bits = total(widths.as_slice()).ok_or(AllocError)?;
    match constant_of(alloc, bits, o)? {
        None => Ok(List::new(alloc)),
        Some(c) => constant_bits(alloc, &c, widths.as_slice()),
    }
}

/// A definition that is given an immediate or an address.
fn push_constant(
    out: &mut Writes,
    alloc: Global,
    t: &Target,
    f: &Func,
    early: bool,
    operands: &[Operand],
) -> Result<(), AllocError>
    ensures { OnOk result (out.new ≡ out.old ++ given_constant t.now f.now early operands.now) }
{
    match operands {
        [Operand::Reg(d), o, ..] => {
            let sources = constant_lanes(alloc, t, f, d, o)?;
            push_defined(out, alloc, t, f, (early, *d), sources.as_slice())
        }
        _ => Ok(()),
    }
}

/// The numbers of the lanes of a slot that are stored or reloaded: all, or those of an index.
fn slot_numbers(
    alloc: Global,
    t: &Target,
    widths: &[u32],
    o: &Operand,
) -> Result<Numbers, AllocError>
    ensures { IfOk result (λ made. made ≡ slot_lane_numbers t.now widths.now o.now) }
{
    match o {
        Operand::Index(x) => lane_numbers(alloc, t.lanes_at(*x)),
        _ => first_numbers(alloc, number(widths.len())?),
    }
}

/// Lane numbers as numbers of 32 bits.
fn lane_numbers(alloc: Global, lanes: &[u8]) -> Result<Numbers, AllocError>
    ensures { IfOk result (λ made. made ≡ lanes.now) }
{
    let mut made = List::new(alloc);
    for k in lanes {
        made.push(*k as u32)?;
    }
    Ok(made)
}

/// The numbers from 0 on.
fn first_numbers(alloc: Global, count: u32) -> Result<Numbers, AllocError>
    ensures { IfOk result (λ made. made ≡ numbers 0 count) }
{
    let mut made = List::new(alloc);
    for k in 0..count {
        made.push(k)?;
    }
    Ok(made)
}

/// Lanes of a slot by their numbers, each at its width; what lacks a partner is left out.
fn slot_lanes(alloc: Global, s: u32, lanes: &[u32], widths: &[u32]) -> Result<LaneList, AllocError>
    ensures { IfOk result (λ made. made ≡ slot_lanes s lanes.now widths.now) }
{
    let mut made = List::new(alloc);
    for k in 0..lanes.len() {
        if k >= widths.len() {
            return Ok(made);
        }
        made.push(Lane::SlotLane(s, lanes[k], widths[k]))?;
    }
    Ok(made)
}

/// Whether a number is among these.
fn has_number(numbers: &[u32], n: u32) -> bool
    ensures { result ≡ has_number numbers.now n }
{
    numbers.iter().any(|m| n == *m)
}

/// The widths that units of the target have, each once.
fn unit_widths(alloc: Global, t: &Target) -> Result<List<u32>, AllocError>
    ensures { IfOk result (λ made. made ≡ widths_once [] t.now.units) }
{
    let mut made: List<u32> = List::new(alloc);
    for d in t.units.as_slice() {
        let width = d.width as u32;
        if !has_number(made.as_slice(), width) {
            made.push(width)?;
        }
    }
    Ok(made)
}

/// Appends one lane of a slot at these widths.
fn push_at_widths(out: &mut LaneList, s: u32, k: u32, widths: &[u32]) -> Result<(), AllocError>
    ensures { OnOk result (out.new ≡ out.old ++ map (λ w. SlotLane s k w) widths.now) }
{
    for w in widths {
        out.push(Lane::SlotLane(s, k, *w))?;
    }
    Ok(())
}

/// Lanes of a slot at these widths.
fn at_widths(alloc: Global, s: u32, lanes: &[u32], widths: &[u32]) -> Result<LaneList, AllocError>
    ensures { IfOk result (λ made. made ≡ flat_map (λ k. map (λ w. SlotLane s k w) widths.now) lanes.now) }
{
    let mut made = List::new(alloc);
    for k in lanes {
        push_at_widths(&mut made, s, *k, widths)?;
    }
    Ok(made)
}

/// Lanes of a slot at every width.
fn at_all_widths(alloc: Global, t: &Target, s: u32, lanes: &[u32]) -> Result<LaneList, AllocError>
    ensures { IfOk result (λ made. made ≡ at_all_widths t.now s lanes.now) }
{
    let widths = unit_widths(alloc, t)?;
    at_widths(alloc, s, lanes, widths.as_slice())
}

/// A store; what the slot's lanes held at other widths is Undef then.
fn push_spilled(
    out: &mut Writes,
    alloc: Global,
    t: &Target,
    f: &Func,
    operands: &[Operand],
) -> Result<(), AllocError>
    ensures { OnOk result (out.new ≡ out.old ++ spilled t.now f.now operands.now) }
{
    match operands {
        [Operand::Reg(o), Operand::Stack(s), k, ..] => {
            let mut widths = List::new(alloc);
            push_operand_widths(&mut widths, t, f, o)?;
            let numbers = slot_numbers(alloc, t, widths.as_slice(), k)?;
            let lanes = slot_lanes(alloc, *s, numbers.as_slice(), widths.as_slice())?;
            push_part(out, alloc, t, f, lanes.as_slice(), o)?;
            let others = at_all_widths(alloc, t, *s, numbers.as_slice())?;
            push_undefined(out, LATE, others.as_slice())
        }
        _ => Ok(()),
    }
}

/// Lanes as sources.
fn sources_of(alloc: Global, lanes: &[Lane]) -> Result<Sources, AllocError>
    ensures { IfOk result (λ made. made ≡ map FromLane lanes.now) }
{
    let mut made = List::new(alloc);
    for l in lanes {
        made.push(Source::FromLane(*l))?;
    }
    Ok(made)
}

/// A reload: the slot's lanes go to those of the register.
fn push_reloaded(
    out: &mut Writes,
    alloc: Global,
    t: &Target,
    f: &Func,
    early: bool,
    operands: &[Operand],
) -> Result<(), AllocError>
    ensures { OnOk result (out.new ≡ out.old ++ reloaded t.now f.now early operands.now) }
{
    match operands {
        [Operand::Reg(o), Operand::Stack(s), k, ..] => {
            let mut widths = List::new(alloc);
            push_operand_widths(&mut widths, t, f, o)?;
            let numbers = slot_numbers(alloc, t, widths.as_slice(), k)?;
            let lanes = slot_lanes(alloc, *s, numbers.as_slice(), widths.as_slice())?;
            let sources = sources_of(alloc, lanes.as_slice())?;
            push_defined(out, alloc, t, f, (early, *o), sources.as_slice())
        }
        _ => Ok(()),
    }
}

/// Appends what an instruction writes that counts for nothing in a run. A phi writes on the way
/// into its block, and so nothing where it stands.
pub fn push_silent_writes(
    out: &mut Writes,
    alloc: Global,
    t: &Target,
    f: &Func,
    e: Effect,
    i: &Instr,
) -> Result<(), AllocError>
    ensures { OnOk result (out.new ≡ out.old ++ silent_writes t.now f.now e (is_early_clobber (roles_of t.now i.now)) i.now.operands) }
{
    let operands = i.operands.as_slice();
    let early = is_early_clobber(roles_of(t, i));
    match e {
        Effect::Copy => push_copied(out, alloc, t, f, operands),
        Effect::ImplicitDef => push_defined_undef(out, alloc, t, f, operands),
        Effect::RegSequence => push_sequenced(out, alloc, t, f, operands),
        Effect::InsertSubreg => push_inserted(out, alloc, t, f, operands),
        Effect::Const => push_constant(out, alloc, t, f, early, operands),
        Effect::Addr => push_constant(out, alloc, t, f, early, operands),
        Effect::Spill => push_spilled(out, alloc, t, f, operands),
        Effect::Reload => push_reloaded(out, alloc, t, f, early, operands),
        _ => Ok(()),
    }
}
