//! What a counted instruction writes.

ghost use Rattle.std.specs.Prelude.{◌≡◌, ◌+◌, ◌<◌, ◌-◌, ◌++◌, length, map, filter, flat_map, OnOk, IfOk, None, Some, not, false};
ghost use Rattle.mir_func.specs.Binding.{roles_of, implicit_roles, definitions};
ghost use Rattle.mir_meaning.specs.Registers.{numbers, operand_lanes, operand_widths, is_reserved};
ghost use Rattle.mir_meaning.specs.Items.{is_flags, values, explicit_definitions, implicit_definitions, result_writes, results, unreserved, all_lanes, answered, preserves, clobbered, kept, implicit_writes, opaque_clobbers, computed, defined_lanes, counted_writes, lane_width, result_widths};
ghost use Rattle.std.specs.List.{list_any};
ghost use Rattle.meaning.specs.declared.types.Lane.TheVariants.{UnitLane};
ghost use Rattle.target_base.specs.declared.types.Effect.TheVariants as effects;

use crate::definitions::{Definition, LATE, next_definition};
use crate::items::counted::is_flags;
use crate::items::lanes::{
    LaneList, push_operand_lanes, push_operand_widths, push_undefined_lanes,
};
use crate::items::writes::{push_computed, push_undefined};
use crate::masks::is_preserved;
use meaning::{Lane, Write, Writes};
use mir_func::opcodes::roles_of;
use mir_func::{Func, Instr, Operand, RegOp};
use std::alloc::{AllocError, Global};
use target_base::{Copied, Effect, List, Numbers, OpaqueKind, Role, Target};

/// The explicit definitions of an instruction.
fn explicit_definitions(alloc: Global, operands: &[Operand]) -> Result<List<RegOp>, AllocError>
    ensures { IfOk result (λ made. made ≡ explicit_definitions operands.now) }
{
    let mut made = List::new(alloc);
    for o in operands {
        if let Operand::Reg(r) = o {
            if r.def && !r.implicit {
                made.push(*r)?;
            }
        }
    }
    Ok(made)
}

/// The implicit definitions of an instruction.
fn implicit_definitions(alloc: Global, operands: &[Operand]) -> Result<List<RegOp>, AllocError>
    ensures { IfOk result (λ made. made ≡ implicit_definitions operands.now) }
{
    let mut made = List::new(alloc);
    for o in operands {
        if let Operand::Reg(r) = o {
            if r.implicit && r.def {
                made.push(*r)?;
            }
        }
    }
    Ok(made)
}

/// Appends the writes of an explicit definition, whose lanes are numbered from `first` on; answers
/// the number behind them.
fn push_result(
    out: &mut Writes,
    alloc: Global,
    t: &Target,
    f: &Func,
    first: u32,
    definition: Definition,
) -> Result<u32, AllocError>
    ensures writes { OnOk result (out.new ≡ out.old ++ result_writes t.now f.now definition.0 first definition.1) }
    ensures behind { IfOk result (λ n. n ≡ first + length (operand_lanes t.now f.now definition.1)) }
{
    let (early, d) = definition;
    let mut lanes = List::new(alloc);
    push_operand_lanes(&mut lanes, t, f, &d)?;
    let behind = push_computed(out, early, first, lanes.as_slice())?;
    let mut others = List::new(alloc);
    push_undefined_lanes(&mut others, t, f, &d)?;
    push_undefined(out, early, others.as_slice())?;
    Ok(behind)
}

/// Appends the writes of the explicit definitions among operands that take these roles; answers the
/// number behind their lanes.
fn push_results(
    out: &mut Writes,
    alloc: Global,
    t: &Target,
    f: &Func,
    roles: &[Role],
    operands: &[Operand],
) -> Result<u32, AllocError>
    ensures writes { OnOk result (out.new ≡ out.old ++ results t.now f.now 0 (definitions roles.now operands.now)) }
    ensures behind { IfOk result (λ n. n ≡ length (defined_lanes t.now f.now (definitions roles.now operands.now))) }
{
    let mut left = roles;
    let mut first = 0;
    for operand in operands {
        let (definition, behind) = next_definition(left, operand);
        if let Some(d) = definition {
            first = push_result(out, alloc, t, f, first, d)?;
        }
        left = behind;
    }
    Ok(first)
}

/// Whether a lane is a reserved unit.
pub fn is_reserved(t: &Target, l: Lane) -> bool
    ensures { result ≡ is_reserved t.now l }
{
    match l {
        Lane::UnitLane(u) => t.is_reserved_unit(u),
        _ => false,
    }
}

/// Those of these lanes that aren't reserved.
pub fn unreserved(alloc: Global, t: &Target, lanes: &[Lane]) -> Result<LaneList, AllocError>
    ensures { IfOk result (λ made. made ≡ unreserved t.now lanes.now) }
{
    let mut made = List::new(alloc);
    for l in lanes {
        if !is_reserved(t, *l) {
            made.push(*l)?;
        }
    }
    Ok(made)
}

/// Appends the lanes of several register operands.
fn push_all_lanes(
    out: &mut LaneList,
    t: &Target,
    f: &Func,
    operands: &[RegOp],
) -> Result<(), AllocError>
    ensures { OnOk result (out.new ≡ out.old ++ all_lanes t.now f.now operands.now) }
{
    for o in operands {
        push_operand_lanes(out, t, f, o)?;
    }
    Ok(())
}

/// The unreserved lanes of implicit definitions.
fn implicit_lanes(
    alloc: Global,
    t: &Target,
    f: &Func,
    operands: &[Operand],
) -> Result<LaneList, AllocError>
    ensures { IfOk result (λ made. made ≡ answered t.now f.now operands.now) }
{
    let definitions = implicit_definitions(alloc, operands)?;
    let mut lanes = List::new(alloc);
    push_all_lanes(&mut lanes, t, f, definitions.as_slice())?;
    unreserved(alloc, t, lanes.as_slice())
}

/// The units outside the mask of a call.
fn unpreserved_units(
    alloc: Global,
    t: &Target,
    operands: &[Operand],
) -> Result<LaneList, AllocError>
    ensures { IfOk result (λ made. made ≡ map UnitLane (filter (λ u. not (list_any (preserves t.now u) operands.now)) (numbers 0 (length t.now.units)))) }
{
    let mut made = List::new(alloc);
    for u in 0..t.units.len() as u32 {
        if !is_preserved(t, operands, u) {
            made.push(Lane::UnitLane(u))?;
        }
    }
    Ok(made)
}

/// The unreserved units outside the mask of a call.
fn clobbered_units(alloc: Global, t: &Target, operands: &[Operand]) -> Result<LaneList, AllocError>
    ensures { IfOk result (λ made. made ≡ clobbered t.now operands.now) }
{
    let units = unpreserved_units(alloc, t, operands)?;
    unreserved(alloc, t, units.as_slice())
}

/// The flags that an instruction defines.
fn flag_lanes(
    alloc: Global,
    t: &Target,
    f: &Func,
    roles: &[Role],
    operands: &[RegOp],
) -> Result<LaneList, AllocError>
    ensures { IfOk result (λ made. made ≡ all_lanes t.now f.now (filter (is_flags (implicit_roles roles.now)) operands.now)) }
{
    let mut made = List::new(alloc);
    for o in operands {
        if is_flags(roles, o) {
            push_operand_lanes(&mut made, t, f, o)?;
        }
    }
    Ok(made)
}

/// Appends the writes of lanes that aren't reserved.
fn push_kept(
    out: &mut Writes,
    alloc: Global,
    t: &Target,
    writes: &[Write],
) -> Result<(), AllocError>
    ensures { OnOk result (out.new ≡ out.old ++ kept t.now writes.now) }
{
    for w in writes {
        if !is_reserved(t, w.lane) {
            out.push(w.copied(alloc)?)?;
        }
    }
    Ok(())
}

/// What a comparison writes implicitly: its flags have values, the others are Undef.
fn push_compared(
    out: &mut Writes,
    alloc: Global,
    t: &Target,
    f: &Func,
    roles: &[Role],
    operands: &[Operand],
) -> Result<(), AllocError>
    ensures { OnOk result (out.new ≡ out.old ++ implicit_writes t.now f.now effects.Cmp (implicit_roles roles.now) operands.now) }
{
    let definitions = implicit_definitions(alloc, operands)?;
    let flags = flag_lanes(alloc, t, f, roles, definitions.as_slice())?;
    let mut all = List::new(alloc);
    push_all_lanes(&mut all, t, f, definitions.as_slice())?;
    let mut writes = List::new(alloc);
    push_computed(&mut writes, LATE, 0, flags.as_slice())?;
    push_undefined(&mut writes, LATE, all.as_slice())?;
    push_kept(out, alloc, t, writes.as_slice())
}

/// Appends what implicit definitions write.
fn push_implicit_writes(
    out: &mut Writes,
    alloc: Global,
    t: &Target,
    f: &Func,
    e: Effect,
    i: &Instr,
) -> Result<(), AllocError>
    ensures { OnOk result (out.new ≡ out.old ++ implicit_writes t.now f.now e (implicit_roles (roles_of t.now i.now)) i.now.operands) }
{
    let operands = i.operands.as_slice();
    match e {
        Effect::Cmp => push_compared(out, alloc, t, f, roles_of(t, i), operands),
        Effect::Call => {
            let answered = implicit_lanes(alloc, t, f, operands)?;
            push_computed(out, LATE, 0, answered.as_slice())?;
            let clobbered = clobbered_units(alloc, t, operands)?;
            push_undefined(out, LATE, clobbered.as_slice())
        }
        _ => {
            let lanes = implicit_lanes(alloc, t, f, operands)?;
            push_undefined(out, LATE, lanes.as_slice())
        }
    }
}

/// Appends what an opaque call makes Undef; nothing for other opaque instructions.
fn push_opaque_clobbers(
    out: &mut Writes,
    alloc: Global,
    t: &Target,
    kind: OpaqueKind,
    operands: &[Operand],
) -> Result<(), AllocError>
    ensures { OnOk result (out.new ≡ out.old ++ opaque_clobbers t.now kind operands.now) }
{
    match kind {
        OpaqueKind::Call => {
            let units = clobbered_units(alloc, t, operands)?;
            push_undefined(out, LATE, units.as_slice())
        }
        _ => Ok(()),
    }
}

/// Appends what implicit definitions of an opaque instruction take of its answer: the lanes from
/// `first` on, in reserved units too.
fn push_opaque_answer(
    out: &mut Writes,
    alloc: Global,
    t: &Target,
    f: &Func,
    first: u32,
    operands: &[Operand],
) -> Result<(), AllocError>
    ensures { OnOk result (out.new ≡ out.old ++ computed false first (all_lanes t.now f.now (implicit_definitions operands.now))) }
{
    let definitions = implicit_definitions(alloc, operands)?;
    let mut lanes = List::new(alloc);
    push_all_lanes(&mut lanes, t, f, definitions.as_slice())?;
    push_computed(out, LATE, first, lanes.as_slice())?;
    Ok(())
}

/// All that a counted instruction writes.
pub fn counted_writes(
    alloc: Global,
    t: &Target,
    f: &Func,
    e: Effect,
    i: &Instr,
) -> Result<Writes, AllocError>
    ensures { IfOk result (λ made. made ≡ counted_writes t.now f.now e i.now) }
{
    let operands = i.operands.as_slice();
    let mut made = List::new(alloc);
    let first = push_results(&mut made, alloc, t, f, roles_of(t, i), operands)?;
    match e {
        Effect::Opaque(kind) => {
            push_opaque_answer(&mut made, alloc, t, f, first, operands)?;
            push_opaque_clobbers(&mut made, alloc, t, kind, operands)?;
            Ok(made)
        }
        _ => {
            push_implicit_writes(&mut made, alloc, t, f, e, i)?;
            Ok(made)
        }
    }
}

/// The widths of lanes that are units.
fn lane_widths(alloc: Global, t: &Target, lanes: &[Lane]) -> Result<Numbers, AllocError>
    ensures { IfOk result (λ made. made ≡ map (lane_width t.now) lanes.now) }
{
    let mut made = List::new(alloc);
    for l in lanes {
        made.push(lane_width(t, *l))?;
    }
    Ok(made)
}

/// The width of a unit's lane.
fn lane_width(t: &Target, l: Lane) -> u32
    ensures { result ≡ lane_width t.now l }
{
    match l {
        Lane::UnitLane(u) => match t.units.as_slice().get(u as usize) {
            None => 0,
            Some(d) => d.width as u32,
        },
        _ => 0,
    }
}

/// Appends the lane widths of several register operands.
fn push_all_widths(
    out: &mut Numbers,
    t: &Target,
    f: &Func,
    operands: &[RegOp],
) -> Result<(), AllocError>
    ensures { OnOk result (out.new ≡ out.old ++ flat_map (operand_widths t.now f.now) operands.now) }
{
    for o in operands {
        push_operand_widths(out, t, f, o)?;
    }
    Ok(())
}

/// The lane widths of explicit definitions.
fn explicit_widths(
    alloc: Global,
    t: &Target,
    f: &Func,
    operands: &[Operand],
) -> Result<Numbers, AllocError>
    ensures { IfOk result (λ made. made ≡ flat_map (operand_widths t.now f.now) (explicit_definitions operands.now)) }
{
    let mut made = List::new(alloc);
    let explicit = explicit_definitions(alloc, operands)?;
    push_all_widths(&mut made, t, f, explicit.as_slice())?;
    Ok(made)
}

/// The lane widths of definitions: of explicit ones, then of implicit ones.
fn definition_widths(
    alloc: Global,
    t: &Target,
    f: &Func,
    operands: &[Operand],
) -> Result<Numbers, AllocError>
    ensures { IfOk result (λ made. made ≡ flat_map (operand_widths t.now f.now) (explicit_definitions operands.now ++ implicit_definitions operands.now)) }
{
    let mut made = explicit_widths(alloc, t, f, operands)?;
    let implicit = implicit_definitions(alloc, operands)?;
    push_all_widths(&mut made, t, f, implicit.as_slice())?;
    Ok(made)
}

/// The lane widths of what is computed.
pub(crate) fn result_widths(
    alloc: Global,
    t: &Target,
    f: &Func,
    e: Effect,
    operands: &[Operand],
) -> Result<Numbers, AllocError>
    ensures { IfOk result (λ made. made ≡ result_widths t.now f.now e operands.now) }
{
    match e {
        Effect::Call => {
            let lanes = implicit_lanes(alloc, t, f, operands)?;
            lane_widths(alloc, t, lanes.as_slice())
        }
        Effect::Opaque(_) => definition_widths(alloc, t, f, operands),
        _ => explicit_widths(alloc, t, f, operands),
    }
}
