//! The copies of a function, tried one after the other.

ghost use Rattle.std.specs.Prelude.{◌≡◌, ◌||◌, ◌∷◌, ◌++◌, [], true, IfOk, OnOk, Some};
ghost use Rattle.std.specs.List.{list_all};
ghost use Rattle.std.specs.Option.{option_map_or};
ghost use Rattle.mir_meaning.specs.Codes.{refines};
ghost use Rattle.mir_meaning.specs.Points.{is_range};
ghost use Rattle.mir_func.specs.Binding.{registers};
ghost use Rattle.live_edits.specs.Folded.{composed, is_narrower, registers_of};
ghost use Rattle.join_laws.specs.Joined.{Joined, fits_range, index_on, indexed_join, join_at, part_join, sides_join, whole_join};
ghost use Rattle.coalescer.specs.Coalescing.{IsJoinOf, IsTried, MayCoalesce, fits_instr, fits_operands, instr_of, joins_of};

use crate::order::copies_in_order;
use crate::quiet::is_quiet;
use crate::sides::{instr_of, sides_at, two_ranges};
use block_freq::Freqs;
use live_edits::live::fold;
use live_edits::{Join, compose_indexes};
use live_lanes::LiveFunc;
use mir_func::operands::{as_register, class_of};
use mir_func::{Loc, Operand, RegOp};
use std::alloc::{AllocError, Global};
use target_base::classes::{are_within, have_subs, hold_subs, regs_at};
use target_base::{ClassId, IndexId, List, Reg, Target};

/// Joins in order.
pub type Joins = List<Join>;

/// A side of a copy: a range, and the index of its lanes.
#[derive(Clone, Copy)]
struct Side {
    range: u32,
    index: Option<IndexId>,
}

/// Lanes of a range, and a range that they stand for.
#[derive(Clone, Copy)]
struct Part {
    keep: u32,
    index: IndexId,
    gone: u32,
}

/// Tries each copy between two ranges once, by block frequency, the greatest first, and then by
/// layout, and joins its ranges where they may be one and no value is lost. Answers the function
/// then, and the joins in order.
pub fn coalesce(
    alloc: Global,
    target: &Target,
    f: LiveFunc,
    freqs: &Freqs,
) -> Result<(LiveFunc, Joins), AllocError>
    ensures joined { IfOk result (λ r. MayCoalesce target.now f → Joined target.now freqs.now f.func r.1 r.0.func) }
    ensures kept { IfOk result (λ r. MayCoalesce target.now f → MayCoalesce target.now r.0) }
    ensures refines { IfOk result (λ r. MayCoalesce target.now f → refines target.now f.func r.0.func) }
{
    let mut live = f;
    let mut joins = Joins::new(alloc);
    let copies = copies_in_order(alloc, target, freqs.as_slice(), &live)?;
    'copies: for copy in copies.as_slice() {
        let made = try_copy(alloc, target, &mut live, copy.1)?;
        push_made(&mut joins, made)?;
    }
    Ok((live, joins))
}

/// Puts a join, if one was made, behind others.
fn push_made(joins: &mut Joins, made: Option<Join>) -> Result<(), AllocError>
    ensures { OnOk result (joins.new ≡ joins.old ++ joins_of made) }
{
    match made {
        Some(join) => joins.push(join),
        None => Ok(()),
    }
}

/// Tries the copy of an id, and answers the join that was made.
fn try_copy(
    alloc: Global,
    target: &Target,
    live: &mut LiveFunc,
    id: u32,
) -> Result<Option<Join>, AllocError>
    ensures { IfOk result (λ made. MayCoalesce target.now live.old → IsTried target.now id live.old live.new made) }
{
    let Some(join) = join_of(alloc, target, live, id)? else {
        return Ok(None);
    };
    let touched = live.touched(alloc, join.gone)?;
    fold(live, touched.as_slice(), join)?;
    Ok(Some(join))
}

/// The join of the ranges of a copy, where it stands yet, they may be one and no value is lost.
fn join_of(
    alloc: Global,
    target: &Target,
    live: &LiveFunc,
    id: u32,
) -> Result<Option<Join>, AllocError>
    ensures { IfOk result (λ made. MayCoalesce target.now live.now → IsJoinOf target.now live.now.func id made) }
{
    let Some(join) = join_at(alloc, target, live, id)? else {
        return Ok(None);
    };
    if is_quiet(target, live, join) {
        Ok(Some(join))
    } else {
        Ok(None)
    }
}

/// The join that the copy of an id asks for, where it stands yet, by the classes and indexes of its
/// ranges.
fn join_at(
    alloc: Global,
    target: &Target,
    live: &LiveFunc,
    id: u32,
) -> Result<Option<Join>, AllocError>
    ensures { IfOk result (λ made. MayCoalesce target.now live.now → made ≡ join_at target.now live.now.func id) }
{
    match sides_at(target, live, id) {
        Some(sides) => sides_join(alloc, target, live, &sides),
        None => Ok(None),
    }
}

/// The join that the sides of a copy ask for.
fn sides_join(
    alloc: Global,
    target: &Target,
    live: &LiveFunc,
    sides: &(RegOp, RegOp),
) -> Result<Option<Join>, AllocError>
    ensures { IfOk result (λ made. MayCoalesce target.now live.now → made ≡ sides_join target.now live.now.func (Some sides.now)) }
{
    match two_ranges(sides.0.loc, sides.1.loc) {
        Some((a, b)) => {
            let to = Side {
                range: a,
                index: sides.0.index,
            };
            let from = Side {
                range: b,
                index: sides.1.index,
            };
            indexed_join(alloc, target, live, to, from)
        }
        None => Ok(None),
    }
}

/// The join of a copy's sides by their indexes.
fn indexed_join(
    alloc: Global,
    target: &Target,
    live: &LiveFunc,
    to: Side,
    from: Side,
) -> Result<Option<Join>, AllocError>
    ensures { IfOk result (λ made. MayCoalesce target.now live.now → made ≡ indexed_join target.now live.now.func to.range to.index from.range from.index) }
{
    match to.index {
        None => match from.index {
            None => Ok(whole_join(target, live, to.range, from.range)),
            Some(index) => {
                let part = Part {
                    keep: from.range,
                    index,
                    gone: to.range,
                };
                part_join(alloc, target, live, part)
            }
        },
        Some(index) => match from.index {
            None => {
                let part = Part {
                    keep: to.range,
                    index,
                    gone: from.range,
                };
                part_join(alloc, target, live, part)
            }
            Some(_) => Ok(None),
        },
    }
}

/// The registers that a range may have.
fn registers_of<'a>(target: &'a Target, live: &LiveFunc, v: u32) -> &'a [Reg]
    ensures { result.now ≡ registers_of target.now live.now.func v }
{
    regs_at(target.classes.as_slice(), class_of(live.func(), v))
}

/// Whether the registers of a range are all registers of another.
fn is_narrower(target: &Target, live: &LiveFunc, v: u32, w: u32) -> bool
    ensures { result ≡ is_narrower target.now live.now.func v w }
{
    are_within(registers_of(target, live, v), registers_of(target, live, w))
}

/// Whether two classes are the same.
fn are_same(a: Option<ClassId>, b: Option<ClassId>) -> bool
    ensures { result ≡ true → a ≡ b }
{
    match a {
        None => b.is_none(),
        Some(x) => match b {
            None => false,
            Some(y) => x.0 == y.0,
        },
    }
}

/// Whether the registers of one of two ranges are all registers of the other.
fn are_nested(target: &Target, live: &LiveFunc, a: u32, b: u32) -> bool
    ensures { result ≡ (is_narrower target.now live.now.func a b || is_narrower target.now live.now.func b a) }
{
    if are_same(class_of(live.func(), a), class_of(live.func(), b)) {
        return true;
    }
    is_narrower(target, live, a, b) || is_narrower(target, live, b, a)
}

/// The join of two ranges as wholes.
fn whole_join(target: &Target, live: &LiveFunc, a: u32, b: u32) -> Option<Join>
    ensures { result ≡ whole_join target.now live.now.func a b }
{
    if are_nested(target, live, a, b) {
        Some(Join {
            keep: a.min(b),
            gone: a.max(b),
            index: None,
        })
    } else {
        None
    }
}

/// The join of a range as lanes of another.
fn part_join(
    alloc: Global,
    target: &Target,
    live: &LiveFunc,
    part: Part,
) -> Result<Option<Join>, AllocError>
    ensures { IfOk result (λ made. MayCoalesce target.now live.now → made ≡ part_join target.now live.now.func part.keep part.index part.gone) }
{
    let own = registers_of(target, live, part.keep);
    let others = registers_of(target, live, part.gone);
    if !hold_subs(
        target.regs.as_slice(),
        target.lanes_at(part.index),
        own,
        others,
    ) {
        return Ok(None);
    }
    let touched = live.touched(alloc, part.gone)?;
    if !are_fitting(target, live, part, touched.as_slice()) {
        return Ok(None);
    }
    Ok(Some(Join {
        keep: part.keep,
        gone: part.gone,
        index: Some(part.index),
    }))
}

/// Whether the indexes with which instructions name the range that goes fit the lanes that it is to be.
fn are_fitting(target: &Target, live: &LiveFunc, part: Part, ids: &[u32]) -> bool
    ensures { MayCoalesce target.now live.now
        → result ≡ list_all (λ id. fits_instr target.now live.now.func part.keep part.index part.gone (instr_of live.now.func id)) ids.now }
{
    'ids: for id in ids {
        if !fits_instr(target, live, part, *id) {
            return false;
        }
    }
    true
}

/// Whether those of the instruction of an id do.
fn fits_instr(target: &Target, live: &LiveFunc, part: Part, id: u32) -> bool
    ensures { MayCoalesce target.now live.now
        → result ≡ fits_instr target.now live.now.func part.keep part.index part.gone (instr_of live.now.func id) }
{
    match instr_of(live, id) {
        Some(instr) => fits_operands(target, live, part, instr.operands.as_slice()),
        None => true,
    }
}

/// Whether those of these operands do.
fn fits_operands(target: &Target, live: &LiveFunc, part: Part, operands: &[Operand]) -> bool
    ensures { result ≡ list_all (λ o. fits_operands target.now live.now.func part.keep part.index part.gone (o ∷ [])) operands.now }
{
    operands
        .iter()
        .all(|operand| fits_operand(target, live, part, operand))
}

fn fits_operand(target: &Target, live: &LiveFunc, part: Part, operand: &Operand) -> bool
    ensures { result ≡ fits_operands target.now live.now.func part.keep part.index part.gone (operand.now ∷ []) }
{
    match as_register(operand) {
        Some(op) => fits_index(target, live, part, index_on(part.gone, &op)),
        None => true,
    }
}

/// The index with which an operand names a range.
fn index_on(v: u32, op: &RegOp) -> Option<IndexId>
    ensures { result ≡ index_on v op.now }
{
    match op.loc {
        Loc::Virtual(w) => { if v == w { op.index } else { None } }
        Loc::Fixed(_) => None,
    }
}

/// Whether an index, if there is one, fits lanes of a range.
fn fits_index(target: &Target, live: &LiveFunc, part: Part, inner: Option<IndexId>) -> bool
    ensures { result ≡ option_map_or (λ y. fits_range target.now live.now.func part.keep (composed target.now part.index y)) inner true }
{
    let Some(inner) = inner else {
        return true;
    };
    match compose_indexes(target, part.index, inner) {
        Some(index) => have_subs(
            target.regs.as_slice(),
            target.lanes_at(index),
            registers_of(target, live, part.keep),
        ),
        None => false,
    }
}
