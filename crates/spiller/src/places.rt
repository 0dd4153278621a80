//! How each kind of place changes when its range is spilled.

ghost use Rattle.std.specs.Prelude.{◌≡◌, ◌+◌, ℕ, true, false, Option, Some, None, OnOk, List, [], ◌∷◌, length, slice_get};
ghost use Rattle.target_base.specs.Registers.{lanes_of};
ghost use Rattle.target_base.specs.Storage.{same_numbers};
ghost use Rattle.target_base.specs.declared.types.IndexId.{IndexId};
ghost use Rattle.mir_func.specs.declared.func.Gap.{Gap};
ghost use Rattle.mir_func.specs.declared.func.Instr.{Instr};
ghost use Rattle.mir_func.specs.declared.func.RegOp.{RegOp};
ghost use Rattle.mir_func.specs.declared.func.Operand.TheVariants as operands;
ghost use Rattle.mir_func.specs.declared.func.Block.{Block};
ghost use Rattle.target_base.specs.Rules.{is_implicit_def};
ghost use Rattle.target_base.specs.declared.types.Effect.{Effect};
ghost use Rattle.mir_func.specs.Binding.{does, effect_of, is_terminator};
ghost use Rattle.mir_meaning.specs.Points.{is_range, touches};
ghost use Rattle.mir_meaning.specs.Registers.{numbers, slot_lane_numbers};
ghost use Rattle.live_lanes.specs.Looks.{InOrder};
ghost use Rattle.spiller.specs.Additions.{with_addition};
ghost use Rattle.spiller.specs.Moving.{IsCopied, is_placed, copied_from, moved_through, spill_change, reload_change};
ghost use Rattle.spiller.specs.Planned.{names_own, with_change};
ghost use Rattle.spiller.specs.Reaching.{Facts};
ghost use Rattle.spiller.specs.Readings.{goes_in, source_in};
ghost use Rattle.spiller.specs.Rematerialised.{copy_reading, repeated_for};
ghost use Rattle.spiller.specs.Seating.{IsBehind};
ghost use Rattle.spiller.specs.Setting.{class_beside, is_live_behind, is_own, lanes_named, moving_class, own_lanes, part_class};
ghost use Rattle.spiller.specs.Placing.{Spillable};
ghost use Rattle.spiller.specs.Spilled.{change, copied_in, copied_within, copy_change, is_own_part, undefined_change};
ghost use Rattle.spiller.specs.Views.{gap_before, gap_behind, own_setting, planned, spilling_of};

use crate::kinds::{reload_op, spill_op};
use crate::plan::{Plan, SlotPart, SpillView, definition_of, slot_operands, undef_use, use_of};
use crate::remat::{Remat, UseKey};
use crate::seats::change_instr;
use mir_func::opcodes::effect_of;
use mir_func::operands::{class_of, register_at};
use mir_func::{Instr, Loc, Operand, RegOp};
use phi_elim::moves::{whole_definition, whole_use};
use std::alloc::AllocError;
use target_base::classes::{is_reload, is_spill};
use target_base::roles::is_copy;
use target_base::{ClassId, Effect, IndexId, Target};

/// The class of the part that an index picks, of a register of a class.
fn part_class(target: &Target, index: Option<IndexId>, class: Option<ClassId>) -> Option<ClassId>
    ensures { result ≡ part_class target.now index class }
{
    match class {
        None => None,
        Some(class) => target.part_at(class, index),
    }
}

/// The class whose opcode moves a register side of a copy.
fn class_beside(view: SpillView<'_>, op: &RegOp) -> Option<ClassId>
    ensures { (slot : ℕ) (facts : Facts) → result ≡ class_beside (spilling_of view.entry slot facts) op.now op.now.loc }
{
    match op.loc {
        Loc::Fixed(r) => view.target.home_at(r),
        Loc::Virtual(w) => part_class(view.target, op.index, class_of(view.live.func(), w)),
    }
}

/// The class whose opcodes move the lanes of the range that an index picks.
fn moving_class(view: SpillView<'_>, index: Option<IndexId>) -> Option<ClassId>
    ensures { (slot : ℕ) (facts : Facts) → result ≡ moving_class (spilling_of view.entry slot facts) index }
{
    match view.own_class() {
        None => None,
        Some(class) => view.target.move_at(class, index),
    }
}

/// Whether two operands with these indexes name the same lanes of the range in the same order.
fn have_same_lanes(view: SpillView<'_>, a: Option<IndexId>, b: Option<IndexId>) -> bool
    ensures { (slot : ℕ) (facts : Facts) → result ≡ same_numbers (own_lanes (spilling_of view.entry slot facts) a) (own_lanes (spilling_of view.entry slot facts) b) }
{
    match (a, b) {
        (None, None) => true,
        (Some(a), Some(b)) => pick_same_lanes(view.target, a, b),
        (None, Some(index)) => picks_all(view, index),
        (Some(index), None) => picks_all(view, index),
    }
}

/// Whether two indexes pick the same lanes in the same order.
fn pick_same_lanes(target: &Target, a: IndexId, b: IndexId) -> bool
    ensures { result ≡ same_numbers (lanes_of target.now a) (lanes_of target.now b) }
{
    are_same_lanes(target.lanes_at(a), target.lanes_at(b))
}

fn are_same_lanes(a: &[u8], b: &[u8]) -> bool
    ensures { result ≡ same_numbers a.now b.now }
{
    a == b
}

/// Whether an index picks all lanes of the range in order.
fn picks_all(view: SpillView<'_>, index: IndexId) -> bool
    ensures { (slot : ℕ) (facts : Facts) → result ≡ same_numbers (own_lanes (spilling_of view.entry slot facts) None) (lanes_of view.entry.target.now index) }
{
    are_first_lanes(view.target.lanes_at(index), view.lane_count())
}

/// Whether these are so many lanes, from the first one on.
fn are_first_lanes(lanes: &[u8], count: usize) -> bool
    ensures { result ≡ same_numbers (numbers 0 count) lanes.now }
{
    if lanes.len() != count {
        return false;
    }
    'lanes: for k in 0..lanes.len() {
        if lanes[k] as usize != k {
            return false;
        }
    }
    true
}

/// Changes the place of one instruction that isn't a terminator.
pub(crate) fn change_single(
    view: SpillView<'_>,
    instr: &Instr,
    remat: &Remat,
    plan: &mut Plan,
) -> Result<(), AllocError>
    ensures { (facts : Facts) → Spillable view.entry facts (source_in remat.now) (goes_in remat.now)
        → (p j : ℕ) (b : Block) → slice_get view.entry.live.now.func.blocks p ≡ Some b → slice_get b.instrs j ≡ Some instr.now
        → does is_terminator view.entry.target.now instr.now ≡ false → touches view.entry.v instr.now ≡ true
        → OnOk result (planned plan.new ≡ with_change (spilling_of view.entry view.entry.slot facts) (gap_before view.entry instr.now.id) (gap_behind b (slice_get b.instrs (j + 1))) (instr.now ∷ []) (change (spilling_of view.entry view.entry.slot facts) plan.old.next_id plan.old.next_range (instr.now ∷ [])) (planned plan.old)) }
{
    match effect_of(view.target, instr) {
        None => change_other(view, instr, remat, plan),
        Some(effect) => change_by_effect(view, instr, effect, remat, plan),
    }
}

/// Whether an instruction of this effect gives a register no value.
fn is_undefined(effect: Effect) -> bool
    ensures { result ≡ is_implicit_def effect }
{
    match effect {
        Effect::ImplicitDef => true,
        _ => false,
    }
}

/// Changes the place of one instruction of that effect.
fn change_by_effect(
    view: SpillView<'_>,
    instr: &Instr,
    effect: Effect,
    remat: &Remat,
    plan: &mut Plan,
) -> Result<(), AllocError>
    ensures { (facts : Facts) → Spillable view.entry facts (source_in remat.now) (goes_in remat.now)
        → (p j : ℕ) (b : Block) → slice_get view.entry.live.now.func.blocks p ≡ Some b → slice_get b.instrs j ≡ Some instr.now
        → does is_terminator view.entry.target.now instr.now ≡ false → touches view.entry.v instr.now ≡ true → effect_of view.entry.target.now instr.now ≡ Some effect
        → OnOk result (planned plan.new ≡ with_change (spilling_of view.entry view.entry.slot facts) (gap_before view.entry instr.now.id) (gap_behind b (slice_get b.instrs (j + 1))) (instr.now ∷ []) (change (spilling_of view.entry view.entry.slot facts) plan.old.next_id plan.old.next_range (instr.now ∷ [])) (planned plan.old)) }
{
    if is_copy(effect) {
        return change_copy(view, instr, remat, plan);
    }
    if is_spill(effect) {
        return change_spill(view, instr, plan);
    }
    if is_reload(effect) {
        return change_reload(view, instr, plan);
    }
    if is_undefined(effect) {
        return change_undefined(view, instr, plan);
    }
    change_other(view, instr, remat, plan)
}

/// Changes the place of an instruction that is no copy, store or reload and gives its registers values.
fn change_other(
    view: SpillView<'_>,
    instr: &Instr,
    remat: &Remat,
    plan: &mut Plan,
) -> Result<(), AllocError>
    ensures { (facts : Facts) → Spillable view.entry facts (source_in remat.now) (goes_in remat.now)
        → (p j : ℕ) (b : Block) → slice_get view.entry.live.now.func.blocks p ≡ Some b → slice_get b.instrs j ≡ Some instr.now
        → does is_terminator view.entry.target.now instr.now ≡ false → (e : Effect) → effect_of view.entry.target.now instr.now ≡ Some e → is_placed e ≡ true
        → OnOk result (planned plan.new ≡ with_change (spilling_of view.entry view.entry.slot facts) (gap_before view.entry instr.now.id) (gap_behind b (slice_get b.instrs (j + 1))) (instr.now ∷ []) (change (spilling_of view.entry view.entry.slot facts) plan.old.next_id plan.old.next_range (instr.now ∷ [])) (planned plan.old)) }
{
    if remat.is_deleted(instr.id) {
        return plan.erase(instr.id);
    }
    change_instr(view, instr, remat, plan)
}

/// A copy becomes a reload, a store or both.
fn change_copy(
    view: SpillView<'_>,
    instr: &Instr,
    remat: &Remat,
    plan: &mut Plan,
) -> Result<(), AllocError>
    ensures { (facts : Facts) (d o : RegOp) (gap : Gap) (source : Option Instr) → instr.now.operands ≡ operands.Reg d ∷ operands.Reg o ∷ [] → names_own (spilling_of view.entry view.entry.slot facts) instr.now ≡ true
        → IsBehind view.entry instr.now.id gap → (is_own (spilling_of view.entry view.entry.slot facts) o ≡ true → IsCopied view.entry (source_in remat.now) instr.now.id source)
        → (is_own (spilling_of view.entry view.entry.slot facts) o ≡ true → repeated_for (spilling_of view.entry view.entry.slot facts) (copy_reading (spilling_of view.entry view.entry.slot facts) instr.now d o) ≡ source)
        → OnOk result (planned plan.new ≡ with_change (spilling_of view.entry view.entry.slot facts) (gap_before view.entry instr.now.id) gap (instr.now ∷ []) (copy_change (spilling_of view.entry view.entry.slot facts) plan.old.next_id plan.old.next_range instr.now d o) (planned plan.old)) }
{
    let operands = instr.operands.as_slice();
    let (Some(to), Some(from)) = (register_at(operands, 0), register_at(operands, 1)) else {
        return Ok(());
    };
    if view.is_own(&from) {
        if view.is_own(&to) {
            change_own_copy(view, instr, &to, &from, plan)
        } else {
            change_copy_from(view, instr, &to, &from, remat, plan)
        }
    } else {
        change_copy_to(view, instr, &to, &from, plan)
    }
}

/// A copy to the range from another register.
fn change_copy_to(
    view: SpillView<'_>,
    instr: &Instr,
    to: &RegOp,
    from: &RegOp,
    plan: &mut Plan,
) -> Result<(), AllocError>
    ensures { (facts : Facts) (gap : Gap) → names_own (spilling_of view.entry view.entry.slot facts) instr.now ≡ true → instr.now.operands ≡ operands.Reg to.now ∷ operands.Reg from.now ∷ []
        → OnOk result (planned plan.new ≡ with_change (spilling_of view.entry view.entry.slot facts) (gap_before view.entry instr.now.id) gap (instr.now ∷ []) (copied_in (spilling_of view.entry view.entry.slot facts) instr.now to.now from.now) (planned plan.old)) }
{
    let class = class_beside(view, from);
    let register = use_of(from.loc, from.index);
    plan.note_slot();
    let operands = slot_operands(view.alloc, register, view.own_part(to.index))?;
    plan.replace(instr.id, spill_op(view.target, class), operands)
}

/// A copy between lanes of the range.
fn change_own_copy(
    view: SpillView<'_>,
    instr: &Instr,
    to: &RegOp,
    from: &RegOp,
    plan: &mut Plan,
) -> Result<(), AllocError>
    ensures { (facts : Facts) (gap : Gap) → names_own (spilling_of view.entry view.entry.slot facts) instr.now ≡ true → IsBehind view.entry instr.now.id gap
        → OnOk result (planned plan.new ≡ with_change (spilling_of view.entry view.entry.slot facts) (gap_before view.entry instr.now.id) gap (instr.now ∷ []) (copied_within (spilling_of view.entry view.entry.slot facts) plan.old.next_id plan.old.next_range instr.now to.now from.now) (planned plan.old)) }
{
    if have_same_lanes(view, to.index, from.index) {
        return plan.erase(instr.id);
    }
    let source = view.own_part(from.index);
    let goal = view.own_part(to.index);
    let class = moving_class(view, to.index);
    through_tiny(view, instr, source, goal, class, plan)
}

/// A copy from the range to another register.
fn change_copy_from(
    view: SpillView<'_>,
    instr: &Instr,
    to: &RegOp,
    from: &RegOp,
    remat: &Remat,
    plan: &mut Plan,
) -> Result<(), AllocError>
    ensures { (facts : Facts) (gap : Gap) (source : Option Instr) → names_own (spilling_of view.entry view.entry.slot facts) instr.now ≡ true → instr.now.operands ≡ operands.Reg to.now ∷ operands.Reg from.now ∷ []
        → IsCopied view.entry (source_in remat.now) instr.now.id source
        → OnOk result (planned plan.new ≡ with_change (spilling_of view.entry view.entry.slot facts) (gap_before view.entry instr.now.id) gap (instr.now ∷ []) (copied_from (spilling_of view.entry view.entry.slot facts) source instr.now to.now from.now) (planned plan.old)) }
{
    let register = definition_of(to.loc, to.index);
    let key = UseKey {
        at: instr.id,
        indexed_class: None,
    };
    if let Some(source) = remat.source(key) {
        plan.put_repeated(view, source, view.gap_before(instr.id), register)?;
        return plan.erase(instr.id);
    }
    let class = class_beside(view, to);
    plan.note_slot();
    let operands = slot_operands(view.alloc, register, view.own_part(from.index))?;
    plan.replace(instr.id, reload_op(view.target, class), operands)
}

/// An instruction becomes a reload into a new range and a store of it. One of the slots is the range's.
fn through_tiny(
    view: SpillView<'_>,
    instr: &Instr,
    from: SlotPart,
    to: SlotPart,
    class: Option<ClassId>,
    plan: &mut Plan,
) -> Result<(), AllocError>
    ensures { (gap : Gap) → IsBehind view.entry instr.now.id gap
        → OnOk result (planned plan.new ≡ with_addition (moved_through view.entry.target.now plan.old.next_id plan.old.next_range instr.now.id gap class (operands.Stack from.slot ∷ lanes_named from.index ∷ []) (operands.Stack to.slot ∷ lanes_named to.index ∷ [])) (planned plan.old)) }
{
    let tiny = plan.tiny(class, plan.next_id())?;
    plan.note_slot();
    let loaded = slot_operands(view.alloc, whole_definition(tiny), from)?;
    plan.replace(instr.id, reload_op(view.target, class), loaded)?;
    let stored = slot_operands(view.alloc, whole_use(tiny), to)?;
    let gap = view.gap_behind(instr.id);
    plan.put(view, gap, spill_op(view.target, class), stored)
}

/// The index that an operand is, where it is one.
fn index_of(lanes: &Operand) -> Option<IndexId>
    ensures { (x : Option IndexId) → lanes.now ≡ lanes_named x → result ≡ x }
{
    match lanes {
        Operand::Index(index) => Some(*index),
        _ => None,
    }
}

/// The register side and the slot's lanes of a store or a reload.
fn slot_sides(sides: &[Operand]) -> Option<(RegOp, SlotPart)>
    ensures { (o : RegOp) (m : ℕ) (x : Option IndexId) → sides.now ≡ operands.Reg o ∷ operands.Stack m ∷ lanes_named x ∷ [] → result ≡ Some (o, record { slot = m; index = x }) }
{
    match sides {
        [Operand::Reg(register), Operand::Stack(slot), lanes, ..] => Some((
            *register,
            SlotPart {
                slot: *slot,
                index: index_of(lanes),
            },
        )),
        _ => None,
    }
}

/// Whether these lanes of a slot are those of the range's own slot that stand for the operand.
fn is_own_slot(view: SpillView<'_>, register: &RegOp, part: SlotPart) -> bool
    ensures { (facts : Facts) → is_range view.entry.v register.now.loc ≡ true → result ≡ is_own_part (spilling_of view.entry view.entry.slot facts) register.now (operands.Stack part.slot ∷ lanes_named part.index ∷ []) }
{
    part.slot == view.slot && name_own_lanes(view, register.index, part.index)
}

/// Whether a store or a reload of as many lanes as an index picks of the range names, in the range's
/// slot, just these lanes.
fn name_own_lanes(view: SpillView<'_>, own: Option<IndexId>, named: Option<IndexId>) -> bool
    ensures { (slot : ℕ) (facts : Facts) (widths : List ℕ) → length widths ≡ length (own_lanes (spilling_of view.entry slot facts) own) → result ≡ same_numbers (slot_lane_numbers view.entry.target.now widths (lanes_named named)) (own_lanes (spilling_of view.entry slot facts) own) }
{
    match named {
        Some(_) => have_same_lanes(view, named, own),
        None => match own {
            None => true,
            Some(index) => picks_first_lanes(view.target, index),
        },
    }
}

/// Whether an index picks the first lanes in order.
fn picks_first_lanes(target: &Target, index: IndexId) -> bool
    ensures { result ≡ same_numbers (numbers 0 (length (lanes_of target.now index))) (lanes_of target.now index) }
{
    let lanes = target.lanes_at(index);
    are_first_lanes(lanes, lanes.len())
}

/// A store of the range.
fn change_spill(view: SpillView<'_>, instr: &Instr, plan: &mut Plan) -> Result<(), AllocError>
    ensures { (facts : Facts) (gap : Gap) (o : RegOp) (m : ℕ) (x : Option IndexId) → instr.now.operands ≡ operands.Reg o ∷ operands.Stack m ∷ lanes_named x ∷ [] → is_own (spilling_of view.entry view.entry.slot facts) o ≡ true
        → IsBehind view.entry instr.now.id gap
        → OnOk result (planned plan.new ≡ with_change (spilling_of view.entry view.entry.slot facts) (gap_before view.entry instr.now.id) gap (instr.now ∷ []) (spill_change (spilling_of view.entry view.entry.slot facts) plan.old.next_id plan.old.next_range instr.now o (operands.Stack m ∷ lanes_named x ∷ [])) (planned plan.old)) }
{
    let Some((register, there)) = slot_sides(instr.operands.as_slice()) else {
        return Ok(());
    };
    if is_own_slot(view, &register, there) {
        return plan.erase(instr.id);
    }
    let class = moving_class(view, register.index);
    let own = view.own_part(register.index);
    through_tiny(view, instr, own, there, class, plan)
}

/// A reload of the range.
fn change_reload(view: SpillView<'_>, instr: &Instr, plan: &mut Plan) -> Result<(), AllocError>
    ensures { (facts : Facts) (gap : Gap) (o : RegOp) (m : ℕ) (x : Option IndexId) → instr.now.operands ≡ operands.Reg o ∷ operands.Stack m ∷ lanes_named x ∷ [] → is_own (spilling_of view.entry view.entry.slot facts) o ≡ true
        → IsBehind view.entry instr.now.id gap
        → OnOk result (planned plan.new ≡ with_change (spilling_of view.entry view.entry.slot facts) (gap_before view.entry instr.now.id) gap (instr.now ∷ []) (reload_change (spilling_of view.entry view.entry.slot facts) plan.old.next_id plan.old.next_range instr.now o (operands.Stack m ∷ lanes_named x ∷ [])) (planned plan.old)) }
{
    let Some((register, there)) = slot_sides(instr.operands.as_slice()) else {
        return Ok(());
    };
    if is_own_slot(view, &register, there) {
        return plan.erase(instr.id);
    }
    let class = moving_class(view, register.index);
    let own = view.own_part(register.index);
    through_tiny(view, instr, there, own, class, plan)
}

/// A definition without a value becomes a store of nothing, or goes.
fn change_undefined(view: SpillView<'_>, instr: &Instr, plan: &mut Plan) -> Result<(), AllocError>
    ensures { (facts : Facts) (gap : Gap) (o : RegOp) → instr.now.operands ≡ operands.Reg o ∷ [] → is_own (spilling_of view.entry view.entry.slot facts) o ≡ true
        → InOrder view.entry.live.now.table → is_live_behind (spilling_of view.entry view.entry.slot facts) instr.now o.index ≡ is_live_behind (own_setting view.entry) instr.now o.index
        → OnOk result (planned plan.new ≡ with_change (spilling_of view.entry view.entry.slot facts) (gap_before view.entry instr.now.id) gap (instr.now ∷ []) (undefined_change (spilling_of view.entry view.entry.slot facts) instr.now o) (planned plan.old)) }
{
    let Some(op) = register_at(instr.operands.as_slice(), 0) else {
        return Ok(());
    };
    if !view.is_live_behind(op.index, instr.id) {
        return plan.erase(instr.id);
    }
    let class = part_class(view.target, op.index, view.own_class());
    plan.note_slot();
    let own = view.own_part(op.index);
    let operands = slot_operands(view.alloc, undef_use(view.target, class), own)?;
    plan.replace(instr.id, spill_op(view.target, class), operands)
}
