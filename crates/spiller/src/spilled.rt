//! The call that spills a range.

ghost use Rattle.std.specs.Prelude.{◌≡◌, ◌<◌, ◌≤◌, ◌+◌, ℕ, true, false, cond, IfErr, List, [], Option, Some, IfOk, OnErr, OnOk, take, get_or, unwrap_or, length, map};
ghost use Rattle.target_base.specs.declared.types.ClassId.{ClassId as RangeClass};
ghost use Rattle.live_lanes.specs.declared.live.LiveFunc.{LiveFunc};
ghost use Rattle.live_edits.specs.LiveRuns.{IsExact};
ghost use Rattle.interference.specs.EditedMatrix.{StandsClear};
ghost use Rattle.interference.specs.Listed.{KeepsLists};
ghost use Rattle.spiller.specs.EditLaw.{tiny_classes};
ghost use Rattle.spiller.specs.Growing.{HasGrown, HasGrownSome, IsLeft, MayGrow, MaySpillNow};
ghost use Rattle.spiller.specs.SlotMaps.{slots_of};
ghost use Rattle.spiller.specs.Slots.{HasFreeSlot, Slots, with_slot};
ghost use Rattle.spiller.specs.Spilled.{IsSpilled, most_ranges, setting_of, spilled};
ghost use Rattle.spiller.specs.declared.stop.RunStop.TheVariants as stops;
ghost use Rattle.mir_func.specs.Binding.{does, is_terminator};
ghost use Rattle.live_lanes.specs.Touching.{AreTouched};
ghost use Rattle.mir_func.specs.declared.func.Block.{Block as LaidBlock};
ghost use Rattle.spiller.specs.Ends.{ends_of};
ghost use Rattle.spiller.specs.Marks.{IsMark, Mark, MayPlan, ended_behind, has_ended, with_mark};
ghost use Rattle.spiller.specs.MaySpill.{MaySpill};
ghost use Rattle.spiller.specs.Reaching.{AreFacts, Facts};
ghost use Rattle.spiller.specs.Views.{planned, spilling_of};
ghost use Rattle.spiller.specs.WholePlan.{whole_plan, with_place};

use crate::ends::ends_at;
use crate::places::change_single;
use crate::plan::{Plan, SpillView};
use crate::remat::{Remat, plan_remat};
use crate::seats::change_terminators;
use crate::slot_map::SlotMap;
use crate::stop::RunStop;
use interference::{Matrix, Tinies};
use mir_func::opcodes::is_terminator;
use std::alloc::{AllocError, Global};
use target_base::ClassId;

/// The most range numbers that are given for one function.
pub const MOST_RANGES: usize = 1_048_576;

/// Spills a range: each place that touches it gets ranges of its own, which are answered in order,
/// uses before definitions. Ranges comes exactly where these would make more range numbers than the
/// limit. After a refusal the range may have its slot all the same, and some of the new ranges may
/// be there, which no instruction names.
pub fn spill(alloc: Global, m: &mut Matrix, slots: &mut SlotMap, v: u32) -> Result<Tinies, RunStop>
    ensures ok { IfOk result (λ made. (facts : Facts) → MaySpillNow m.old.live (slots_of slots.old) v facts → IsSpilled m.old.live.target m.old.live.func (slots_of slots.old) v m.new.live.func (slots_of slots.new) (map (λ x. (x.range, x.at)) made)) }
    ensures exact { OnOk result ((facts : Facts) → MaySpillNow m.old.live (slots_of slots.old) v facts → IsExact m.old.live.target m.new.live.func m.new.live) }
    ensures err { OnErr result ((facts : Facts) → MaySpillNow m.old.live (slots_of slots.old) v facts → IsLeft m.old.live (slots_of slots.old) v (tiny_classes (setting_of m.old.live.target m.old.live.func (slots_of slots.old) v facts)) m.new.live (slots_of slots.new)) }
    ensures kept { OnOk result ((facts : Facts) → MaySpillNow m.old.live (slots_of slots.old) v facts → KeepsLists m.old → StandsClear m.new → KeepsLists m.new) }
    ensures refused { OnErr result ((facts : Facts) → MaySpillNow m.old.live (slots_of slots.old) v facts → KeepsLists m.old → KeepsLists m.new) }
    ensures few { OnOk result ((facts : Facts) → MaySpillNow m.old.live (slots_of slots.old) v facts → length (spilled (setting_of m.old.live.target m.old.live.func (slots_of slots.old) v facts)).classes ≤ most_ranges) }
    ensures ranges { IfErr result (λ e. e ≡ stops.Ranges → (facts : Facts) → MaySpillNow m.old.live (slots_of slots.old) v facts → most_ranges < length (spilled (setting_of m.old.live.target m.old.live.func (slots_of slots.old) v facts)).classes) }
{
    let touched = m.live().touched(alloc, v)?;
    let plan = plan_spill(alloc, m, slots.own_slot(v), v, touched.as_slice())?;
    if !has_room(m, &plan) {
        return Err(RunStop::Ranges);
    }
    Ok(do_plan(m, slots, v, plan)?)
}

/// The number of range numbers that are given.
fn range_count(m: &Matrix) -> usize
    ensures { result ≡ length m.now.live.func.classes }
{
    m.live().func().classes.len()
}

/// Whether there are range numbers left for the tinies that are planned.
fn has_room(m: &Matrix, plan: &Plan) -> bool
    ensures room { result ≡ true → length m.now.live.func.classes + length plan.now.classes.items ≤ 1048576 }
    ensures full { result ≡ false → 1048576 < length m.now.live.func.classes + length plan.now.classes.items }
{
    if range_count(m).saturating_add(plan.classes.len()) > MOST_RANGES {
        return false;
    }
    true
}

/// Does what is planned: the range gets its slot, where a store or a reload names it, and the tinies
/// their numbers, and then the edits are done.
fn do_plan(m: &mut Matrix, slots: &mut SlotMap, v: u32, plan: Plan) -> Result<Tinies, AllocError>
    ensures ok { IfOk result (λ made. (facts : Facts) → MaySpillNow m.old.live (slots_of slots.old) v facts → planned plan ≡ whole_plan (setting_of m.old.live.target m.old.live.func (slots_of slots.old) v facts) → length m.old.live.func.classes + length plan.classes.items ≤ 2147483648
        → IsSpilled m.old.live.target m.old.live.func (slots_of slots.old) v m.new.live.func (slots_of slots.new) (map (λ x. (x.range, x.at)) made)) }
    ensures exact { OnOk result ((facts : Facts) → MaySpillNow m.old.live (slots_of slots.old) v facts → planned plan ≡ whole_plan (setting_of m.old.live.target m.old.live.func (slots_of slots.old) v facts) → length m.old.live.func.classes + length plan.classes.items ≤ 2147483648
        → IsExact m.old.live.target m.new.live.func m.new.live) }
    ensures err { OnErr result ((facts : Facts) → MaySpillNow m.old.live (slots_of slots.old) v facts → planned plan ≡ whole_plan (setting_of m.old.live.target m.old.live.func (slots_of slots.old) v facts) → length m.old.live.func.classes + length plan.classes.items ≤ 2147483648
        → IsLeft m.old.live (slots_of slots.old) v (tiny_classes (setting_of m.old.live.target m.old.live.func (slots_of slots.old) v facts)) m.new.live (slots_of slots.new)) }
    ensures kept { OnOk result ((facts : Facts) → MaySpillNow m.old.live (slots_of slots.old) v facts → planned plan ≡ whole_plan (setting_of m.old.live.target m.old.live.func (slots_of slots.old) v facts) → length m.old.live.func.classes + length plan.classes.items ≤ 2147483648
        → KeepsLists m.old → StandsClear m.new → KeepsLists m.new) }
    ensures refused { OnErr result ((facts : Facts) → MaySpillNow m.old.live (slots_of slots.old) v facts → planned plan ≡ whole_plan (setting_of m.old.live.target m.old.live.func (slots_of slots.old) v facts) → length m.old.live.func.classes + length plan.classes.items ≤ 2147483648
        → KeepsLists m.old → KeepsLists m.new) }
{
    let Plan {
        edits,
        tinies,
        classes,
        uses_slot,
        ..
    } = plan;
    keep_slot(m, slots, v, uses_slot)?;
    make_ranges(m, slots, classes.as_slice())?;
    m.edit_all(edits, Some(v))?;
    Ok(tinies)
}

/// Gives the range its slot, if it is used.
fn keep_slot(m: &Matrix, slots: &mut SlotMap, v: u32, uses_slot: bool) -> Result<(), AllocError>
    ensures ok { OnOk result (HasFreeSlot (slots_of slots.old) → slots_of slots.new ≡ cond uses_slot (with_slot (slots_of slots.old) v) (slots_of slots.old)) }
    ensures err { OnErr result (slots_of slots.new ≡ slots_of slots.old) }
{
    if uses_slot {
        let _ = slots.give(m.live().func(), v)?;
    }
    Ok(())
}

/// Makes ranges of these classes, each its own original. Every tiny of a function that is sound has a
/// class; class 0 stands for one that is missing.
fn make_ranges(
    m: &mut Matrix,
    slots: &mut SlotMap,
    classes: &[Option<ClassId>],
) -> Result<(), AllocError>
    ensures ok { OnOk result (MayGrow m.old.live (slots_of slots.old) classes.now → HasGrown m.old.live (slots_of slots.old) classes.now m.new.live (slots_of slots.new)) }
    ensures err { OnErr result (MayGrow m.old.live (slots_of slots.old) classes.now → HasGrownSome m.old.live (slots_of slots.old) classes.now m.new.live (slots_of slots.new)) }
    ensures lists { MayGrow m.old.live (slots_of slots.old) classes.now → KeepsLists m.old → KeepsLists m.new }
{
    'classes: for class in classes {
        make_range(m, slots, class.unwrap_or(ClassId(0)))?;
    }
    Ok(())
}

/// Makes one more range.
fn make_range(m: &mut Matrix, slots: &mut SlotMap, class: ClassId) -> Result<(), AllocError>
    ensures ok { OnOk result ((old : LiveFunc) (before : Slots) (cs : List (Option RangeClass)) (k : ℕ) (d : Option RangeClass) (other : RangeClass) → MayGrow old before cs → k < length cs → class ≡ unwrap_or (get_or cs k d) other → HasGrown old before (take k cs) m.old.live (slots_of slots.old)
        → HasGrown old before (take (k + 1) cs) m.new.live (slots_of slots.new)) }
    ensures err { OnErr result ((old : LiveFunc) (before : Slots) (cs : List (Option RangeClass)) (k : ℕ) (d : Option RangeClass) (other : RangeClass) → MayGrow old before cs → k < length cs → class ≡ unwrap_or (get_or cs k d) other → HasGrown old before (take k cs) m.old.live (slots_of slots.old)
        → HasGrownSome old before cs m.new.live (slots_of slots.new)) }
    ensures lists { (old : LiveFunc) (before : Slots) (cs : List (Option RangeClass)) (k : ℕ) → MayGrow old before cs → k < length cs → HasGrown old before (take k cs) m.old.live (slots_of slots.old) → KeepsLists m.old → KeepsLists m.new }
{
    let range = m.fresh(class)?;
    slots.add_original(range)?;
    Ok(())
}

/// The edits that spill a range to a slot.
fn plan_spill(
    alloc: Global,
    m: &Matrix,
    slot: u32,
    v: u32,
    touched: &[u32],
) -> Result<Plan, AllocError>
    ensures { IfOk result (λ p. (facts : Facts) → MaySpill m.now.live.target m.now.live.func m.now.live.table v → length m.now.live.func.classes < 4294967296 → AreFacts m.now.live.target m.now.live.func v facts → AreTouched m.now.live.table v touched.now
        → planned p ≡ whole_plan (record { target = m.now.live.target; func = m.now.live.func; range = v; slot = slot; facts = facts })) }
{
    let live = m.live();
    let view = SpillView {
        alloc,
        target: live.target(),
        live,
        v,
        slot,
    };
    plan_edits(view, touched)
}

/// The edits at the places of these instructions, which are those that touch the range.
fn plan_edits(view: SpillView<'_>, touched: &[u32]) -> Result<Plan, AllocError>
    ensures { IfOk result (λ p. (facts : Facts) → MaySpill view.entry.target.now view.entry.live.now.func view.entry.live.now.table view.entry.v → length view.entry.live.now.func.classes < 4294967296 → AreFacts view.entry.target.now view.entry.live.now.func view.entry.v facts
        → AreTouched view.entry.live.now.table view.entry.v touched.now → planned p ≡ whole_plan (spilling_of view.entry view.entry.slot facts)) }
{
    let remat = plan_remat(view, touched)?;
    // (a place is changed in three steps at most: a reload, the instruction, a store)
    let mut plan = Plan::new(view, touched.len().saturating_mul(3))?;
    let mut ended = None;
    'touched: for id in touched {
        ended = change_touched(view, *id, ended, &remat, &mut plan)?;
    }
    Ok(plan)
}

/// Changes the place of an instruction, unless it is that of terminators that are changed already, as
/// those of the block of this number are. Answers the number of the block whose terminators were
/// changed last.
fn change_touched(
    view: SpillView<'_>,
    id: u32,
    ended: Option<u32>,
    remat: &Remat,
    plan: &mut Plan,
) -> Result<Option<u32>, AllocError>
    ensures ended { IfOk result (λ then. (facts : Facts) (m : Mark) → MayPlan view.entry remat.now facts → IsMark view.entry.live.now.func view.entry.v m → m.instr.id ≡ id → then ≡ ended_behind view.entry.target.now ended m) }
    ensures plan { OnOk result ((facts : Facts) (m : Mark) → MayPlan view.entry remat.now facts → IsMark view.entry.live.now.func view.entry.v m → m.instr.id ≡ id → planned plan.new ≡ with_mark (spilling_of view.entry view.entry.slot facts) ended m (planned plan.old)) }
{
    match view.live.instr(id) {
        Some(instr) => {
            if is_terminator(view.target, instr) {
                end_block(view, id, ended, remat, plan)
            } else {
                change_single(view, instr, remat, plan)?;
                Ok(ended)
            }
        }
        None => Ok(ended),
    }
}

/// Whether the terminators of the block of that number are changed.
fn has_ended(ended: Option<u32>, number: u32) -> bool
    ensures { (b : LaidBlock) → number ≡ b.number → result ≡ has_ended ended b }
{
    match ended {
        Some(n) => n == number,
        None => false,
    }
}

/// The same of a terminator.
fn end_block(
    view: SpillView<'_>,
    id: u32,
    ended: Option<u32>,
    remat: &Remat,
    plan: &mut Plan,
) -> Result<Option<u32>, AllocError>
    ensures ended { IfOk result (λ then. (facts : Facts) (m : Mark) → MayPlan view.entry remat.now facts → IsMark view.entry.live.now.func view.entry.v m → m.instr.id ≡ id → then ≡ Some m.block.number) }
    ensures plan { OnOk result ((facts : Facts) (m : Mark) → MayPlan view.entry remat.now facts → IsMark view.entry.live.now.func view.entry.v m → m.instr.id ≡ id → does is_terminator view.entry.target.now m.instr ≡ true
        → planned plan.new ≡ cond (has_ended ended m.block) (planned plan.old) (with_place (spilling_of view.entry view.entry.slot facts) m.block (ends_of view.entry.target.now m.block.instrs) [] (planned plan.old))) }
{
    let number = view.block_number(id);
    if !has_ended(ended, number) {
        change_ends(view, id, remat, plan)?;
    }
    Ok(Some(number))
}

/// Changes the place of the terminators of the block of an instruction.
fn change_ends(
    view: SpillView<'_>,
    id: u32,
    remat: &Remat,
    plan: &mut Plan,
) -> Result<(), AllocError>
    ensures { (facts : Facts) (m : Mark) → MayPlan view.entry remat.now facts → IsMark view.entry.live.now.func view.entry.v m → m.instr.id ≡ id → does is_terminator view.entry.target.now m.instr ≡ true
        → OnOk result (planned plan.new ≡ with_place (spilling_of view.entry view.entry.slot facts) m.block (ends_of view.entry.target.now m.block.instrs) [] (planned plan.old)) }
{
    change_terminators(view, ends_at(view, id), remat, plan)
}
