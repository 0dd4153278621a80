//! The edits by which a range is split, in layout order.

ghost use Rattle.std.specs.Prelude.{◌≡◌, ◌<◌, ◌++◌, ◌∷◌, [], List, ℕ, Bool, true, false, map, flat_map, filter, length, take, drop, nat_le, position, slice_get, Some, IfOk, OnOk};
ghost use Rattle.std.specs.Ordering.{nat_cmp};
ghost use Rattle.std.specs.BTreeMap.{get};
ghost use Rattle.slot_index.specs.Order.{number_of};
ghost use Rattle.mir_func.specs.declared.func.Block.{Block as LaidBlock};
ghost use Rattle.mir_func.specs.declared.func.Instr.{Instr as LaidInstr};
ghost use Rattle.mir_meaning.specs.Points.{Point, is_range, touches};
ghost use Rattle.mir_meaning.specs.Renaming.{renamed_operand};
ghost use Rattle.live_lanes.specs.Looks.{InOrder};
ghost use Rattle.live_lanes.specs.Ordered.{ids_of};
ghost use Rattle.live_lanes.specs.Touching.{FindsInstrs};
ghost use Rattle.live_edits.specs.Runs.{edits_of};
ghost use Rattle.live_lanes.specs.declared.ask.labels.Mark.{Mark as LabelMark};
ghost use Rattle.split_kit.specs.Split.{part, whole};
ghost use Rattle.split_kit.specs.PartEdits.{AreWithin, IsWithin, ShowsParts, as_range, block_edits, border_label, copy_edits, first_label, gap_edits, gap_live, marks_in, operand_edits, part_edits, stand_before};

use live_edits::Edit;
use live_lanes::{LiveFunc, Mark, Spot};
use mir_func::{Gap, Instr, Loc, Op, Operand, Operands, RegOp};
use phi_elim::moves::{COPY, whole_definition, whole_use};
use slot_index::Slots;
use std::alloc::{AllocError, Global};
use target_base::Copied;

/// What is split: the function with what is live in it, and the range.
#[derive(Clone, Copy)]
pub(crate) struct SplitView<'a> {
    pub alloc: Global,
    pub live: &'a LiveFunc,
    pub v: u32,
}

/// The part of a label.
fn part_of(view: SplitView<'_>, label: u16) -> u32
    ensures { length view.entry.live.now.func.classes < 2147483648 → result ≡ part view.entry.live.now.func label }
{
    let count = view.live.func().classes.len() as u64;
    let number = count.saturating_add(label as u64);
    u32::try_from(number).unwrap_or(u32::MAX)
}

/// Whether a location is a range.
fn is_range(v: u32, loc: Loc) -> bool
    ensures { result ≡ is_range v loc }
{
    match loc {
        Loc::Virtual(w) => v == w,
        Loc::Fixed(_) => false,
    }
}

/// A register operand with another register in a range's place.
fn part_register(v: u32, part: u32, op: RegOp) -> RegOp
    ensures { result ≡ as_range v part op }
{
    if is_range(v, op.loc) {
        RegOp {
            loc: Loc::Virtual(part),
            ..op
        }
    } else {
        op
    }
}

/// An operand with another register in a range's place.
fn part_operand(alloc: Global, v: u32, part: u32, operand: &Operand) -> Result<Operand, AllocError>
    ensures { IfOk result (λ made. made ≡ renamed_operand (as_range v part) operand.now) }
{
    match operand {
        Operand::Reg(op) => Ok(Operand::Reg(part_register(v, part, *op))),
        _ => operand.copied(alloc),
    }
}

/// Operands with another register in a range's place.
fn part_operands(
    alloc: Global,
    v: u32,
    part: u32,
    operands: &[Operand],
) -> Result<Operands, AllocError>
    ensures { IfOk result (λ made. made ≡ map (renamed_operand (as_range v part)) operands.now) }
{
    let mut made = Operands::new(alloc);
    'operands: for operand in operands {
        made.push(part_operand(alloc, v, part, operand)?)?;
    }
    Ok(made)
}

/// Puts a part into the operands of an instruction, in the range's place.
fn add_part(
    view: SplitView<'_>,
    instr: &Instr,
    part: u32,
    edits: &mut Vec<Edit>,
) -> Result<(), AllocError>
    ensures { OnOk result (edits_of edits.new.items ≡ edits_of edits.old.items ++ operand_edits instr.now.id instr.now.op (map (renamed_operand (as_range view.entry.v part)) instr.now.operands)) }
{
    let Op::Known(op) = &instr.op else {
        return Ok(());
    };
    let operands = part_operands(view.alloc, view.v, part, instr.operands.as_slice())?;
    edits.push(Edit::Replace(instr.id, *op, operands))?;
    Ok(())
}

/// Puts the part of a label into the operands of the instruction of an id.
fn add_part_at(
    view: SplitView<'_>,
    id: u32,
    label: u16,
    edits: &mut Vec<Edit>,
) -> Result<(), AllocError>
    ensures { OnOk result ((i : LaidInstr) → FindsInstrs view.entry.live.now.table view.entry.live.now.func.blocks → IsWithin view.entry.live.now.func.blocks i → i.id ≡ id → length view.entry.live.now.func.classes < 2147483648
        → edits_of edits.new.items ≡ edits_of edits.old.items ++ part_edits view.entry.live.now.func view.entry.v label i) }
{
    match view.live.instr(id) {
        Some(instr) => add_part(view, instr, part_of(view, label), edits),
        None => Ok(()),
    }
}

/// Puts the part of a label into the operands of instructions.
fn add_parts(
    view: SplitView<'_>,
    ids: &[u32],
    label: u16,
    edits: &mut Vec<Edit>,
) -> Result<(), AllocError>
    ensures { OnOk result ((own : List LaidInstr) → FindsInstrs view.entry.live.now.table view.entry.live.now.func.blocks → AreWithin view.entry.live.now.func.blocks own → ids.now ≡ ids_of own → length view.entry.live.now.func.classes < 2147483648
        → edits_of edits.new.items ≡ edits_of edits.old.items ++ flat_map (part_edits view.entry.live.now.func view.entry.v label) own) }
{
    'ids: for id in ids {
        add_part_at(view, *id, label, edits)?;
    }
    Ok(())
}

/// Whether some lane of the range is live at a gap of the block at a position.
fn is_live_at(view: SplitView<'_>, position: u32, before: Option<u32>) -> bool
    ensures { InOrder view.entry.live.now.table → result ≡ gap_live view.entry.live.now.table view.entry.live.now.func.blocks view.entry.v position before }
{
    match before {
        Some(id) => view.live.is_live_before(view.v, id),
        None => view.live.is_live_out_of(view.v, position),
    }
}

/// The operands of a copy of a whole range.
fn copy_operands(alloc: Global, to: u32, from: u32) -> Result<Operands, AllocError>
    ensures { IfOk result (λ made. made ≡ whole true to ∷ whole false from ∷ []) }
{
    let mut operands = Operands::new(alloc);
    operands.push(Operand::Reg(whole_definition(to)))?;
    operands.push(Operand::Reg(whole_use(from)))?;
    Ok(operands)
}

/// Puts a copy from the part of one label to that of another into a gap, where some lane is live.
fn add_copy(
    view: SplitView<'_>,
    position: u32,
    gap: Gap,
    from: u16,
    to: u16,
    edits: &mut Vec<Edit>,
) -> Result<(), AllocError>
    ensures { OnOk result (InOrder view.entry.live.now.table → length view.entry.live.now.func.classes < 2147483648
        → edits_of edits.new.items ≡ edits_of edits.old.items ++ copy_edits view.entry.live.now.func gap (gap_live view.entry.live.now.table view.entry.live.now.func.blocks view.entry.v position gap.before) from to) }
{
    if from == to {
        return Ok(());
    }
    if !is_live_at(view, position, gap.before) {
        return Ok(());
    }
    let operands = copy_operands(view.alloc, part_of(view, to), part_of(view, from))?;
    edits.push(Edit::Put(gap, COPY, operands))?;
    Ok(())
}

/// Whether an instruction stands at or behind another one of its block.
fn is_behind(slots: &Slots, id: u32, other: u32) -> bool
    ensures { result ≡ nat_le (number_of slots.now other) (number_of slots.now id) }
{
    slots.number(other) <= slots.number(id)
}

/// The place of the first instruction that stands at or behind another one of their block.
fn first_behind(slots: &Slots, ids: &[u32], next: u32) -> Option<usize>
    ensures { result ≡ position (λ id. nat_le (number_of slots.now next) (number_of slots.now id)) ids.now }
{
    ids.iter().position(|id| is_behind(slots, *id, next))
}

/// How many of the first instructions stand before another one of their block.
fn before_instr(slots: &Slots, ids: &[u32], next: u32) -> usize
    ensures { result ≡ stand_before slots.now (Some next) ids.now }
{
    match first_behind(slots, ids, next) {
        Some(place) => place,
        None => ids.len(),
    }
}

/// How many of the first instructions stand before a gap of their block.
fn before_gap(slots: &Slots, ids: &[u32], before: Option<u32>) -> usize
    ensures { result ≡ stand_before slots.now before ids.now }
{
    match before {
        Some(next) => before_instr(slots, ids, next),
        None => ids.len(),
    }
}

/// The first of some items, up to a number of them, and those behind.
pub(crate) fn split_slice<T>(items: &[T], count: usize) -> (&[T], &[T])
    ensures first { result.0.now ≡ take count items.now }
    ensures rest { result.1.now ≡ drop count items.now }
{
    items.split_at(count.min(items.len()))
}

/// The label at the start of a block with these marks.
fn label_at_start(marks: &[Mark]) -> u16
    ensures { result ≡ first_label marks.now }
{
    match marks.first() {
        Some(mark) => border_label(mark),
        None => 0,
    }
}

/// The label of a mark at the start of a block.
fn border_label(mark: &Mark) -> u16
    ensures { result ≡ border_label mark.now.spot mark.now.label }
{
    match mark.spot {
        Spot::Border => mark.label,
        Spot::Gap(_) => 0,
    }
}

/// Passes a gap at which a label begins: gives the part of the label that held to the instructions
/// before it, and puts a copy into it. Answers the instructions behind it.
fn pass_gap<'a>(
    view: SplitView<'_>,
    position: u32,
    gap: Gap,
    labels: (u16, u16),
    ids: &'a [u32],
    edits: &mut Vec<Edit>,
) -> Result<&'a [u32], AllocError>
    ensures rest { IfOk result (λ rest. rest.now ≡ drop (stand_before view.entry.live.now.table.order.slots gap.before ids.now) ids.now) }
    ensures edits { let live = view.entry.live.now in let count = stand_before live.table.order.slots gap.before ids.now in
        OnOk result ((own : List LaidInstr) → FindsInstrs live.table live.func.blocks → InOrder live.table → AreWithin live.func.blocks own → ids.now ≡ ids_of own → length live.func.classes < 2147483648
        → edits_of edits.new.items ≡ edits_of edits.old.items ++ (flat_map (part_edits live.func view.entry.v labels.0) (take count own)
        ++ copy_edits live.func gap (gap_live live.table live.func.blocks view.entry.v position gap.before) labels.0 labels.1)) }
{
    let count = before_gap(view.live.slots(), ids, gap.before);
    let (before, behind) = split_slice(ids, count);
    add_parts(view, before, labels.0, edits)?;
    add_copy(view, position, gap, labels.0, labels.1, edits)?;
    Ok(behind)
}

/// Splits the range in a block from its first gap on, where this label holds.
fn add_gaps(
    view: SplitView<'_>,
    position: u32,
    label: u16,
    ids: &[u32],
    marks: &[Mark],
    edits: &mut Vec<Edit>,
) -> Result<(), AllocError>
    ensures { let live = view.entry.live.now in
        OnOk result ((own : List LaidInstr) → FindsInstrs live.table live.func.blocks → InOrder live.table → AreWithin live.func.blocks own → ids.now ≡ ids_of own → length live.func.classes < 2147483648
        → edits_of edits.new.items ≡ edits_of edits.old.items ++ gap_edits live.func view.entry.v live.table.order.slots (gap_live live.table live.func.blocks view.entry.v position) label own marks.now) }
{
    let mut held = label;
    let mut left = ids;
    'marks: for mark in marks {
        if let Spot::Gap(gap) = mark.spot {
            left = pass_gap(view, position, gap, (held, mark.label), left, edits)?;
            held = mark.label;
        }
    }
    add_parts(view, left, held, edits)
}

/// Splits the range in the block at a position: these are the ids of its instructions that touch the
/// range, and its marks.
pub(crate) fn add_block(
    view: SplitView<'_>,
    position: u32,
    ids: &[u32],
    marks: &[Mark],
    edits: &mut Vec<Edit>,
) -> Result<(), AllocError>
    ensures { let live = view.entry.live.now in
        OnOk result ((test : Point → Bool) (all : List LabelMark) (b : LaidBlock) → ShowsParts live.table live.func view.entry.v all test → slice_get live.func.blocks position ≡ Some b
        → ids.now ≡ ids_of (filter (touches view.entry.v) b.instrs) → marks.now ≡ marks_in all b.number
        → edits_of edits.new.items ≡ edits_of edits.old.items ++ block_edits test live.func view.entry.v all b) }
{
    add_gaps(view, position, label_at_start(marks), ids, marks, edits)
}
