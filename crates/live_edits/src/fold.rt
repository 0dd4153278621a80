//! Joins of two ranges: a range, or its lanes of an index, stands for another one in all operands.

ghost use Rattle.std.specs.Prelude.{◌≡◌, List, Some, IfOk, OnOk, OnErr, map, position, slice_get, slice_set};
ghost use Rattle.target_base.specs.Registers.{lanes_of};
ghost use Rattle.meaning.specs.Lanes.{same_lane};
ghost use Rattle.mir_meaning.specs.Registers.{operand_lanes};
ghost use Rattle.mir_meaning.specs.Points.{is_range};
ghost use Rattle.mir_meaning.specs.Renaming.{renamed_operand};
ghost use Rattle.live_edits.specs.Drafts.{IsOrderOf};
ghost use Rattle.live_edits.specs.EditedRuns.{HasTable};
ghost use Rattle.live_edits.specs.Folded.{lane_within, image, is_number, are_picked, composed, index_within, joined_operand, same_lanes, two_sides, copy_sides, unites, becomes_identity, is_narrower, joined_class, folded, fold_edit, edit_at, fold_edits, NamedLaw, FoldLaw, FoldPlacesLaw, NarrowLaw, MayFold, Narrows};
ghost use Rattle.live_edits.specs.Runs.{edit_of, edits_of};

use crate::edit::Edit;
use crate::edit_run::EditRun;
use instr_effects::items::lanes::{LaneList, push_operand_lanes};
use meaning::Lane;
use mir_func::opcodes::is_copy;
use mir_func::operands::{class_of, register_at};
use mir_func::{Classes, Func, Instr, Loc, Op, Operand, Operands, RegOp};
use std::alloc::{AllocError, Global};
use target_base::classes::{are_within, regs_at};
use target_base::{ClassId, Copied, IndexDesc, IndexId, List, Target};

/// A join of two ranges.
#[derive(Clone, Copy, Debug, PartialEq, Eq)]
pub struct Join {
    /// The range that stays.
    pub keep: u32,
    /// The range that it stands for from now on.
    pub gone: u32,
    /// The index of the lanes that stand for it; none where all do.
    pub index: Option<IndexId>,
}

impl Copied for Join {
    fn copied(&self, _alloc: Global) -> Result<Join, AllocError> {
        Ok(*self)
    }
}

/// The instructions that touch a range are those that name it where none names it in `undef` uses alone.
pub fn named_law()
    ensures { NamedLaw }
{}

/// Where the instructions that name the range that goes are edited, the join is done.
pub fn fold_law()
    ensures { FoldLaw }
{}

/// In a function without phis these edits have their places, and none changes what is erased.
pub fn fold_places_law()
    ensures { FoldPlacesLaw }
{}

/// A computed table stays so where a range gets another class with the same lanes.
pub fn narrow_law()
    ensures { NarrowLaw }
{}

/// The lane of a register that the lane of a number is among those of an index.
fn lane_within(target: &Target, index: Option<IndexId>, lane: u32) -> u32
    ensures { result ≡ lane_within target.now index lane }
{
    match index {
        None => lane,
        Some(index) => match target.lanes_at(index).get(lane as usize) {
            Some(own) => *own as u32,
            None => 0,
        },
    }
}

/// Where a join sends a lane.
fn image(target: &Target, join: Join, lane: Lane) -> Lane
    ensures { result ≡ image target.now join lane }
{
    match lane {
        Lane::VirtualLane(v, k) => {
            if v == join.gone {
                Lane::VirtualLane(join.keep, lane_within(target, join.index, k))
            } else {
                lane
            }
        }
        _ => lane,
    }
}

/// Where a join sends lanes.
fn images(
    alloc: Global,
    target: &Target,
    join: Join,
    lanes: &[Lane],
) -> Result<LaneList, AllocError>
    ensures { IfOk result (λ made. made ≡ map (image target.now join) lanes.now) }
{
    let mut made = List::new(alloc);
    'lanes: for lane in lanes {
        made.push(image(target, join, *lane))?;
    }
    Ok(made)
}

/// Whether two lanes are one.
fn is_same_lane(a: Lane, b: Lane) -> bool
    ensures { result ≡ same_lane a b }
{
    a == b
}

/// Whether two lists have the same lanes.
fn are_same_lanes(a: &[Lane], b: &[Lane]) -> bool
    ensures { result ≡ same_lanes a.now b.now }
{
    if a.len() != b.len() {
        return false;
    }
    'lanes: for k in 0..a.len() {
        if !is_same_lane(a[k], b[k]) {
            return false;
        }
    }
    true
}

/// Whether a lane of these is this one.
fn is_lane_at(outer: &[u8], place: u8, lane: u8) -> bool
    ensures { result ≡ is_number (slice_get outer.now place) lane }
{
    match outer.get(place as usize) {
        None => false,
        Some(own) => *own == lane,
    }
}

/// Whether lanes are those that `inner` picks of `outer`'s.
fn are_picked(outer: &[u8], inner: &[u8], lanes: &[u8]) -> bool
    ensures { result ≡ are_picked outer.now inner.now lanes.now }
{
    if inner.len() != lanes.len() {
        return false;
    }
    'lanes: for k in 0..inner.len() {
        if !is_lane_at(outer, inner[k], lanes[k]) {
            return false;
        }
    }
    true
}

/// The place of the first index whose lanes are those that `inner` picks of `outer`'s.
fn picked_place(indexes: &[IndexDesc], outer: &[u8], inner: &[u8]) -> Option<usize>
    ensures { result ≡ position (λ d. are_picked outer.now inner.now d.lanes) indexes.now }
{
    indexes
        .iter()
        .position(|d| are_picked(outer, inner, d.lanes.as_slice()))
}

/// The first index whose lanes are those that `inner` picks of `outer`'s. None where no index has
/// them.
pub fn compose_indexes(target: &Target, outer: IndexId, inner: IndexId) -> Option<IndexId>
    ensures { result ≡ composed target.now outer inner }
{
    match picked_place(
        target.indexes.as_slice(),
        target.lanes_at(outer),
        target.lanes_at(inner),
    ) {
        Some(place) => Some(IndexId(place as u16)),
        None => None,
    }
}

/// The index of the range that stays that stands for one of the range that goes.
fn index_within(target: &Target, outer: Option<IndexId>, inner: Option<IndexId>) -> Option<IndexId>
    ensures { result ≡ index_within target.now outer inner }
{
    match outer {
        None => inner,
        Some(x) => match inner {
            None => outer,
            Some(y) => compose_indexes(target, x, y),
        },
    }
}

/// Whether a location is a range.
pub(crate) fn is_range(v: u32, loc: Loc) -> bool
    ensures { result ≡ is_range v loc }
{
    match loc {
        Loc::Virtual(w) => v == w,
        Loc::Fixed(_) => false,
    }
}

/// A register operand after a join.
fn join_register(target: &Target, join: Join, op: RegOp) -> RegOp
    ensures { result ≡ joined_operand target.now join op }
{
    if is_range(join.gone, op.loc) {
        RegOp {
            loc: Loc::Virtual(join.keep),
            index: index_within(target, join.index, op.index),
            ..op
        }
    } else {
        op
    }
}

/// An operand after a join.
fn join_operand(
    alloc: Global,
    target: &Target,
    join: Join,
    operand: &Operand,
) -> Result<Operand, AllocError>
    ensures { IfOk result (λ made. made ≡ renamed_operand (joined_operand target.now join) operand.now) }
{
    match operand {
        Operand::Reg(op) => Ok(Operand::Reg(join_register(target, join, *op))),
        _ => operand.copied(alloc),
    }
}

/// Operands after a join.
fn join_operands(
    alloc: Global,
    target: &Target,
    join: Join,
    operands: &[Operand],
) -> Result<Operands, AllocError>
    ensures { IfOk result (λ made. made ≡ map (renamed_operand (joined_operand target.now join)) operands.now) }
{
    let mut made = Operands::new(alloc);
    'operands: for operand in operands {
        made.push(join_operand(alloc, target, join, operand)?)?;
    }
    Ok(made)
}

/// The lanes of a register operand.
fn lanes_of_operand(
    alloc: Global,
    target: &Target,
    func: &Func,
    op: &RegOp,
) -> Result<LaneList, AllocError>
    ensures { IfOk result (λ made. made ≡ operand_lanes target.now func.now op.now) }
{
    let mut lanes = List::new(alloc);
    push_operand_lanes(&mut lanes, target, func, op)?;
    Ok(lanes)
}

/// Both operands, where they are two registers.
fn two_sides(operands: &[Operand]) -> Option<(RegOp, RegOp)>
    ensures { result ≡ two_sides operands.now }
{
    if operands.len() != 2 {
        return None;
    }
    match register_at(operands, 0) {
        None => None,
        Some(to) => match register_at(operands, 1) {
            None => None,
            Some(from) => Some((to, from)),
        },
    }
}

/// The two operands of a copy, first the one that is written.
pub fn copy_sides(target: &Target, instr: &Instr) -> Option<(RegOp, RegOp)>
    ensures { result ≡ copy_sides target.now instr.now }
{
    if is_copy(target, instr) {
        two_sides(instr.operands.as_slice())
    } else {
        None
    }
}

/// Whether a join sends the lanes of both operands to the same lanes, which weren't the same.
fn unites(
    alloc: Global,
    target: &Target,
    func: &Func,
    join: Join,
    sides: &(RegOp, RegOp),
) -> Result<bool, AllocError>
    ensures { IfOk result (λ u. u ≡ unites target.now func.now (image target.now join) (Some sides.now)) }
{
    let to = lanes_of_operand(alloc, target, func, &sides.0)?;
    let from = lanes_of_operand(alloc, target, func, &sides.1)?;
    if are_same_lanes(to.as_slice(), from.as_slice()) {
        return Ok(false);
    }
    let to_image = images(alloc, target, join, to.as_slice())?;
    let from_image = images(alloc, target, join, from.as_slice())?;
    Ok(are_same_lanes(to_image.as_slice(), from_image.as_slice()))
}

/// Whether an instruction is a copy that becomes an identity by a join.
fn becomes_identity(
    alloc: Global,
    target: &Target,
    func: &Func,
    join: Join,
    instr: &Instr,
) -> Result<bool, AllocError>
    ensures { IfOk result (λ u. u ≡ becomes_identity target.now func.now join instr.now) }
{
    match copy_sides(target, instr) {
        Some(sides) => unites(alloc, target, func, join, &sides),
        None => Ok(false),
    }
}

/// What a join makes of an instruction.
fn fold_edit(
    alloc: Global,
    target: &Target,
    func: &Func,
    join: Join,
    instr: &Instr,
) -> Result<Edit, AllocError>
    ensures { IfOk result (λ e. edit_of e ≡ fold_edit target.now func.now join instr.now) }
{
    if becomes_identity(alloc, target, func, join, instr)? {
        return Ok(Edit::Erase(instr.id));
    }
    match &instr.op {
        Op::Known(op) => {
            let operands = join_operands(alloc, target, join, instr.operands.as_slice())?;
            Ok(Edit::Replace(instr.id, *op, operands))
        }
        Op::Excluded(_) => Ok(Edit::Erase(instr.id)),
    }
}

/// Whether the registers of a range are all registers of another.
fn is_narrower(target: &Target, func: &Func, v: u32, w: u32) -> bool
    ensures { result ≡ is_narrower target.now func.now v w }
{
    let classes = target.classes.as_slice();
    are_within(
        regs_at(classes, class_of(func, v)),
        regs_at(classes, class_of(func, w)),
    )
}

/// The class of the range that stays.
fn joined_class(target: &Target, func: &Func, join: Join) -> Option<ClassId>
    ensures { result ≡ joined_class target.now func.now join join.index }
{
    if class_of(func, join.gone) == class_of(func, join.keep) {
        return class_of(func, join.keep);
    }
    if join.index.is_none()
        && is_narrower(target, func, join.gone, join.keep)
        && !is_narrower(target, func, join.keep, join.gone)
    {
        class_of(func, join.gone)
    } else {
        class_of(func, join.keep)
    }
}

/// Gives a range a class.
fn set_class(classes: &mut Classes, v: u32, class: Option<ClassId>)
    ensures { classes.new ≡ slice_set classes.old v class }
{
    let place = v as usize;
    if place < classes.len() {
        *classes.get_mut(place) = class;
    }
}

impl EditRun {
    /// What a join makes of the instruction of an id.
    fn edit_at(&self, target: &Target, id: u32, join: Join) -> Result<Edit, AllocError>
        ensures { IfOk result (λ e. IsOrderOf self.now.draft.func self.now.draft.order → edit_of e ≡ edit_at target.now self.now.draft.func join id) }
    {
        let alloc = self.rows.rows.alloc;
        let Some((position, place)) = self.draft.find(id) else {
            return Ok(Edit::Erase(id));
        };
        match self.draft.func.instr_at(position as usize, place) {
            Some(instr) => fold_edit(alloc, target, &self.draft.func, join, instr),
            None => Ok(Edit::Erase(id)),
        }
    }

    /// What a join makes of the instructions of these ids, as edits in the same order.
    pub(crate) fn fold_edits(
        &self,
        target: &Target,
        touched: &[u32],
        join: Join,
    ) -> Result<Vec<Edit>, AllocError>
        ensures { IfOk result (λ edits. IsOrderOf self.now.draft.func self.now.draft.order → edits_of edits.items ≡ fold_edits target.now self.now.draft.func join touched.now) }
    {
        let mut edits = Vec::new(self.rows.rows.alloc);
        'touched: for id in touched {
            edits.push(self.edit_at(target, *id, join)?)?;
        }
        Ok(edits)
    }

    /// Gives the range that stays the class that it has after a join.
    fn narrow(&mut self, target: &Target, join: Join)
        ensures { Narrows target.now join self.old self.new }
    {
        let class = joined_class(target, &self.draft.func, join);
        set_class(&mut self.draft.func.classes, join.keep, class);
    }

    /// Lets a range, or its lanes of an index, stand for another one in all operands of the touched
    /// instructions. Copies that become identities go. Where memory is short, the function is as before,
    /// and the pieces are its pieces still.
    pub fn fold(&mut self, target: &Target, touched: &[u32], join: Join) -> Result<(), AllocError>
        ensures ok { OnOk result (MayFold target.now self.old join touched.now → HasTable target.now (folded target.now join self.old.draft.func) self.new) }
        ensures err { OnErr result (MayFold target.now self.old join touched.now → HasTable target.now self.old.draft.func self.new) }
    {
        let edits = self.fold_edits(target, touched, join)?;
        self.edit_all(target, edits, Some(join.gone))?;
        self.narrow(target, join);
        Ok(())
    }
}
