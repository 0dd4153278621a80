//! The edits that spill a range, gathered before any of them is done.

ghost use Rattle.std.specs.Prelude.{◌≡◌, ℕ, IfOk, OnOk, Some, [], ◌∷◌, ◌++◌, ◌<◌, ◌+◌, ◌^◌, drop, length, option_map, slice_get};
ghost use Rattle.std.specs.List.{list_any};
ghost use Rattle.mir_func.specs.declared.func.Gap.{Gap};
ghost use Rattle.mir_func.specs.declared.func.Block.{Block};
ghost use Rattle.mir_func.specs.declared.func.Instr.{Instr};
ghost use Rattle.mir_func.specs.declared.func.Operand.TheVariants as operands;
ghost use Rattle.mir_func.specs.Binding.{class_of};
ghost use Rattle.mir_func.specs.Edits.{made};
ghost use Rattle.mir_meaning.specs.Points.{is_range};
ghost use Rattle.mir_meaning.specs.Registers.{numbers, range_widths};
ghost use Rattle.live_lanes.specs.Looks.{InOrder};
ghost use Rattle.live_lanes.specs.Touching.{FindsInstrs};
ghost use Rattle.live_edits.specs.declared.edit.Edit.TheVariants as edits;
ghost use Rattle.spiller.specs.Views.{block_number, gap_before, planned, no_plan, own_setting, IsThere};
ghost use Rattle.spiller.specs.Planned.{known_op};
ghost use Rattle.spiller.specs.Seating.{IsBehind};
ghost use Rattle.spiller.specs.Rematerialised.{repeated};
ghost use Rattle.spiller.specs.Spilled.{is_slot};
ghost use Rattle.spiller.specs.Additions.{with_addition, edited, slot_named, ranges_made, put_into};
ghost use Rattle.spiller.specs.Setting.{plain_use, plain_definition, undef_use, lanes_named, in_own_slot, own_lanes, store, reload};

use crate::kinds::{first_unreserved, reload_op, spill_op};
use interference::{Tinies, Tiny};
use live_edits::Edit;
use live_lanes::LiveFunc;
use mir_func::operands::class_of;
use mir_func::{Func, Gap, Instr, Loc, Op, Operand, Operands, RegOp};
use phi_elim::moves::{whole_definition, whole_use};
use std::alloc::{AllocError, Global};
use target_base::{Boxed, ClassId, Copied, IndexId, OpId, Target};

/// What spilling looks at: the function as it stands before.
#[derive(Clone, Copy)]
pub(crate) struct SpillView<'a> {
    pub alloc: Global,
    pub target: &'a Target,
    pub live: &'a LiveFunc,
    /// The range that is spilled.
    pub v: u32,
    /// Its slot.
    pub slot: u32,
}

/// Edits in order, and the new ranges that they name.
#[derive(Drop)]
pub(crate) struct Plan {
    alloc: Global,
    pub edits: Vec<Edit>,
    pub tinies: Tinies,
    /// The classes of the tinies.
    pub classes: Vec<Option<ClassId>>,
    /// Whether a store or a reload names the slot of the range.
    pub uses_slot: bool,
    next_range: u32,
    next_id: u32,
}

impl Plan {
    /// No edits of a function, with room for so many edits.
    pub fn new(view: SpillView<'_>, room: usize) -> Result<Plan, AllocError>
        ensures { length view.entry.live.now.func.classes < 2 ^ 32 → IfOk result (λ p. planned p ≡ no_plan view.entry.live.now.func) }
    {
        let f = view.live.func();
        Ok(Plan {
            alloc: view.alloc,
            edits: Vec::with_capacity(view.alloc, room)?,
            tinies: Tinies::new(view.alloc),
            classes: Vec::new(view.alloc),
            uses_slot: false,
            next_range: u32::try_from(f.classes.len()).unwrap_or(u32::MAX),
            next_id: f.next_id,
        })
    }

    /// The id of the instruction that is put next.
    pub fn next_id(&self) -> u32
        ensures { result ≡ self.now.next_id }
    {
        self.next_id
    }

    /// Notes that an instruction is put into a gap. An id that doesn't fit 32 bits is refused as want of
    /// memory is.
    pub fn put(
        &mut self,
        view: SpillView<'_>,
        gap: Gap,
        op: OpId,
        operands: Operands,
    ) -> Result<(), AllocError>
        ensures { OnOk result (planned self.new ≡ with_addition (put_into (own_setting view.entry) gap (made 0 op operands ∷ [])) (planned self.old)) }
    {
        if self.next_id == u32::MAX {
            return Err(AllocError);
        }
        self.uses_slot = self.uses_slot || names_slot(view.slot, operands.as_slice());
        self.edits.push(Edit::Put(gap, op, operands))?;
        self.next_id += 1;
        Ok(())
    }

    /// Notes that an instruction names the slot of the range.
    pub fn note_slot(&mut self)
        ensures { planned self.new ≡ with_addition slot_named (planned self.old) }
    {
        self.uses_slot = true;
    }

    /// Notes that a register of a class is reloaded in a gap from lanes of the slot of the range.
    pub fn put_reload(
        &mut self,
        view: SpillView<'_>,
        gap: Gap,
        class: Option<ClassId>,
        register: RegOp,
        index: Option<IndexId>,
    ) -> Result<(), AllocError>
        ensures { OnOk result (planned self.new ≡ with_addition (put_into (own_setting view.entry) gap (reload view.entry.target.now class register (in_own_slot (own_setting view.entry) index) ∷ [])) (planned self.old)) }
    {
        let operands = slot_operands(view.alloc, register, view.own_part(index))?;
        self.put(view, gap, reload_op(view.target, class), operands)
    }

    /// Notes that a register of a class is stored in a gap to lanes of the slot of the range.
    pub fn put_store(
        &mut self,
        view: SpillView<'_>,
        gap: Gap,
        class: Option<ClassId>,
        register: RegOp,
        index: Option<IndexId>,
    ) -> Result<(), AllocError>
        ensures { OnOk result (planned self.new ≡ with_addition (put_into (own_setting view.entry) gap (store view.entry.target.now class register (in_own_slot (own_setting view.entry) index) ∷ [])) (planned self.old)) }
    {
        let operands = slot_operands(view.alloc, register, view.own_part(index))?;
        self.put(view, gap, spill_op(view.target, class), operands)
    }

    /// Notes that the instruction of a definition is repeated in a gap, for this register.
    pub fn put_repeated(
        &mut self,
        view: SpillView<'_>,
        source: u32,
        gap: Gap,
        register: RegOp,
    ) -> Result<(), AllocError>
        ensures range { OnOk result (self.new.next_range ≡ self.old.next_range) }
        ensures plan { FindsInstrs view.entry.live.now.table view.entry.live.now.func.blocks → (d : Instr) → IsThere view.entry.live.now.func d → d.id ≡ source
            → OnOk result (planned self.new ≡ with_addition (put_into (own_setting view.entry) gap (repeated d register ∷ [])) (planned self.old)) }
    {
        let Some(instr) = view.live.instr(source) else {
            return Ok(());
        };
        let operands = rematerialised_operands(view.alloc, instr, register)?;
        self.put(view, gap, op_of(instr), operands)
    }

    /// Notes that an instruction becomes another one in its place.
    pub fn replace(&mut self, id: u32, op: OpId, operands: Operands) -> Result<(), AllocError>
        ensures { OnOk result (planned self.new ≡ with_addition (edited (edits.Replace id op operands ∷ [])) (planned self.old)) }
    {
        self.edits.push(Edit::Replace(id, op, operands))?;
        Ok(())
    }

    /// Notes that an instruction goes.
    pub fn erase(&mut self, id: u32) -> Result<(), AllocError>
        ensures { OnOk result (planned self.new ≡ with_addition (edited (edits.Erase id ∷ [])) (planned self.old)) }
    {
        self.edits.push(Edit::Erase(id))?;
        Ok(())
    }

    /// Notes a new range of a class for a place, and answers its number. One that doesn't fit 32 bits is
    /// refused as want of memory is.
    pub fn tiny(&mut self, class: Option<ClassId>, at: u32) -> Result<u32, AllocError>
        ensures range { IfOk result (λ v. v ≡ self.old.next_range) }
        ensures plan { OnOk result (planned self.new ≡ with_addition (ranges_made ((class, at) ∷ [])) (planned self.old)) }
    {
        let range = self.next_range;
        if range == u32::MAX {
            return Err(AllocError);
        }
        self.classes.push(class)?;
        self.tinies.push(Tiny { range, at })?;
        self.next_range = range + 1;
        Ok(range)
    }

    /// The allocator of its lists.
    pub fn alloc(&self) -> Global {
        self.alloc
    }
}

/// Whether the operand is the slot.
fn is_slot(slot: u32, operand: &Operand) -> bool
    ensures { result ≡ is_slot slot operand.now }
{
    match operand {
        Operand::Stack(other) => *other == slot,
        _ => false,
    }
}

/// Whether one of the operands is the slot.
fn names_slot(slot: u32, operands: &[Operand]) -> bool
    ensures { result ≡ list_any (is_slot slot) operands.now }
{
    operands.iter().any(|operand| is_slot(slot, operand))
}

/// An opcode of the target; opcode 0 for an excluded one.
pub(crate) fn op_of(instr: &Instr) -> OpId
    ensures { result ≡ known_op instr.now.op }
{
    match &instr.op {
        Op::Known(op) => *op,
        Op::Excluded(_) => OpId(0),
    }
}

/// A use of lanes of a register, without flags.
pub(crate) fn use_of(loc: Loc, index: Option<IndexId>) -> RegOp
    ensures { result ≡ plain_use loc index }
{
    RegOp {
        loc,
        index,
        ..whole_use(0)
    }
}

/// A definition of lanes of a register, without flags.
pub(crate) fn definition_of(loc: Loc, index: Option<IndexId>) -> RegOp
    ensures { result ≡ plain_definition loc index }
{
    RegOp {
        loc,
        index,
        ..whole_definition(0)
    }
}

/// An `undef` use of the first unreserved register of a class.
pub(crate) fn undef_use(target: &Target, class: Option<ClassId>) -> RegOp
    ensures { result ≡ undef_use target.now class }
{
    RegOp {
        undef: true,
        ..use_of(Loc::Fixed(first_unreserved(target, class)), None)
    }
}

/// Lanes of a spill slot.
#[derive(Clone, Copy, PartialEq, Eq)]
pub(crate) struct SlotPart {
    /// The slot.
    pub slot: u32,
    /// The index that picks the lanes; none for all.
    pub index: Option<IndexId>,
}

/// The operands of a store or a reload.
pub(crate) fn slot_operands(
    alloc: Global,
    register: RegOp,
    part: SlotPart,
) -> Result<Operands, AllocError>
    ensures { IfOk result (λ os. os ≡ operands.Reg register ∷ operands.Stack part.slot ∷ lanes_named part.index ∷ []) }
{
    let mut operands = Operands::new(alloc);
    operands.push(Operand::Reg(register))?;
    operands.push(Operand::Stack(part.slot))?;
    operands.push(lanes_named(part.index))?;
    Ok(operands)
}

/// How a store or a reload names lanes of its slot: an index, or 0 for all.
fn lanes_named(index: Option<IndexId>) -> Operand
    ensures { result ≡ lanes_named index }
{
    match index {
        Some(index) => Operand::Index(index),
        None => Operand::Imm(0),
    }
}

/// The operands of a constant or an address with another register in the place of its one definition,
/// which is its first operand.
fn rematerialised_operands(
    alloc: Global,
    instr: &Instr,
    register: RegOp,
) -> Result<Operands, AllocError>
    ensures { IfOk result (λ os. os ≡ operands.Reg register ∷ drop 1 instr.now.operands) }
{
    let mut operands = Operands::new(alloc);
    operands.push(Operand::Reg(register))?;
    if let [_, behind @ ..] = instr.operands.as_slice() {
        push_all(alloc, &mut operands, behind)?;
    }
    Ok(operands)
}

/// Adds equal operands at the end.
fn push_all(alloc: Global, operands: &mut Operands, others: &[Operand]) -> Result<(), AllocError>
    ensures { OnOk result (operands.new ≡ operands.old ++ others.now) }
{
    'others: for operand in others {
        operands.push(operand.copied(alloc)?)?;
    }
    Ok(())
}

/// The id of the instruction behind that at a place, if there is one.
fn id_behind(instrs: &[Boxed<Instr>], place: usize) -> Option<u32>
    ensures { result ≡ option_map (λ i. i.id) (slice_get instrs.now (place + 1)) }
{
    if place >= instrs.len() {
        return None;
    }
    match instrs.get(place + 1) {
        Some(next) => Some(next.get().id),
        None => None,
    }
}

/// The id of the instruction behind that at a place of the block at a position, if there is one.
fn id_behind_at(f: &Func, position: usize, place: usize) -> Option<u32>
    ensures { (b : Block) → slice_get f.now.blocks position ≡ Some b → result ≡ option_map (λ i. i.id) (slice_get b.instrs (place + 1)) }
{
    match f.blocks.as_slice().get(position) {
        Some(block) => id_behind(block.instrs.as_slice(), place),
        None => None,
    }
}

impl<'a> SpillView<'a> {
    /// The number of the block of an instruction.
    pub fn block_number(&self, id: u32) -> u32
        ensures { result ≡ block_number self.now id }
    {
        let position = self.live.position_of(id) as usize;
        match self.live.func().blocks.as_slice().get(position) {
            Some(block) => block.number,
            None => 0,
        }
    }

    /// The gap right before an instruction.
    pub fn gap_before(&self, id: u32) -> Gap
        ensures { result ≡ gap_before self.now id }
    {
        Gap {
            block: self.block_number(id),
            before: Some(id),
        }
    }

    /// Lanes of the slot of the range, for a store or a reload.
    pub fn own_part(&self, index: Option<IndexId>) -> SlotPart
        ensures { result ≡ record { slot = self.now.slot; index = index } }
    {
        SlotPart {
            slot: self.slot,
            index,
        }
    }

    /// The gap right behind an instruction.
    pub fn gap_behind(&self, id: u32) -> Gap
        ensures { (gap : Gap) → IsBehind self.now id gap → result ≡ gap }
    {
        let position = self.live.position_of(id) as usize;
        let place = self.live.place_of(id);
        Gap {
            block: self.block_number(id),
            before: id_behind_at(self.live.func(), position, place),
        }
    }

    /// The class of the range that is spilled.
    pub fn own_class(&self) -> Option<ClassId>
        ensures { result ≡ class_of self.now.live.now.func self.now.v }
    {
        class_of(self.live.func(), self.v)
    }

    /// The number of lanes of the range.
    pub fn lane_count(&self) -> usize
        ensures { result ≡ length (range_widths self.now.target.now self.now.live.now.func self.now.v) }
    {
        self.target.class_units(self.own_class()).len()
    }

    /// Whether an operand is the range that is spilled.
    pub fn is_own(&self, op: &RegOp) -> bool
        ensures { result ≡ is_range self.now.v op.now.loc }
    {
        match op.loc {
            Loc::Virtual(w) => self.v == w,
            Loc::Fixed(_) => false,
        }
    }

    /// Whether a lane of the range is live at the exit of an instruction.
    fn is_lane_behind(&self, lane: usize, id: u32) -> bool
        ensures { InOrder self.now.live.now.table → result ≡ (own_setting self.now).facts.live_behind id lane }
    {
        self.live.live_out(self.v, lane, id)
    }

    /// Whether one of these lanes of the range is live at the exit of an instruction.
    fn is_one_behind(&self, lanes: &[u8], id: u32) -> bool
        ensures { InOrder self.now.live.now.table → result ≡ list_any ((own_setting self.now).facts.live_behind id) lanes.now }
    {
        'lanes: for k in lanes {
            if self.is_lane_behind(*k as usize, id) {
                return true;
            }
        }
        false
    }

    /// Whether one of so many lanes of the range, from the first one on, is live at the exit of an
    /// instruction.
    fn is_some_behind(&self, count: usize, id: u32) -> bool
        ensures { InOrder self.now.live.now.table → result ≡ list_any ((own_setting self.now).facts.live_behind id) (numbers 0 count) }
    {
        'lanes: for k in 0..count {
            if self.is_lane_behind(k, id) {
                return true;
            }
        }
        false
    }

    /// Whether some lane of the range that an operand names is live at the exit of an instruction.
    pub fn is_live_behind(&self, index: Option<IndexId>, id: u32) -> bool
        ensures { InOrder self.now.live.now.table → result ≡ list_any ((own_setting self.now).facts.live_behind id) (own_lanes (own_setting self.now) index) }
    {
        match index {
            None => self.is_some_behind(self.lane_count(), id),
            Some(index) => self.is_one_behind(self.target.lanes_at(index), id),
        }
    }
}
