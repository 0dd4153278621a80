//! Edits of the matrix's function, after which the ranges that are assigned hold what they then do.

ghost use Rattle.std.specs.Prelude.{◌≡◌, ℕ, List, [], true, None, IfOk, IfSome, OnOk, OnErr, is_some};
ghost use Rattle.mir_meaning.specs.Paths.{Among};
ghost use Rattle.instr_effects.specs.Numbered.{IsTable};
ghost use Rattle.live_lanes.specs.declared.ask.extent.ChangedPiece.{ChangedPiece};
ghost use Rattle.live_lanes.specs.declared.table.Table.{Table};
ghost use Rattle.edit_laws.specs.Edits.{all_edited, Put, Replace, Erase};
ghost use Rattle.live_edits.specs.LiveRuns.{IsExact, IsBegun, MayBeEditedLive};
ghost use Rattle.live_edits.specs.Runs.{edit_of, edits_of};
ghost use Rattle.interference.specs.OneEdit.{put_copy, IsEdited, IsRefused};
ghost use Rattle.interference.specs.Clashes.{list_in, register_in};
ghost use Rattle.interference.specs.EditedLists.{Whole};
ghost use Rattle.interference.specs.SavedLists.{PutsBack};
ghost use Rattle.interference.specs.declared.matrix.Matrix.{Matrix};
ghost use Rattle.interference.specs.declared.unit_table.UnitTable.{UnitTable};
ghost use Rattle.live_lanes.specs.Looks.{InOrder};
ghost use Rattle.interference.specs.EditedMatrix.{StandsClear, StandsKept, TellsHeld};
ghost use Rattle.interference.specs.Listed.{KeepsLists};
ghost use Rattle.interference.specs.EditedPieces.{any_piece, stays, stays_or_comes, whole_by, AllBeginApart, AreHeld, HoldThose, MayChangeLists, MayHoldAll};
ghost use Rattle.interference.specs.HeldLanes.{unit_at, AddsHeld, AreHeldPieces, IsHolder};

use crate::matrix::Matrix;
use crate::saved_lists::{AssignedPiece, SavedList};
use crate::unit_table::UnitTable;
use live_edits::Edit;
use live_edits::live::{EditChanges, begin_edits, commit, roll_back};
use live_lanes::{ChangedPiece, LiveFunc};
use mir_func::{Gap, Operand, Operands, RegOp};
use slot_index::Slots;
use std::alloc::AllocError;
use target_base::OpId;

/// The range and the unit that hold a lane, where its range is assigned.
#[derive(Clone, Copy)]
struct LaneHolder {
    lane: u32,
    holder: Option<(u32, u32)>,
}

/// Whether a piece is the last one of a list.
fn is_last(pieces: &[AssignedPiece], piece: AssignedPiece) -> bool
    ensures { result ≡ true → Among piece pieces.now }
{
    let count = pieces.len();
    if count == 0 {
        return false;
    }
    pieces[count - 1] == piece
}

/// Adds a piece of a lane that is held, unless it is the one that was added last.
fn add_held(
    holding: LaneHolder,
    piece: ChangedPiece,
    pieces: &mut Vec<AssignedPiece>,
) -> Result<(), AllocError>
    ensures { OnOk result (AddsHeld holding.holder piece pieces.old.items pieces.new.items) }
{
    let Some((range, unit)) = holding.holder else {
        return Ok(());
    };
    let held = AssignedPiece { range, unit, piece };
    if is_last(pieces.as_slice(), held) {
        return Ok(());
    }
    pieces.push(held)?;
    Ok(())
}

impl Matrix {
    /// Puts a COPY of a register into a gap, and answers its id.
    pub fn copy_at(&mut self, gap: Gap, to: RegOp, from: RegOp) -> Result<u32, AllocError>
        ensures id { IfOk result (λ id. id ≡ self.old.live.func.next_id) }
        ensures ok { OnOk result (IsEdited (put_copy gap to from) self.old self.new) }
        ensures err { OnErr result (IsRefused (put_copy gap to from) self.old self.new) }
    {
        let mut operands = Operands::new(self.alloc);
        operands.push(Operand::Reg(to))?;
        operands.push(Operand::Reg(from))?;
        self.put(gap, OpId(0), operands)
    }

    /// Puts a new instruction, without flags and tail, into a gap, and answers its id.
    pub fn put(&mut self, gap: Gap, op: OpId, operands: Operands) -> Result<u32, AllocError>
        ensures id { IfOk result (λ id. id ≡ self.old.live.func.next_id) }
        ensures ok { OnOk result (IsEdited (Put gap op operands) self.old self.new) }
        ensures err { OnErr result (IsRefused (Put gap op operands) self.old self.new) }
    {
        let id = self.live.func().next_id;
        self.edit_one(Edit::Put(gap, op, operands))?;
        Ok(id)
    }

    /// Gives the instruction of an id another opcode and other operands.
    pub fn replace(&mut self, id: u32, op: OpId, operands: Operands) -> Result<(), AllocError>
        ensures ok { OnOk result (IsEdited (Replace id op operands) self.old self.new) }
        ensures err { OnErr result (IsRefused (Replace id op operands) self.old self.new) }
    {
        self.edit_one(Edit::Replace(id, op, operands))
    }

    /// Takes the instruction of an id out.
    pub fn erase(&mut self, id: u32) -> Result<(), AllocError>
        ensures ok { OnOk result (IsEdited (Erase id) self.old self.new) }
        ensures err { OnErr result (IsRefused (Erase id) self.old self.new) }
    {
        self.edit_one(Edit::Erase(id))
    }

    fn edit_one(&mut self, edit: Edit) -> Result<(), AllocError>
        ensures ok { OnOk result (IsEdited (edit_of edit) self.old self.new) }
        ensures err { OnErr result (IsRefused (edit_of edit) self.old self.new) }
    {
        let mut edits = Vec::new(self.alloc);
        edits.push(edit)?;
        self.edit_all(edits, None)
    }

    /// Does edits in order. What is live, and what the assigned ranges hold, is brought up to date
    /// once, after the last of them. It is done sooner where they replace or erase all that names a range
    /// and bring nothing that does, if it is given and has no register. After a refusal the function, the
    /// registers and the lists of what ranges hold are unchanged.
    pub fn edit_all(&mut self, edits: Vec<Edit>, v: Option<u32>) -> Result<(), AllocError>
        ensures ok { OnOk result (MayBeEditedLive self.old.live (edits_of edits.items) → IsExact self.old.live.target (all_edited self.old.live.func (edits_of edits.items)) self.new.live) }
        ensures err { OnErr result (MayBeEditedLive self.old.live (edits_of edits.items) → IsExact self.old.live.target self.old.live.func self.new.live) }
        ensures kept { OnOk result (MayBeEditedLive self.old.live (edits_of edits.items) → KeepsLists self.old → StandsClear self.new → KeepsLists self.new) }
        ensures refused { OnErr result (MayBeEditedLive self.old.live (edits_of edits.items) → KeepsLists self.old → KeepsLists self.new) }
        ensures registers { self.new.registers ≡ self.old.registers }
        ensures target { self.new.live.target ≡ self.old.live.target }
    {
        let unheld = self.without_register(v);
        let changes = begin_edits(&mut self.live, edits, unheld)?;
        self.commit_or_roll_back(changes)
    }

    /// A range, if it has no register: none of its points are held then.
    fn without_register(&self, v: Option<u32>) -> Option<u32>
        ensures { IfSome result (λ w. register_in self.now.registers.items w ≡ None) }
    {
        match v {
            Some(v) if self.register_of(v).is_none() => Some(v),
            _ => None,
        }
    }

    /// Brings what the assigned ranges hold up to date after edits, and keeps these. After a refusal they
    /// are taken back, and all lists stand as they did.
    fn commit_or_roll_back(&mut self, changes: EditChanges) -> Result<(), AllocError>
        ensures ok { OnOk result ((edits : List Edit) (before : LiveFunc) → IsBegun (edits_of edits) before self.old.live changes → IsExact before.target (all_edited before.func (edits_of edits)) self.new.live) }
        ensures err { OnErr result ((edits : List Edit) (before : LiveFunc) → IsBegun (edits_of edits) before self.old.live changes → IsExact before.target before.func self.new.live) }
        ensures kept { OnOk result ((edits : List Edit) (before : LiveFunc) → IsBegun (edits_of edits) before self.old.live changes → StandsKept (record self.old { live = before }) → TellsHeld self.old before changes.pieces.items → StandsClear self.new → KeepsLists self.new) }
        ensures refused { OnErr result ((edits : List Edit) (before : LiveFunc) → IsBegun (edits_of edits) before self.old.live changes → StandsKept (record self.old { live = before }) → TellsHeld self.old before changes.pieces.items → KeepsLists self.new) }
        ensures registers { self.new.registers ≡ self.old.registers }
        ensures target { self.new.live.target ≡ self.old.live.target }
    {
        match self.held_pieces(&changes) {
            Ok(pieces) => self.commit_pieces(changes, pieces),
            Err(e) => {
                roll_back(&mut self.live, changes);
                Err(e)
            }
        }
    }

    /// The same, where the pieces that edits changed of assigned ranges are known.
    fn commit_pieces(
        &mut self,
        changes: EditChanges,
        pieces: Vec<AssignedPiece>,
    ) -> Result<(), AllocError>
        ensures ok { OnOk result ((edits : List Edit) (before : LiveFunc) → IsBegun (edits_of edits) before self.old.live changes → IsExact before.target (all_edited before.func (edits_of edits)) self.new.live) }
        ensures err { OnErr result ((edits : List Edit) (before : LiveFunc) → IsBegun (edits_of edits) before self.old.live changes → IsExact before.target before.func self.new.live) }
        ensures kept { OnOk result ((edits : List Edit) (before : LiveFunc) → IsBegun (edits_of edits) before self.old.live changes → StandsKept (record self.old { live = before }) → TellsHeld self.old before changes.pieces.items → (IsTable self.old.live.table.lanes → AreHeldPieces self.old changes.pieces.items pieces.items) → StandsClear self.new → KeepsLists self.new) }
        ensures refused { OnErr result ((edits : List Edit) (before : LiveFunc) → IsBegun (edits_of edits) before self.old.live changes → StandsKept (record self.old { live = before }) → TellsHeld self.old before changes.pieces.items → KeepsLists self.new) }
        ensures registers { self.new.registers ≡ self.old.registers }
        ensures target { self.new.live.target ≡ self.old.live.target }
    {
        let mut log = Vec::new(self.alloc);
        match self
            .held
            .change_pieces(&self.live, pieces.as_slice(), &mut log)
        {
            Ok(()) => {
                commit(&mut self.live, changes);
                Ok(())
            }
            Err(e) => {
                self.held.put_back(log);
                roll_back(&mut self.live, changes);
                Err(e)
            }
        }
    }

    /// The pieces of assigned ranges that edits changed. One that comes several times in a row is
    /// given once.
    fn held_pieces(&self, changes: &EditChanges) -> Result<Vec<AssignedPiece>, AllocError>
        ensures { IsTable self.now.live.table.lanes → IfOk result (λ pieces. AreHeldPieces self.now changes.now.pieces.items pieces.items) }
    {
        let mut pieces = Vec::new(self.alloc);
        let mut last = self.holder_of(0);
        'pieces: for piece in changes.pieces() {
            last = self.holder_after(last, piece.lane);
            add_held(last, *piece, &mut pieces)?;
        }
        Ok(pieces)
    }

    /// Who holds a lane, where it is known who holds that of the piece before.
    fn holder_after(&self, last: LaneHolder, lane: u32) -> LaneHolder
        ensures lane { result.lane ≡ lane }
        ensures holder { IsTable self.now.live.table.lanes → IsHolder self.now last.lane last.holder → IsHolder self.now lane result.holder }
    {
        if lane == last.lane {
            return last;
        }
        self.holder_of(lane)
    }

    /// Who holds a lane.
    fn holder_of(&self, lane: u32) -> LaneHolder
        ensures lane { result.lane ≡ lane }
        ensures holder { IsTable self.now.live.table.lanes → IsHolder self.now lane result.holder }
    {
        LaneHolder {
            lane,
            holder: self.holder(lane),
        }
    }

    /// The range and the unit that hold a lane, where its range is assigned.
    fn holder(&self, lane: u32) -> Option<(u32, u32)>
        ensures { IsTable self.now.live.table.lanes → IsHolder self.now lane result }
    {
        let (v, k) = self.live.range_of(lane)?;
        if self.live.lane_of(v, k as usize) != Some(lane) {
            return None;
        }
        let unit = self.unit_of(v, k)?;
        Some((v, unit))
    }

    /// The unit of a lane of a range, where it is assigned and its register has so many.
    fn unit_of(&self, v: u32, k: u32) -> Option<u32>
        ensures { result ≡ unit_at self.now.live.target (register_in self.now.registers.items v) k }
    {
        let p = self.register_of(v)?;
        let u = self.live.target().units_at(p).get(k as usize)?;
        Some(u.0 as u32)
    }
}

impl UnitTable {
    /// Brings the lists up to date after edits: of each piece that they changed, the points as they were
    /// held before go, and those as they are now come.
    fn change_pieces(
        &mut self,
        live: &LiveFunc,
        pieces: &[AssignedPiece],
        log: &mut Vec<SavedList>,
    ) -> Result<(), AllocError>
        ensures ok { (m : Matrix) (before : Table) (changed : List ChangedPiece) → m.live ≡ live.now → m.held ≡ self.old → MayChangeLists m before changed → AreHeldPieces m changed pieces.now
            → OnOk result (HoldThose live.now.table.order.slots (whole_by m live.now.table) any_piece self.new) }
        ensures there { InOrder live.now.table → OnOk result ((u b : ℕ) → is_some (list_in self.new u b) ≡ is_some (list_in self.old u b)) }
        ensures back { (start : UnitTable) → PutsBack start log.old.items self.old → PutsBack start log.new.items self.new }
    {
        self.release_pieces(live.slots(), pieces, log)?;
        self.hold_pieces(live, pieces, log)
    }

    /// Takes away the points of the pieces that edits changed, as they were held before.
    fn release_pieces(
        &mut self,
        slots: &Slots,
        pieces: &[AssignedPiece],
        log: &mut Vec<SavedList>,
    ) -> Result<(), AllocError>
        ensures ok { (whole : ℕ → ℕ → Whole) → AllBeginApart whole → HoldThose slots.now whole (stays []) self.old → OnOk result (HoldThose slots.now whole (stays pieces.now) self.new) }
        ensures there { OnOk result ((u b : ℕ) → is_some (list_in self.new u b) ≡ is_some (list_in self.old u b)) }
        ensures back { (start : UnitTable) → PutsBack start log.old.items self.old → PutsBack start log.new.items self.new }
    {
        'pieces: for piece in pieces {
            self.take_piece(slots, piece, piece.piece.start, log)?;
        }
        Ok(())
    }

    /// Adds the points of the pieces that edits changed, as they are now.
    fn hold_pieces(
        &mut self,
        live: &LiveFunc,
        pieces: &[AssignedPiece],
        log: &mut Vec<SavedList>,
    ) -> Result<(), AllocError>
        ensures ok { (m : Matrix) → m.live ≡ live.now → MayHoldAll m self.old → AreHeld m pieces.now → HoldThose live.now.table.order.slots (whole_by m live.now.table) (stays_or_comes pieces.now []) self.old
            → OnOk result (HoldThose live.now.table.order.slots (whole_by m live.now.table) (stays_or_comes pieces.now pieces.now) self.new) }
        ensures there { InOrder live.now.table → OnOk result ((u b : ℕ) → is_some (list_in self.new u b) ≡ is_some (list_in self.old u b)) }
        ensures back { (start : UnitTable) → PutsBack start log.old.items self.old → PutsBack start log.new.items self.new }
    {
        'pieces: for piece in pieces {
            self.add_piece(live, piece, log)?;
        }
        Ok(())
    }
}
