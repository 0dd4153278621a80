//! A list of edits as it is done: the function and its order, the numbers of lanes, the pieces, and
//! which instructions were touched so far.

ghost use Rattle.std.specs.Prelude.{◌≡◌, ◌<◌, ◌≤◌, ◌++◌, true, length, IfOk, OnOk, option_copied};
ghost use Rattle.instr_effects.specs.LaneActs.{is_once};
ghost use Rattle.mir_func.specs.Value.{IsFunction};
ghost use Rattle.instr_effects.specs.Numbered.{number_in};
ghost use Rattle.live_lanes.specs.Lasting.{AllRise};
ghost use Rattle.live_lanes.specs.Table.{piece_at, rises_from, seen};
ghost use Rattle.edit_laws.specs.Edits.{Put, Replace, Erase, KeepsWays};
ghost use Rattle.edit_laws.specs.Further.{HasFurtherLanes};
ghost use Rattle.edit_laws.specs.Numbered.{NumbersEdit};
ghost use Rattle.live_edits.specs.Drafts.{IsOrderOf, HasGap, IsDraftLogged};
ghost use Rattle.live_edits.specs.Leading.{AreAlike};
ghost use Rattle.live_edits.specs.Pieces.{nodes_of};
ghost use Rattle.live_edits.specs.Runs.{edit_of, edits_of, table_of, HasPlace, DoesEdit, AreActsAt, AreActsOf, KeepsTables, AddsSlots, named_slot, NumbersSlots, KeepsCells, KeepsDraft, cell_sides, AreSuspects, HasIds};

use crate::act_changes::{changed_acts, idle_acts};
use crate::aside::{AsideRow, add_id};
use crate::cells::CellNotes;
use crate::draft::Draft;
use crate::edit::Edit;
use crate::log::LoggedRows;
use crate::notes::TouchedInstr;
use crate::pieces::PieceSpot;
use crate::spots::add_new;
use instr_effects::EffectReader;
use instr_effects::lane_acts::LaneAct;
use instr_effects::lanes::LaneTable;
use live_lanes::compute::flow::BlockFlow;
use live_lanes::order::Order;
use live_lanes::row::{Cell, LaneRange, entry_rank, exit_rank};
use live_lanes::table::LaneRanges;
use mir_func::operands::slot_at;
use mir_func::{Gap, Operands};
use std::alloc::{AllocError, Global};
use std::collections::BTreeSet;
use target_base::{OpId, Target};

/// A function with what is live in it, while edits are done to it.
#[derive(Drop)]
pub struct EditRun {
    /// The function and its order. Erased instructions still stand there.
    pub draft: Draft,
    /// The numbers of lanes.
    pub lanes: LaneTable,
    /// The ways between blocks.
    pub flow: Vec<BlockFlow>,
    /// The pieces of all lanes.
    pub rows: LoggedRows,
    /// The instructions that edits touched, in the order of the edits.
    pub touched: Vec<TouchedInstr>,
    /// The instructions that are erased.
    pub gone: BTreeSet<u32>,
    /// The rows that were taken away whole.
    pub aside: Vec<AsideRow>,
}

/// The number of the piece of a cell, if there is one, that the point of this rank lies in.
fn index_at(order: &Order, found: Option<&Cell>, at: u128) -> usize
    ensures { rises_from order.now.slots 0 (seen (option_copied found.entry)).segments ≡ true → result ≡ piece_at order.now.slots at (seen (option_copied found.entry)).segments }
{
    match found {
        Some(cell) => cell.piece_at(&order.slots, at),
        None => 0,
    }
}

impl EditRun {
    /// What the instruction at a place of the block at a position does to lanes, where there is one.
    fn acts_at(&self, target: &Target, at: (u32, usize)) -> Result<Vec<LaneAct>, AllocError>
        ensures told { IfOk result (λ acts. AreActsAt target.now self.now.draft.func (number_in self.now.lanes) at.0 at.1 acts.items) }
        ensures once { IfOk result (λ acts. is_once acts.items ≡ true) }
    {
        let alloc = self.rows.rows.alloc;
        let (position, place) = at;
        let Some(instr) = self.draft.func.instr_at(position as usize, place) else {
            return Ok(Vec::new(alloc));
        };
        let reader = EffectReader {
            alloc,
            target,
            func: &self.draft.func,
            lanes: &self.lanes,
        };
        let acts = reader.effects(instr)?.acts(alloc)?;
        Ok(acts)
    }

    /// What the instruction of an id does to lanes, where there is one.
    fn acts_of(&self, target: &Target, id: u32) -> Result<Vec<LaneAct>, AllocError>
        ensures function { IsFunction self.now.draft.func.blocks self.now.draft.func.next_id }
        ensures told { IfOk result (λ acts. IsOrderOf self.now.draft.func self.now.draft.order → AreActsOf target.now self.now.draft.func (number_in self.now.lanes) id acts.items) }
        ensures once { IfOk result (λ acts. is_once acts.items ≡ true) }
    {
        match self.draft.find(id) {
            Some(at) => self.acts_at(target, at),
            None => Ok(Vec::new(self.rows.rows.alloc)),
        }
    }

    /// Puts a new instruction, without flags and tail, into a gap.
    fn do_put(
        &mut self,
        target: &Target,
        gap: Gap,
        op: OpId,
        operands: Operands,
    ) -> Result<(), AllocError>
        ensures done { OnOk result (IsOrderOf self.old.draft.func self.old.draft.order → HasGap self.old.draft.func gap → DoesEdit target.now self.old self.new (Put gap op operands)) }
        ensures logged { IsOrderOf self.old.draft.func self.old.draft.order → HasGap self.old.draft.func gap → IsDraftLogged self.old.draft self.new.draft }
        ensures tables { KeepsTables self.old self.new }
    {
        let (block, id) = self.draft.put(gap, op, operands)?;
        let named = self.acts_of(target, id)?;
        let acts = self.own_acts(named)?;
        self.touched.push(TouchedInstr { id, block, acts })?;
        Ok(())
    }

    /// Gives the instruction of an id another opcode and other operands. Only lanes to which it does
    /// something else than before are noted.
    fn do_replace(
        &mut self,
        target: &Target,
        id: u32,
        op: OpId,
        operands: Operands,
    ) -> Result<(), AllocError>
        ensures done { OnOk result (IsOrderOf self.old.draft.func self.old.draft.order → KeepsWays target.now self.old.draft.func (Replace id op operands) → DoesEdit target.now self.old self.new (Replace id op operands)) }
        ensures logged { IsOrderOf self.old.draft.func self.old.draft.order → IsDraftLogged self.old.draft self.new.draft }
        ensures tables { KeepsTables self.old self.new }
    {
        let Some(at) = self.draft.find(id) else {
            return self.draft.replace(id, op, operands);
        };
        let before = self.acts_at(target, at)?;
        self.draft.replace(id, op, operands)?;
        let after = self.acts_at(target, at)?;
        let alloc = self.rows.rows.alloc;
        let changed = changed_acts(alloc, before.as_slice(), after.as_slice())?;
        let acts = self.own_acts(changed)?;
        let block = at.0;
        self.touched.push(TouchedInstr { id, block, acts })?;
        Ok(())
    }

    /// Notes that the instruction of an id goes, which still stands.
    fn do_erase(&mut self, target: &Target, id: u32) -> Result<(), AllocError>
        ensures done { OnOk result (IsOrderOf self.old.draft.func self.old.draft.order → DoesEdit target.now self.old self.new (Erase id)) }
        ensures draft { self.new.draft ≡ self.old.draft }
        ensures tables { KeepsTables self.old self.new }
    {
        self.gone.insert(id)?;
        let Some(at) = self.draft.find(id) else {
            return Ok(());
        };
        let before = self.acts_at(target, at)?;
        let idle = idle_acts(self.rows.rows.alloc, before.as_slice())?;
        let acts = self.own_acts(idle)?;
        let block = at.0;
        self.touched.push(TouchedInstr { id, block, acts })?;
        Ok(())
    }

    /// Does an edit to the function, and notes which lanes it touches. What it changed can be taken back
    /// in any case.
    pub(crate) fn do_edit(&mut self, target: &Target, edit: Edit) -> Result<(), AllocError>
        ensures done { OnOk result (IsOrderOf self.old.draft.func self.old.draft.order → HasPlace self.old.draft.func (edit_of edit)
            → KeepsWays target.now self.old.draft.func (edit_of edit) → DoesEdit target.now self.old self.new (edit_of edit)) }
        ensures logged { IsOrderOf self.old.draft.func self.old.draft.order → HasPlace self.old.draft.func (edit_of edit) → IsDraftLogged self.old.draft self.new.draft }
        ensures tables { KeepsTables self.old self.new }
    {
        match edit {
            Edit::Put(gap, op, operands) => self.do_put(target, gap, op, operands),
            Edit::Replace(id, op, operands) => self.do_replace(target, id, op, operands),
            Edit::Erase(id) => self.do_erase(target, id),
        }
    }

    /// Adds the pieces on both sides of the instructions that have notes of a cell.
    fn add_suspects(&self, cell: &CellNotes, spots: &mut Vec<PieceSpot>) -> Result<(), AllocError>
        ensures { OnOk result (AllRise self.now.draft.order.slots self.now.rows.rows.rows.items
            → AreAlike (nodes_of spots.new.items) (nodes_of spots.old.items ++ cell_sides self.now.draft.order.slots self.now.rows.rows.rows.items cell.now)) }
    {
        let order = &self.draft.order;
        let (near, found) = self.rows.find(cell.lane, 0, cell.block);
        let spot = PieceSpot {
            lane: cell.lane,
            block: cell.block,
            index: 0,
            near,
        };
        'notes: for note in cell.notes.as_slice() {
            let entry = entry_rank(&order.slots, note.id);
            let exit = exit_rank(&order.slots, note.id);
            add_new(
                spots,
                PieceSpot {
                    index: index_at(order, found, entry),
                    ..spot
                },
            )?;
            add_new(
                spots,
                PieceSpot {
                    index: index_at(order, found, exit),
                    ..spot
                },
            )?;
        }
        Ok(())
    }

    /// The pieces on both sides of the instructions that have notes, whose causes are to be looked at
    /// again.
    pub(crate) fn suspects(&self, all: &[CellNotes]) -> Result<Vec<PieceSpot>, AllocError>
        ensures { IfOk result (λ spots. AllRise self.now.draft.order.slots self.now.rows.rows.rows.items
            → AreSuspects self.now.draft.order.slots self.now.rows.rows.rows.items all.now (nodes_of spots.items)) }
    {
        let mut spots = Vec::new(self.rows.rows.alloc);
        'cells: for cell in all {
            self.add_suspects(cell, &mut spots)?;
        }
        Ok(spots)
    }
}

impl EditRun {
    /// Numbers the lanes of the slots that edits name, and makes rows for them. Where more lanes would have
    /// numbers than fit 32 bits, it is refused.
    pub(crate) fn add_slots(&mut self, edits: &[Edit]) -> Result<(), AllocError>
        ensures numbered { OnOk result (NumbersSlots self.new.lanes (edits_of edits.now)) }
        ensures whole { OnOk result (length self.new.lanes.owners.items ≤ length self.new.rows.rows.rows.items) }
        ensures added { AddsSlots self.old.lanes self.new.lanes }
        ensures further { length self.old.rows.rows.rows.items < 4294967296 → HasFurtherLanes (table_of self.old) (table_of self.new) }
        ensures long { length self.old.rows.rows.rows.items ≤ length self.new.rows.rows.rows.items }
        ensures cells { KeepsCells self.old.rows.rows.rows.items self.new.rows.rows.rows.items }
        ensures draft { KeepsDraft self.old self.new }
    {
        let alloc = self.rows.rows.alloc;
        number_slots(alloc, &mut self.lanes, edits)?;
        let Ok(count) = u32::try_from(self.lanes.len()) else {
            return Err(AllocError);
        };
        add_rows(&mut self.rows.rows, count)
    }
}

/// The slot that an edit's operands name, if they name one.
fn named_slot(edit: &Edit) -> Option<u32>
    ensures { result ≡ named_slot edit.now }
{
    match edit {
        Edit::Put(_, _, operands) => slot_at(operands.as_slice(), 1),
        Edit::Replace(_, _, operands) => slot_at(operands.as_slice(), 1),
        Edit::Erase(_) => None,
    }
}

/// Numbers the lanes of the slot that an edit names.
fn number_slot(alloc: Global, lanes: &mut LaneTable, edit: &Edit) -> Result<(), AllocError>
    ensures numbered { OnOk result (NumbersEdit lanes.new (edit_of edit.now)) }
    ensures added { AddsSlots lanes.old lanes.new }
{
    match named_slot(edit) {
        Some(slot) => lanes.add_slot(alloc, slot),
        None => Ok(()),
    }
}

/// Numbers the lanes of the slots that edits name.
fn number_slots(alloc: Global, lanes: &mut LaneTable, edits: &[Edit]) -> Result<(), AllocError>
    ensures numbered { OnOk result (NumbersSlots lanes.new (edits_of edits.now)) }
    ensures added { AddsSlots lanes.old lanes.new }
{
    'edits: for edit in edits {
        number_slot(alloc, lanes, edit)?;
    }
    Ok(())
}

/// Makes empty rows, so that there are so many.
fn add_rows(rows: &mut LaneRanges, count: u32) -> Result<(), AllocError>
    ensures enough { OnOk result (count ≤ length rows.new.rows.items) }
    ensures few { length rows.old.rows.items < 4294967296 → length rows.new.rows.items < 4294967296 }
    ensures long { length rows.old.rows.items ≤ length rows.new.rows.items }
    ensures cells { KeepsCells rows.old.rows.items rows.new.rows.items }
{
    let alloc = rows.alloc;
    'lanes: for _ in rows.rows.len()..count as usize {
        rows.rows.push(LaneRange::new(alloc))?;
    }
    Ok(())
}

/// The ids of touched instructions.
pub fn ids_of(alloc: Global, touched: &[TouchedInstr]) -> Result<BTreeSet<u32>, AllocError>
    ensures { IfOk result (λ ids. HasIds touched.now ids.keys) }
{
    let mut ids = BTreeSet::new(alloc);
    'touched: for instr in touched {
        add_id(instr.id, &mut ids)?;
    }
    Ok(ids)
}
