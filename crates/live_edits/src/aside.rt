//! Rows of a range that no instruction names after edits: they are taken away whole.

ghost use Rattle.std.specs.Prelude.{◌≡◌, ◌⊎◌, ◌<◌, ◌++◌, ◌∷◌, ℕ, true, cond, [], Some, IfOk, OnOk, vec_len, vec_capacity};
ghost use Rattle.std.specs.List.{list_all, list_any};
ghost use Rattle.mir_meaning.specs.Paths.{has};
ghost use Rattle.instr_effects.specs.declared.owner.Owner.TheVariants as owners;
ghost use Rattle.instr_effects.specs.Numbered.{number_in};
ghost use Rattle.live_lanes.specs.Entered.{rows_seen};
ghost use Rattle.live_lanes.specs.Table.{begun, seen_cell};
ghost use Rattle.live_edits.specs.Aside.{UnnamedLaw, any_names, are_told, brings, changed_by, changed_ids, is_all_told, is_aside, is_begun_told, names_range, IsPutBack, IsRowPutBack, IsRowTaken, LeavesNone, LeavesOut, TakesRows, TakesSome};
ghost use Rattle.live_edits.specs.EditedRuns.{ClearsRange};
ghost use Rattle.live_edits.specs.Runs.{edit_of, edits_of, table_of};
ghost use Rattle.live_edits.specs.ToldRuns.{KeepsOtherRows};

use crate::edit::Edit;
use crate::edit_run::EditRun;
use crate::fold::is_range;
use instr_effects::lane_acts::LaneAct;
use live_lanes::row::{Cell, DefPiece, LaneRange, LaneUse};
use mir_func::Operand;
use std::alloc::{AllocError, Global};
use std::collections::BTreeSet;
use std::mem;

/// Where edits leave nothing that names a range, the code in which erased instructions stand names none
/// of its lanes.
pub fn unnamed_law()
    ensures { UnnamedLaw }
{}

/// A row that was taken away whole, as it was.
#[derive(Drop)]
pub struct AsideRow {
    /// The lane.
    pub lane: u32,
    /// Its row.
    pub row: LaneRange,
}

/// Whether an operand names a range.
fn names_range(v: u32, operand: &Operand) -> bool
    ensures { result ≡ names_range v operand.now }
{
    match operand {
        Operand::Reg(op) => is_range(v, op.loc),
        _ => false,
    }
}

/// Whether one of the operands names a range.
fn any_names(v: u32, operands: &[Operand]) -> bool
    ensures { result ≡ any_names v operands.now }
{
    operands.iter().any(|operand| names_range(v, operand))
}

/// Whether an operand that an edit brings names a range.
fn brings(v: u32, edit: &Edit) -> bool
    ensures { result ≡ brings v (edit_of edit.now) }
{
    match edit {
        Edit::Put(_, _, operands) => any_names(v, operands.as_slice()),
        Edit::Replace(_, _, operands) => any_names(v, operands.as_slice()),
        Edit::Erase(_) => false,
    }
}

/// Whether an operand that one of the edits brings names a range.
fn any_brings(v: u32, edits: &[Edit]) -> bool
    ensures { result ≡ list_any (λ e. brings v (edit_of e)) edits.now }
{
    edits.iter().any(|edit| brings(v, edit))
}

/// Adds the id of the instruction that an edit replaces or erases.
fn add_changed(edit: &Edit, ids: &mut BTreeSet<u32>) -> Result<(), AllocError>
    ensures { OnOk result ((n : ℕ) → has n ids.new.keys ≡ has n (changed_by (edit_of edit.now) ++ ids.old.keys)) }
{
    match edit {
        Edit::Put(_, _, _) => Ok(()),
        Edit::Replace(id, _, _) => add_id(*id, ids),
        Edit::Erase(id) => add_id(*id, ids),
    }
}

/// Adds an id.
pub(crate) fn add_id(id: u32, ids: &mut BTreeSet<u32>) -> Result<(), AllocError>
    ensures { OnOk result ((n : ℕ) → has n ids.new.keys ≡ has n (id ∷ ids.old.keys)) }
{
    ids.insert(id)?;
    Ok(())
}

/// The ids of the instructions that edits replace or erase.
fn changed_ids(alloc: Global, edits: &[Edit]) -> Result<BTreeSet<u32>, AllocError>
    ensures { IfOk result (λ ids. (n : ℕ) → has n ids.keys ≡ has n (changed_ids (edits_of edits.now))) }
{
    let mut ids = BTreeSet::new(alloc);
    'edits: for edit in edits {
        add_changed(edit, &mut ids)?;
    }
    Ok(ids)
}

/// Whether an id is one of a set.
fn has_id(ids: &BTreeSet<u32>, id: u32) -> bool
    ensures { result ≡ has id ids.now.keys }
{
    ids.contains(&id)
}

/// Whether all readings are of instructions of a set.
fn are_told(ids: &BTreeSet<u32>, readings: &[LaneUse]) -> bool
    ensures { result ≡ are_told (λ n. has n ids.now.keys) readings.now }
{
    readings.iter().all(|reading| has_id(ids, reading.id))
}

/// Whether an instruction of a set begins a piece, and only such read it.
fn is_begun_told(ids: &BTreeSet<u32>, segment: &DefPiece) -> bool
    ensures { result ≡ is_begun_told (λ n. has n ids.now.keys) (begun segment.now) }
{
    has_id(ids, segment.start) && are_told(ids, segment.piece.readings.as_slice())
}

/// The same of pieces in a row.
fn are_begun_told(ids: &BTreeSet<u32>, segments: &[DefPiece]) -> bool
    ensures { result ≡ list_all (λ s. is_begun_told (λ n. has n ids.now.keys) (begun s)) segments.now }
{
    segments.iter().all(|segment| is_begun_told(ids, segment))
}

/// Whether a lane's cell names no instructions but those of a set, and no phi reads it where the block
/// ends.
fn is_cell_told(ids: &BTreeSet<u32>, cell: &Cell) -> bool
    ensures { result ≡ is_all_told (λ n. has n ids.now.keys) (seen_cell cell.now) }
{
    if cell.is_read_last || !are_told(ids, cell.first.readings.as_slice()) {
        return false;
    }
    are_begun_told(ids, cell.segments.as_slice())
}

/// The same of the cells of a lane.
fn are_cells_told(ids: &BTreeSet<u32>, cells: &[Cell]) -> bool
    ensures { result ≡ list_all (λ c. is_all_told (λ n. has n ids.now.keys) (seen_cell c)) cells.now }
{
    cells.iter().all(|cell| is_cell_told(ids, cell))
}

impl EditRun {
    /// Whether the cells of a lane name no instructions but those of a set, and no phi reads it.
    fn is_lane_told(&self, ids: &BTreeSet<u32>, lane: Option<u32>) -> bool
        ensures { (l : ℕ) → lane ≡ Some l → result ≡ true → (b : ℕ) → is_all_told (λ n. has n ids.now.keys) (rows_seen self.now.rows.rows.rows.items l b) ≡ true }
    {
        match lane {
            Some(lane) => are_cells_told(ids, self.rows.rows.cells(lane)),
            None => true,
        }
    }

    /// The same of all lanes of a range.
    fn is_range_told(&self, ids: &BTreeSet<u32>, v: u32) -> bool
        ensures { result ≡ true → (k l b : ℕ) → number_in self.now.lanes (owners.Range v k) ≡ Some l → is_all_told (λ n. has n ids.now.keys) (rows_seen self.now.rows.rows.rows.items l b) ≡ true }
    {
        let own = self.lanes.of_range(v);
        'lanes: for k in 0..own.count {
            if !self.is_lane_told(ids, own.lane(k)) {
                return false;
            }
        }
        true
    }

    /// Whether edits leave nothing that names a range, so that its rows may go.
    pub(crate) fn may_go(&self, edits: &[Edit], v: u32) -> Result<bool, AllocError>
        ensures { IfOk result (λ may. may ≡ true → LeavesNone (table_of self.now) (edits_of edits.now) v) }
    {
        if any_brings(v, edits) {
            return Ok(false);
        }
        let ids = changed_ids(self.rows.rows.alloc, edits)?;
        Ok(self.is_range_told(&ids, v))
    }
}

/// Adds a row to a list that has room for it.
fn put_aside(rows: &mut Vec<AsideRow>, row: AsideRow)
    requires { vec_len rows.old < vec_capacity rows.old }
    ensures { rows.new.items ≡ rows.old.items ++ row ∷ [] }
{
    let _ = rows.push(row);
}

impl EditRun {
    /// Whether the row of a lane was taken away.
    pub(crate) fn is_aside(&self, lane: u32) -> bool
        ensures { result ≡ is_aside self.now.aside.items lane }
    {
        self.aside.iter().any(|row| row.lane == lane)
    }

    /// Takes the row of a lane away, if it has one. After a refusal all is as before.
    fn take_row(&mut self, lane: u32) -> Result<(), AllocError>
        ensures { IsRowTaken self.old self.new lane }
    {
        let alloc = self.rows.rows.alloc;
        if lane as usize >= self.rows.rows.rows.len() {
            return Ok(());
        }
        self.aside.reserve(1)?;
        let row = mem::replace(
            &mut self.rows.rows.rows[lane as usize],
            LaneRange::new(alloc),
        );
        put_aside(&mut self.aside, AsideRow { lane, row });
        Ok(())
    }

    /// The same of a lane that there may be.
    fn take_lane(&mut self, lane: Option<u32>) -> Result<(), AllocError>
        ensures { TakesSome self.old self.new (λ l. lane ≡ Some l) }
    {
        match lane {
            Some(lane) => self.take_row(lane),
            None => Ok(()),
        }
    }

    /// Takes the rows of a range's lanes away. After a refusal some may have gone.
    pub(crate) fn take_rows(&mut self, v: u32) -> Result<(), AllocError>
        ensures { TakesRows self.old self.new v }
    {
        let own = self.lanes.of_range(v);
        'lanes: for k in 0..own.count {
            self.take_lane(own.lane(k))?;
        }
        Ok(())
    }

    /// Takes the rows of a range's lanes away, if edits leave nothing that names it. After a refusal some
    /// may have gone.
    fn clear_rows(&mut self, edits: &[Edit], v: u32) -> Result<(), AllocError>
        ensures takes { TakesRows self.old self.new v }
        ensures leaves { (l : ℕ) → is_aside self.new.aside.items l ≡ true → (is_aside self.old.aside.items l ≡ true) ⊎ LeavesNone (table_of self.old) (edits_of edits.now) v }
    {
        if self.may_go(edits, v)? {
            return self.take_rows(v);
        }
        Ok(())
    }

    /// The same of a range that may be given.
    pub(crate) fn clear_range(&mut self, edits: &[Edit], v: Option<u32>) -> Result<(), AllocError>
        ensures clears { ClearsRange (edits_of edits.now) self.old self.new }
        ensures kept { self.old.aside.items ≡ [] → KeepsOtherRows self.old self.new.rows.rows.rows.items v }
    {
        match v {
            Some(v) => self.clear_rows(edits, v),
            None => Ok(()),
        }
    }

    /// Puts one row back.
    fn put_row_back(&mut self, aside: AsideRow)
        ensures { IsRowPutBack self.old self.new aside }
    {
        let AsideRow { lane, row } = aside;
        if (lane as usize) < self.rows.rows.rows.len() {
            let _ = mem::replace(&mut self.rows.rows.rows[lane as usize], row);
        }
    }

    /// Puts all rows back that were taken away. It takes no memory.
    pub(crate) fn put_rows_back(&mut self)
        ensures { IsPutBack self.old self.new }
    {
        'rows: while let Some(aside) = self.aside.pop() {
            self.put_row_back(aside);
        }
    }

    /// Adds an act to a list, unless the row of its lane was taken away.
    fn add_own(&self, act: LaneAct, own: &mut Vec<LaneAct>) -> Result<(), AllocError>
        ensures { OnOk result (own.new.items ≡ cond (is_aside self.now.aside.items act.lane) own.old.items (own.old.items ++ act ∷ [])) }
    {
        if !self.is_aside(act.lane) {
            own.push(act)?;
        }
        Ok(())
    }

    /// Those of acts that are on lanes whose rows weren't taken away.
    pub(crate) fn own_acts(&self, acts: Vec<LaneAct>) -> Result<Vec<LaneAct>, AllocError>
        ensures { IfOk result (λ own. LeavesOut self.now.aside.items acts.items own.items) }
    {
        if self.aside.is_empty() {
            return Ok(acts);
        }
        let mut own = Vec::with_capacity(self.rows.rows.alloc, acts.len())?;
        'acts: for act in acts.as_slice() {
            self.add_own(*act, &mut own)?;
        }
        Ok(own)
    }
}
