//! A list of edits as a whole: all of them are done and the pieces brought up to date, or none is.

ghost use Rattle.std.specs.Prelude.{◌≡◌, ◌<◌, ℕ, true, reverse, IfOk, OnOk, OnErr};
ghost use Rattle.instr_effects.specs.Numbered.{number_in, KeepsNumbers};
ghost use Rattle.live_lanes.specs.Entered.{rows_seen};
ghost use Rattle.edit_laws.specs.Edits.{all_edited};
ghost use Rattle.live_edits.specs.Aside.{AreThere};
ghost use Rattle.live_edits.specs.Drafts.{IsOrderOf, IsDraftLogged};
ghost use Rattle.live_edits.specs.EditedRuns.{IsFresh, MayBegin, MayStart, HasTable, MayDo, DoesEdits, AreBelow, BringsUp, ChangesRows, AreDone, IsDone, IsRunLogged, LetsAllGo, IsRunUndone, IsLoggedOf, IsDoneOf};
ghost use Rattle.live_edits.specs.Logged.{HasAllCells, IsLogged};
ghost use Rattle.live_edits.specs.Noted.{TellLatest};
ghost use Rattle.live_edits.specs.Runs.{edits_of, table_of, KeepsTables};
ghost use Rattle.live_edits.specs.Told.{IsNotedAndLogged};
ghost use Rattle.live_edits.specs.ToldRuns.{IsToldBy};

use crate::cells::CellNotes;
use crate::draft::Draft;
use crate::edit::Edit;
use crate::edit_run::{EditRun, ids_of};
use crate::log::LoggedRows;
use crate::notes::notes_of;
use live_lanes::table::Table;
use mir_func::Func;
use std::alloc::AllocError;
use std::collections::BTreeSet;
use target_base::Target;

/// Whether all lanes with notes are below a number.
fn are_below(all: &[CellNotes], count: usize) -> bool
    ensures { result ≡ true → AreBelow count all.now }
{
    'notes: for notes in all {
        if notes.lane as usize >= count {
            return false;
        }
    }
    true
}

/// The id that comes next: it fits 32 bits.
fn next_id(func: &Func) -> u32
    ensures { result ≡ func.now.next_id }
{
    func.next_id
}

/// What edits did that still can be taken back.
#[derive(Drop)]
pub struct EditOutcome {
    /// The ids of the erased instructions, which still stand.
    pub erased: Vec<u32>,
    /// What touched instructions do now, by the cells of the lanes to which they do it.
    pub notes: Vec<CellNotes>,
}

impl EditRun {
    /// A function with a table of what is live in it, before any edit.
    pub fn of(func: Func, table: Table) -> EditRun
        ensures func { result.draft.func ≡ func }
        ensures table { table_of result ≡ table }
        ensures fresh { IsFresh result }
    {
        let Table {
            lanes,
            order,
            flow,
            rows,
        } = table;
        let alloc = rows.alloc;
        EditRun {
            draft: Draft::new(alloc, func, order),
            lanes,
            flow,
            rows: LoggedRows::new(rows),
            touched: Vec::new(alloc),
            gone: BTreeSet::new(alloc),
            aside: Vec::new(alloc),
        }
    }

    /// The function and the table of what is live in it. What could be taken back can't be any more.
    pub fn into_parts(self) -> (Func, Table)
        ensures func { result.0 ≡ self.draft.func }
        ensures table { result.1 ≡ table_of self }
    {
        let EditRun {
            draft,
            lanes,
            flow,
            rows,
            ..
        } = self;
        let Draft { func, order, .. } = draft;
        let LoggedRows { rows, .. } = rows;
        let table = Table {
            lanes,
            order,
            flow,
            rows,
        };
        (func, table)
    }

    /// Does edits one after the other, which stand from the last to the first.
    fn do_all(&mut self, target: &Target, edits: Vec<Edit>) -> Result<(), AllocError>
        ensures done { OnOk result (MayDo target.now self.old (edits_of (reverse edits.items)) → DoesEdits target.now self.old self.new (edits_of (reverse edits.items))) }
        ensures logged { MayDo target.now self.old (edits_of (reverse edits.items)) → IsDraftLogged self.old.draft self.new.draft }
        ensures tables { KeepsTables self.old self.new }
    {
        let mut left = edits;
        'edits: while let Some(edit) = left.pop() {
            self.do_edit(target, edit)?;
        }
        Ok(())
    }

    /// Does edits. Erased instructions still stand then.
    fn do_edits(&mut self, target: &Target, edits: Vec<Edit>) -> Result<(), AllocError>
        ensures done { OnOk result (MayStart target.now self.old (edits_of edits.items) → AreDone target.now (edits_of edits.items) self.old self.new) }
        ensures ranges { self.new.lanes.ranges ≡ self.old.lanes.ranges }
        ensures logged { MayStart target.now self.old (edits_of edits.items) → IsRunLogged target.now self.old self.new }
    {
        self.add_slots(edits.as_slice())?;
        let mut turned = edits;
        turned.reverse();
        self.do_all(target, turned)?;
        // The numbers of all instructions fit 64 bits.
        let _highest = self.draft.highest();
        Ok(())
    }

    /// Makes the cells of touched lanes anew, and brings the pieces up to date. It answers the notes by
    /// which the cells were made.
    fn bring_up(&mut self) -> Result<Vec<CellNotes>, AllocError>
        ensures brings { OnOk result ((t : Target) → TellLatest t self.old.draft.func (number_in self.old.lanes) self.old.gone.keys self.old.touched.items → BringsUp t self.old self.new) }
        ensures told { IfOk result (λ all. IsNotedAndLogged self.old.rows.rows.rows.items self.new.rows.rows.rows.items self.new.rows.log.items all.items) }
        ensures kept { ChangesRows self.old self.new }
        ensures logged { IsLogged self.old.rows self.new.rows }
    {
        let alloc = self.rows.rows.alloc;
        let all = notes_of(alloc, self.touched.as_slice())?;
        if !are_below(all.as_slice(), self.rows.rows.rows.len()) {
            return Err(AllocError);
        }
        self.rows.make_room(self.touched.len().saturating_mul(16))?;
        self.rows
            .remake_all(&self.draft.order.slots, all.as_slice())?;
        let suspects = self.suspects(all.as_slice())?;
        let ids = ids_of(alloc, self.touched.as_slice())?;
        self.rows.update(
            &self.draft.order,
            self.flow.as_slice(),
            suspects.as_slice(),
            &ids,
        )?;
        Ok(all)
    }

    /// The ids of the erased instructions.
    fn erased(&self) -> Result<Vec<u32>, AllocError>
        ensures { IfOk result (λ ids. ids.items ≡ self.now.gone.keys) }
    {
        self.gone.iter().copied().collect(self.rows.rows.alloc)
    }

    /// Does edits and brings the pieces up to date.
    fn try_all(&mut self, target: &Target, edits: Vec<Edit>) -> Result<EditOutcome, AllocError>
        ensures done { IfOk result (λ made. MayStart target.now self.old (edits_of edits.items) → IsDone target.now (edits_of edits.items) self.old self.new made.erased.items) }
        ensures told { IfOk result (λ made. MayStart target.now self.old (edits_of edits.items) → IsNotedAndLogged self.old.rows.rows.rows.items self.new.rows.rows.rows.items self.new.rows.log.items made.notes.items) }
        ensures ranges { self.new.lanes.ranges ≡ self.old.lanes.ranges }
        ensures logged { MayStart target.now self.old (edits_of edits.items) → IsRunLogged target.now self.old self.new }
    {
        self.do_edits(target, edits)?;
        let notes = self.bring_up()?;
        let erased = self.erased()?;
        Ok(EditOutcome { erased, notes })
    }

    /// Does edits as `try_all` does, over emptied rows of a range that they leave nowhere, if one is given.
    fn try_all_of(
        &mut self,
        target: &Target,
        edits: Vec<Edit>,
        v: Option<u32>,
    ) -> Result<EditOutcome, AllocError>
        ensures done { IfOk result (λ made. MayBegin target.now self.old (edits_of edits.items) → IsDoneOf target.now (edits_of edits.items) self.old self.new made.erased.items) }
        ensures told { IfOk result (λ made. MayBegin target.now self.old (edits_of edits.items) → IsToldBy self.old self.new v made.notes.items) }
        ensures ranges { self.new.lanes.ranges ≡ self.old.lanes.ranges }
        ensures logged { MayBegin target.now self.old (edits_of edits.items) → IsLoggedOf target.now self.old self.new }
    {
        self.clear_range(edits.as_slice(), v)?;
        self.try_all(target, edits)
    }

    /// Empties the logs and what is noted of edits.
    fn forget(&mut self)
        ensures fresh { IsFresh self.new }
        ensures func { self.new.draft.func ≡ self.old.draft.func }
        ensures order { self.new.draft.order ≡ self.old.draft.order }
        ensures lanes { self.new.lanes ≡ self.old.lanes }
        ensures flow { self.new.flow ≡ self.old.flow }
        ensures rows { self.new.rows.rows ≡ self.old.rows.rows }
    {
        self.draft.log.clear();
        self.rows.log.clear();
        self.touched.clear();
        self.gone.clear();
        self.aside.clear();
    }

    /// Keeps all that was done, and lets erased instructions go.
    pub(crate) fn keep(&mut self, erased: &[u32])
        ensures { LetsAllGo self.old self.new erased.now }
    {
        self.draft.finish(erased);
        let _next = next_id(&self.draft.func);
        self.forget();
    }

    /// Takes all back that is logged, and puts rows back that were taken away. It takes no memory.
    pub(crate) fn take_back(&mut self)
        ensures { IsOrderOf self.old.draft.func self.old.draft.order → HasAllCells self.old.rows.rows.rows.items self.old.rows.log.items
            → AreThere self.old.rows.rows.rows.items self.old.aside.items → IsRunUndone self.old self.new }
    {
        self.rows.take_back();
        self.put_rows_back();
        self.draft.take_back();
        // Ids fit 32 bits, and the numbers of all instructions 64.
        let _next = next_id(&self.draft.func);
        let _highest = self.draft.highest();
        self.forget();
    }

    /// Does edits, all or none. They can still be taken back then, and erased instructions still stand.
    pub(crate) fn begin(
        &mut self,
        target: &Target,
        edits: Vec<Edit>,
        v: Option<u32>,
    ) -> Result<EditOutcome, AllocError>
        ensures done { IfOk result (λ made. MayBegin target.now self.old (edits_of edits.items) → IsDoneOf target.now (edits_of edits.items) self.old self.new made.erased.items) }
        ensures told { IfOk result (λ made. MayBegin target.now self.old (edits_of edits.items) → IsToldBy self.old self.new v made.notes.items) }
        ensures ranges { MayBegin target.now self.old (edits_of edits.items) → self.new.lanes.ranges ≡ self.old.lanes.ranges }
        ensures logged { OnOk result (MayBegin target.now self.old (edits_of edits.items) → IsLoggedOf target.now self.old self.new) }
        ensures err { OnErr result (MayBegin target.now self.old (edits_of edits.items) → HasTable target.now self.old.draft.func self.new) }
        ensures seen { OnErr result (MayBegin target.now self.old (edits_of edits.items) → (l b : ℕ) → rows_seen self.new.rows.rows.rows.items l b ≡ rows_seen self.old.rows.rows.rows.items l b) }
        ensures numbers { MayBegin target.now self.old (edits_of edits.items) → KeepsNumbers (number_in self.old.lanes) (number_in self.new.lanes) }
    {
        match self.try_all_of(target, edits, v) {
            Ok(made) => Ok(made),
            Err(e) => {
                self.take_back();
                Err(e)
            }
        }
    }

    /// Does all edits to the function and brings what is live in it up to date. It is done sooner where
    /// they replace or erase all that names a range and bring nothing that does: its rows are taken away
    /// whole then, if it is given. Where memory is short, the function is as before, and the pieces are
    /// its pieces still.
    pub fn edit_all(
        &mut self,
        target: &Target,
        edits: Vec<Edit>,
        v: Option<u32>,
    ) -> Result<(), AllocError>
        ensures ok { OnOk result (MayBegin target.now self.old (edits_of edits.items) → HasTable target.now (all_edited self.old.draft.func (edits_of edits.items)) self.new) }
        ensures err { OnErr result (MayBegin target.now self.old (edits_of edits.items) → HasTable target.now self.old.draft.func self.new) }
        ensures numbers { MayBegin target.now self.old (edits_of edits.items) → KeepsNumbers (number_in self.old.lanes) (number_in self.new.lanes) }
    {
        let made = self.begin(target, edits, v)?;
        self.keep(made.erased.as_slice());
        Ok(())
    }
}
