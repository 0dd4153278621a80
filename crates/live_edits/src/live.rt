//! Edits of a function with what is live in it, which are kept or taken back, and joins of its ranges.

ghost use Rattle.std.specs.Prelude.{◌≡◌, ℕ, false, List, [], IfOk, OnOk, OnErr};
ghost use Rattle.slot_index.specs.Order.{number_of};
ghost use Rattle.mir_meaning.specs.Paths.{has};
ghost use Rattle.live_lanes.specs.Entered.{rows_seen};
ghost use Rattle.live_lanes.specs.Extents.{extents_in};
ghost use Rattle.edit_laws.specs.Edits.{all_edited};
ghost use Rattle.live_edits.specs.Drafts.{KeepsOrder};
ghost use Rattle.live_edits.specs.EditedRuns.{IsFresh, MayBegin, HasTable, IsDoneOf, IsLoggedOf};
ghost use Rattle.live_edits.specs.Folded.{folded};
ghost use Rattle.live_edits.specs.LiveRuns.{IsRunOf, HasLogs, IsExact, MayBeEditedLive, MayBeFoldedLive, IsBegun};
ghost use Rattle.live_edits.specs.Runs.{edits_of, table_of};
ghost use Rattle.live_edits.specs.Told.{TellsPieces};

use crate::aside::AsideRow;
use crate::draft::{Draft, FormerInstr};
use crate::edit::Edit;
use crate::edit_run::EditRun;
use crate::fold::Join;
use crate::log::{Former, LoggedRows};
use instr_effects::lanes::LaneTable;
use live_lanes::order::Order;
use live_lanes::table::{LaneRanges, Table};
use live_lanes::{ChangedPiece, LiveFunc};
use mir_func::{Block, Func};
use slot_index::Slots;
use std::alloc::{AllocError, Global};
use std::collections::BTreeMap;
use std::mem;
use target_base::{BoxedList, List, Target};

/// What takes edits back, which asks for no memory.
#[derive(Drop)]
pub struct EditLogs {
    draft: Vec<FormerInstr>,
    rows: Vec<Former>,
    aside: Vec<AsideRow>,
    /// What stands in the place of the edited function meanwhile.
    spare: Func,
}

/// What a list of edits changed, until it is kept or taken back.
#[derive(Drop)]
pub struct EditChanges {
    logs: EditLogs,
    erased: Vec<u32>,
    pieces: Vec<ChangedPiece>,
}

impl EditChanges {
    /// The pieces that were changed, or came or went.
    pub fn pieces(&self) -> &[ChangedPiece]
        ensures { result.now ≡ self.now.pieces.items }
    {
        self.pieces.as_slice()
    }
}

/// A block without instructions.
fn spare_block(alloc: Global) -> Block
    ensures { result.instrs ≡ [] }
{
    Block {
        number: 0,
        name: List::new(alloc),
        attributes: List::new(alloc),
        successors: List::new(alloc),
        liveins: List::new(alloc),
        instrs: BoxedList::new(alloc),
    }
}

/// A function of one block without instructions.
fn spare_func(alloc: Global) -> Result<Func, AllocError> {
    let mut blocks = List::new(alloc);
    blocks.push(spare_block(alloc))?;
    Ok(Func {
        name: List::new(alloc),
        head: List::new(alloc),
        classes: List::new(alloc),
        frames: List::new(alloc),
        blocks,
        next_id: 0,
    })
}

/// A table without lanes and instructions.
fn spare_table(alloc: Global) -> Table {
    Table {
        lanes: LaneTable {
            owners: Vec::new(alloc),
            reserved: Vec::new(alloc),
            ranges: Vec::new(alloc),
            slots: BTreeMap::new(alloc),
        },
        order: Order {
            slots: Slots::new(alloc),
            block_of: Vec::new(alloc),
            positions: BTreeMap::new(alloc),
        },
        flow: Vec::new(alloc),
        rows: LaneRanges {
            alloc,
            rows: Vec::new(alloc),
        },
    }
}

/// The run of a function and its table. The spare function and an empty table stand in their place until
/// they are given back.
fn take_run(live: &mut LiveFunc, spare: Func) -> EditRun
    ensures run { IsRunOf result live.old }
    ensures fresh { IsFresh result }
    ensures target { live.new.target ≡ live.old.target }
{
    let alloc = live.table.rows.alloc;
    let func = mem::replace(&mut live.func, spare);
    let table = mem::replace(&mut live.table, spare_table(alloc));
    EditRun::of(func, table)
}

/// Gives back the function and the table of a run, and answers what takes back what it did.
fn give_back(live: &mut LiveFunc, run: EditRun) -> EditLogs
    ensures run { IsRunOf run live.new }
    ensures logs { HasLogs run result }
    ensures target { live.new.target ≡ live.old.target }
{
    let EditRun {
        draft,
        lanes,
        flow,
        rows,
        aside,
        ..
    } = run;
    let Draft { func, order, log } = draft;
    let LoggedRows {
        rows,
        log: former_rows,
    } = rows;
    live.table = Table {
        lanes,
        order,
        flow,
        rows,
    };
    EditLogs {
        draft: log,
        rows: former_rows,
        aside,
        spare: mem::replace(&mut live.func, func),
    }
}

/// Does edits and tells the pieces that they changed, all or none.
fn begin_run(
    run: &mut EditRun,
    target: &Target,
    edits: Vec<Edit>,
    v: Option<u32>,
) -> Result<(Vec<u32>, Vec<ChangedPiece>), AllocError>
    ensures done { IfOk result (λ made. MayBegin target.now run.old (edits_of edits.items) → IsDoneOf target.now (edits_of edits.items) run.old run.new made.0.items) }
    ensures told { IfOk result (λ made. MayBegin target.now run.old (edits_of edits.items) → TellsPieces (table_of run.old) (table_of run.new) v made.1.items) }
    ensures ranges { MayBegin target.now run.old (edits_of edits.items) → run.new.lanes.ranges ≡ run.old.lanes.ranges }
    ensures logged { OnOk result (MayBegin target.now run.old (edits_of edits.items) → IsLoggedOf target.now run.old run.new) }
    ensures err { OnErr result (MayBegin target.now run.old (edits_of edits.items) → HasTable target.now run.old.draft.func run.new) }
    ensures seen { OnErr result (MayBegin target.now run.old (edits_of edits.items) → (l b : ℕ) → rows_seen run.new.rows.rows.rows.items l b ≡ rows_seen run.old.rows.rows.rows.items l b) }
{
    let made = run.begin(target, edits, v)?;
    match run.changed_pieces(made.notes.as_slice()) {
        Ok(pieces) => Ok((made.erased, pieces)),
        Err(e) => {
            run.take_back();
            Err(e)
        }
    }
}

/// Does edits in order, which are then to be kept or taken back. Until then an instruction that is to
/// go still stands in the function, but does nothing to lanes. It is done sooner where they replace or
/// erase all that names a range and bring nothing that does, if it is given; its pieces aren't told
/// then. After a refusal the function is as before.
pub fn begin_edits(
    live: &mut LiveFunc,
    edits: Vec<Edit>,
    v: Option<u32>,
) -> Result<EditChanges, AllocError>
    ensures ok { IfOk result (λ changes. MayBeEditedLive live.old (edits_of edits.items) → IsBegun (edits_of edits.items) live.old live.new changes) }
    ensures told { IfOk result (λ changes. MayBeEditedLive live.old (edits_of edits.items) → TellsPieces live.old.table live.new.table v changes.pieces.items) }
    ensures order { OnOk result (MayBeEditedLive live.old (edits_of edits.items) → KeepsOrder live.old.table.order.slots live.new.table.order.slots) }
    ensures ranges { MayBeEditedLive live.old (edits_of edits.items) → live.new.table.lanes.ranges ≡ live.old.table.lanes.ranges }
    ensures err { OnErr result (MayBeEditedLive live.old (edits_of edits.items) → IsExact live.old.target live.old.func live.new) }
    ensures extents { OnErr result (MayBeEditedLive live.old (edits_of edits.items) → (l b : ℕ) → extents_in live.new.table l b ≡ extents_in live.old.table l b) }
    ensures target { live.new.target ≡ live.old.target }
{
    let spare = spare_func(live.table.rows.alloc)?;
    let mut run = take_run(live, spare);
    let outcome = begin_run(&mut run, live.target.get(), edits, v);
    let logs = give_back(live, run);
    match outcome {
        Ok(made) => {
            let (erased, pieces) = made;
            Ok(EditChanges {
                logs,
                erased,
                pieces,
            })
        }
        Err(e) => Err(e),
    }
}

/// Keeps what edits changed.
pub fn commit(live: &mut LiveFunc, changes: EditChanges)
    ensures exact { (edits : List Edit) (before : LiveFunc) → IsBegun (edits_of edits) before live.old changes → IsExact before.target (all_edited before.func (edits_of edits)) live.new }
    ensures rows { live.new.table.rows ≡ live.old.table.rows }
    ensures lanes { live.new.table.lanes ≡ live.old.table.lanes }
    ensures numbers { (edits : List Edit) (before : LiveFunc) → IsBegun (edits_of edits) before live.old changes
        → (id : ℕ) → has id changes.erased.items ≡ false → number_of live.new.table.order.slots id ≡ number_of live.old.table.order.slots id }
    ensures target { live.new.target ≡ live.old.target }
{
    let EditChanges { logs, erased, .. } = changes;
    let EditLogs { spare, .. } = logs;
    let mut run = take_run(live, spare);
    run.keep(erased.as_slice());
    let _ = give_back(live, run);
}

/// Takes back what edits changed.
pub fn roll_back(live: &mut LiveFunc, changes: EditChanges)
    ensures exact { (edits : List Edit) (before : LiveFunc) → IsBegun (edits_of edits) before live.old changes → IsExact before.target before.func live.new }
    ensures extents { (edits : List Edit) (before : LiveFunc) → IsBegun (edits_of edits) before live.old changes → (l b : ℕ) → extents_in live.new.table l b ≡ extents_in before.table l b }
    ensures lanes { (edits : List Edit) (before : LiveFunc) → IsBegun (edits_of edits) before live.old changes → live.new.table.lanes ≡ live.old.table.lanes }
    ensures target { live.new.target ≡ live.old.target }
{
    let EditChanges { logs, .. } = changes;
    let EditLogs {
        draft,
        rows,
        aside,
        spare,
    } = logs;
    let mut run = take_run(live, spare);
    run.draft.log = draft;
    run.rows.log = rows;
    run.aside = aside;
    run.take_back();
    let _ = give_back(live, run);
}

/// Lets a range, or its lanes of an index, stand for another one in all operands. These are the
/// instructions that touch the range that goes, as `touched` answers them. Copies that become identities
/// go. After a refusal the function is as before.
pub fn fold(live: &mut LiveFunc, touched: &[u32], join: Join) -> Result<(), AllocError>
    ensures ok { OnOk result (MayBeFoldedLive live.old join touched.now → IsExact live.old.target (folded live.old.target join live.old.func) live.new) }
    ensures err { OnErr result (MayBeFoldedLive live.old join touched.now → IsExact live.old.target live.old.func live.new) }
    ensures target { live.new.target ≡ live.old.target }
{
    let spare = spare_func(live.table.rows.alloc)?;
    let mut run = take_run(live, spare);
    let outcome = run.fold(live.target.get(), touched, join);
    let _ = give_back(live, run);
    outcome
}
