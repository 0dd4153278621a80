//! What assigned ranges hold of each unit, in lists by blocks.

ghost use Rattle.std.specs.Prelude.{◌≡◌, ◌<◌, ◌≤◌, ◌++◌, ℕ, [], true, false, length, IfOk, OnOk, OnErr, option_copied, slice_get, Some, None};
ghost use Rattle.std.specs.List.{list_any, list_all, cons_option};
ghost use Rattle.target_base.specs.Registers.{units_of};
ghost use Rattle.live_lanes.specs.Entered.{cells_of};
ghost use Rattle.live_lanes.specs.Extents.{some_extents};
ghost use Rattle.interference.specs.Clashes.{AreApart, AreFilled, held_of, list_in};
ghost use Rattle.interference.specs.ChangedLists.{PutsPiece, TakesPiece};
ghost use Rattle.interference.specs.SavedLists.{parts_at, IsPutBack, IsRestored, LogsRow, PutsBack};
ghost use Rattle.interference.specs.declared.unit_table.UnitTable.{UnitTable};
ghost use Rattle.interference.specs.Changes.{own_of};
ghost use Rattle.interference.specs.Listed.{range_extents, IsThinned, IsKept, IsBegun, IsFilled, IsClear, ChangesRow, ChangesAt, ChangesCell, lane_lots, range_lots, with_lane, Thins, LaneHasRoom, RangeHasRoom, Begins, Fills};
ghost use Rattle.interference.specs.Parts.{has_lists};
ghost use Rattle.interference.specs.Wide.{is_wide};

use crate::held::HeldList;
use crate::saved_lists::{AssignedPiece, SavedList};
use live_lanes::{Extent, LiveFunc};
use slot_index::Slots;
use std::alloc::{AllocError, Global};
use target_base::Reg;

/// What ranges hold of a unit, by the positions of blocks in the layout.
#[derive(Drop)]
pub struct UnitExtents {
    blocks: Vec<HeldList>,
}

/// What ranges hold of each unit.
#[derive(Drop)]
pub struct UnitTable {
    units: Vec<UnitExtents>,
}

#[tactic(auto, using(crate::proofs::Empty::empties))]
fn empty_unit(alloc: Global, blocks: usize) -> Result<UnitExtents, AllocError>
    ensures none { IfOk result (λ r. has_lists r ≡ false) }
    ensures wide { IfOk result (λ r. is_wide blocks r ≡ true) }
{
    let mut lists = Vec::new(alloc);
    'each: for _ in 0..blocks {
        lists.push(HeldList::new(alloc))?;
    }
    Ok(UnitExtents { blocks: lists })
}

impl UnitTable {
    #[tactic(auto, using(crate::proofs::Empty::empties))]
    pub(crate) fn new(alloc: Global, units: usize, blocks: usize) -> Result<UnitTable, AllocError>
        ensures none { IfOk result (λ a. list_any has_lists a.units.items ≡ false) }
        ensures count { IfOk result (λ a. length a.units.items ≡ units) }
        ensures wide { IfOk result (λ a. list_all (is_wide blocks) a.units.items ≡ true) }
    {
        let mut all = Vec::new(alloc);
        'each: for _ in 0..units {
            all.push(empty_unit(alloc, blocks)?)?;
        }
        Ok(UnitTable { units: all })
    }

    pub(crate) fn list(&self, unit: u32, block: u32) -> Option<&HeldList>
        ensures { option_copied result ≡ list_in self.now unit block }
    {
        self.units.get(unit as usize)?.blocks.get(block as usize)
    }

    /// Takes away the points of the range of a piece that begin with an instruction or with the block.
    pub(crate) fn take_piece(
        &mut self,
        slots: &Slots,
        at: &AssignedPiece,
        start: Option<u32>,
        log: &mut Vec<SavedList>,
    ) -> Result<(), AllocError>
        ensures ok { OnOk result (ChangesAt (TakesPiece slots.now at.now.range start) at.now.unit at.now.piece.block self.old self.new) }
        ensures back { (start : UnitTable) → PutsBack start log.old.items self.old → PutsBack start log.new.items self.new }
    {
        let unit = at.unit as usize;
        if unit >= self.units.len() {
            return Ok(());
        }
        take_in(&mut self.units[unit].blocks, slots, at, start, log)
    }

    /// Adds points of the range of a piece, in the place of those that begin so.
    pub(crate) fn replace_piece(
        &mut self,
        slots: &Slots,
        at: &AssignedPiece,
        extent: Extent,
        log: &mut Vec<SavedList>,
    ) -> Result<(), AllocError>
        ensures ok { OnOk result (ChangesAt (PutsPiece slots.now at.now.range extent) at.now.unit at.now.piece.block self.old self.new) }
        ensures back { (start : UnitTable) → PutsBack start log.old.items self.old → PutsBack start log.new.items self.new }
    {
        let unit = at.unit as usize;
        if unit >= self.units.len() {
            return Ok(());
        }
        replace_in(&mut self.units[unit].blocks, slots, at, extent, log)
    }

    /// Puts back what stood in a list.
    pub(crate) fn restore(&mut self, saved: SavedList)
        ensures { IsPutBack saved (parts_at self.old) (parts_at self.new) }
    {
        let unit = saved.unit as usize;
        if unit >= self.units.len() {
            return;
        }
        restore_in(&mut self.units[unit].blocks, saved);
    }

    /// Adds the points of a lane of a range in the block of a cell.
    fn add_cell(
        &mut self,
        live: &LiveFunc,
        range: u32,
        unit: u32,
        lane: u32,
        place: usize,
    ) -> Result<(), AllocError>
        ensures ok { OnOk result (ChangesCell (IsFilled live.now.table.order.slots range) unit (slice_get (cells_of live.now.table.rows.rows.items lane) place) self.old self.new) }
        ensures err { OnErr result (ChangesCell (IsBegun live.now.table.order.slots range) unit (slice_get (cells_of live.now.table.rows.rows.items lane) place) self.old self.new) }
    {
        let Some(block) = live.cell_block(lane, place) else {
            return Ok(());
        };
        let at = unit as usize;
        if at >= self.units.len() {
            return Ok(());
        }
        add_in(&mut self.units[at].blocks, live, range, lane, place, block)?;
        Ok(())
    }

    /// Adds the points of a lane of a range, if there is such a lane.
    fn add_lane(
        &mut self,
        live: &LiveFunc,
        range: u32,
        unit: u32,
        lane: Option<u32>,
    ) -> Result<(), AllocError>
        ensures ok { LaneHasRoom live.now.table range unit lane self.old → OnOk result (Fills live.now.table.order.slots range (with_lane live.now.table range unit lane self.old) self.old self.new) }
        ensures err { LaneHasRoom live.now.table range unit lane self.old → OnErr result (Begins live.now.table.order.slots range (with_lane live.now.table range unit lane self.old) self.old self.new) }
    {
        let Some(number) = lane else {
            return Ok(());
        };
        'cells: for place in 0..live.cell_count(number) {
            self.add_cell(live, range, unit, number, place)?;
        }
        Ok(())
    }

    /// Adds the points of a range in a register.
    pub(crate) fn add_range(&mut self, live: &LiveFunc, v: u32, p: Reg) -> Result<(), AllocError>
        ensures ok { RangeHasRoom live.now.table v (units_of live.now.target p) self.old → OnOk result (Fills live.now.table.order.slots v (range_extents live.now.table v 0 (units_of live.now.target p)) self.old self.new) }
        ensures err { RangeHasRoom live.now.table v (units_of live.now.target p) self.old → OnErr result (Begins live.now.table.order.slots v (range_extents live.now.table v 0 (units_of live.now.target p)) self.old self.new) }
    {
        let mut k = 0usize;
        'units: for u in live.target().units_at(p) {
            self.add_lane(live, v, u.0 as u32, live.lane_of(v, k))?;
            k = k.saturating_add(1);
        }
        Ok(())
    }

    /// Takes away the points of a lane of a range in the block of a cell.
    fn remove_cell(&mut self, live: &LiveFunc, range: u32, unit: u32, lane: u32, place: usize)
        ensures { ChangesCell (IsThinned live.now.table.order.slots range) unit (slice_get (cells_of live.now.table.rows.rows.items lane) place) self.old self.new }
    {
        let Some(block) = live.cell_block(lane, place) else {
            return;
        };
        let at = unit as usize;
        if at >= self.units.len() {
            return;
        }
        remove_in(&mut self.units[at].blocks, live, range, lane, place, block);
    }

    /// Takes away the points of a lane of a range, if there is such a lane.
    fn remove_lane(&mut self, live: &LiveFunc, range: u32, unit: u32, lane: Option<u32>)
        ensures { Thins live.now.table.order.slots range (lane_lots live.now.table unit lane) self.old self.new }
    {
        let Some(number) = lane else {
            return;
        };
        'cells: for place in 0..live.cell_count(number) {
            self.remove_cell(live, range, unit, number, place);
        }
    }

    /// Takes away the points of a range in a register.
    pub(crate) fn remove_range(&mut self, live: &LiveFunc, v: u32, p: Reg)
        ensures { Thins live.now.table.order.slots v (range_lots live.now.table v 0 (units_of live.now.target p)) self.old self.new }
    {
        let mut k = 0usize;
        'units: for u in live.target().units_at(p) {
            self.remove_lane(live, v, u.0 as u32, live.lane_of(v, k));
            k = k.saturating_add(1);
        }
    }
}

/// Takes points away, by the lists of a unit.
fn take_in(
    lists: &mut Vec<HeldList>,
    slots: &Slots,
    at: &AssignedPiece,
    start: Option<u32>,
    log: &mut Vec<SavedList>,
) -> Result<(), AllocError>
    ensures ok { OnOk result (ChangesRow (TakesPiece slots.now at.now.range start) at.now.piece.block lists.old.items lists.new.items) }
    ensures logged { LogsRow at.now log.old.items log.new.items lists.old.items lists.new.items }
{
    let block = at.piece.block as usize;
    if block >= lists.len() {
        return Ok(());
    }
    lists[block].take_piece(slots, at, start, log)
}

/// Adds points in the place of those that begin so, by the lists of a unit.
fn replace_in(
    lists: &mut Vec<HeldList>,
    slots: &Slots,
    at: &AssignedPiece,
    extent: Extent,
    log: &mut Vec<SavedList>,
) -> Result<(), AllocError>
    ensures ok { OnOk result (ChangesRow (PutsPiece slots.now at.now.range extent) at.now.piece.block lists.old.items lists.new.items) }
    ensures logged { LogsRow at.now log.old.items log.new.items lists.old.items lists.new.items }
{
    let block = at.piece.block as usize;
    if block >= lists.len() {
        return Ok(());
    }
    lists[block].replace_piece(slots, at, extent, log)
}

/// Puts back what stood in a list, by the lists of its unit.
fn restore_in(lists: &mut Vec<HeldList>, saved: SavedList)
    ensures { ChangesRow (IsRestored saved.parts) saved.block lists.old.items lists.new.items }
{
    let block = saved.block as usize;
    if block >= lists.len() {
        return;
    }
    lists[block].restore(saved.parts);
}

/// Takes away the points of a piece of a range, where it has any.
fn remove_extent(list: &mut HeldList, slots: &Slots, range: u32, extent: Option<Extent>)
    ensures { IsThinned slots.now range (cons_option extent []) list.old list.new }
{
    let Some(extent) = extent else {
        return;
    };
    list.remove(slots, range, extent.start);
}

/// Takes away the points of the pieces of a lane in a block.
fn remove_extents(list: &mut HeldList, live: &LiveFunc, range: u32, lane: u32, place: usize)
    ensures { IsThinned live.now.table.order.slots range (some_extents (slice_get (cells_of live.now.table.rows.rows.items lane) place)) list.old list.new }
{
    'pieces: for index in 0..live.piece_count(lane, place) {
        remove_extent(list, live.slots(), range, live.extent(lane, place, index));
    }
}

/// Takes away the points of the pieces of a lane in the block at a position, by the lists of a unit.
fn remove_in(
    lists: &mut Vec<HeldList>,
    live: &LiveFunc,
    range: u32,
    lane: u32,
    place: usize,
    block: u32,
)
    ensures { ChangesRow (IsThinned live.now.table.order.slots range (some_extents (slice_get (cells_of live.now.table.rows.rows.items lane) place))) block lists.old.items lists.new.items }
{
    let at = block as usize;
    if at >= lists.len() {
        return;
    }
    remove_extents(&mut lists[at], live, range, lane, place);
}

/// Adds the points of a piece of a range, where it has any. After a refusal nothing is added.
fn add_extent(
    list: &mut HeldList,
    slots: &Slots,
    range: u32,
    extent: Option<Extent>,
) -> Result<(), AllocError>
    ensures ok { AreFilled list.old → AreApart slots.now 0 (held_of list.old) → IsClear slots.now range (held_of list.old) extent → OnOk result (IsKept slots.now range list.old list.new × (own_of range (held_of list.new) ≡ own_of range (held_of list.old) ++ cons_option extent [])) }
    ensures filled { AreFilled list.old → AreFilled list.new }
    ensures err { OnErr result (held_of list.new ≡ held_of list.old) }
{
    if let Some(extent) = extent {
        list.add(slots, range, extent)?;
    }
    Ok(())
}

/// Adds the points of the pieces of a lane in a block.
fn add_extents(
    list: &mut HeldList,
    live: &LiveFunc,
    range: u32,
    lane: u32,
    place: usize,
) -> Result<(), AllocError>
    ensures ok { OnOk result (IsFilled live.now.table.order.slots range (some_extents (slice_get (cells_of live.now.table.rows.rows.items lane) place)) list.old list.new) }
    ensures err { OnErr result (IsBegun live.now.table.order.slots range (some_extents (slice_get (cells_of live.now.table.rows.rows.items lane) place)) list.old list.new) }
{
    'pieces: for index in 0..live.piece_count(lane, place) {
        add_extent(list, live.slots(), range, live.extent(lane, place, index))?;
    }
    Ok(())
}

/// Adds the points of the pieces of a lane in the block at a position to the lists of a unit.
fn add_in(
    lists: &mut Vec<HeldList>,
    live: &LiveFunc,
    range: u32,
    lane: u32,
    place: usize,
    block: u32,
) -> Result<(), AllocError>
    ensures ok { OnOk result (ChangesRow (IsFilled live.now.table.order.slots range (some_extents (slice_get (cells_of live.now.table.rows.rows.items lane) place))) block lists.old.items lists.new.items) }
    ensures err { OnErr result (ChangesRow (IsBegun live.now.table.order.slots range (some_extents (slice_get (cells_of live.now.table.rows.rows.items lane) place))) block lists.old.items lists.new.items) }
{
    let at = block as usize;
    if at >= lists.len() {
        return Ok(());
    }
    add_extents(&mut lists[at], live, range, lane, place)?;
    Ok(())
}
