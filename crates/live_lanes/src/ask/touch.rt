//! The instructions of a function by their ids, and those that touch a range.

ghost use Rattle.std.specs.Prelude.{◌≡◌, ℕ, [], ◌∷◌, ◌++◌, true, Some, IfOk, OnOk, map, nat_eq, is_some, find, option_copied, option_map, slice_get, slice_index, IsTrue};
ghost use Rattle.std.specs.List.{list_any};
ghost use Rattle.std.specs.List.Sorted.{IsStrictlySortedBy};
ghost use Rattle.std.specs.Ordering.{nat_cmp};
ghost use Rattle.std.specs.BTreeMap.{get};
ghost use Rattle.live_lanes.specs.Ends.{row_at};
ghost use Rattle.live_lanes.specs.Entered.{causes};
ghost use Rattle.live_lanes.specs.Graph.{is_live};
ghost use Rattle.live_lanes.specs.Looks.{InOrder, entry_at, exit_at};
ghost use Rattle.live_lanes.specs.Ordered.{ids_of, AreRising};
ghost use Rattle.mir_meaning.specs.Paths.{has};
ghost use Rattle.live_lanes.specs.Ways.{successors as behind};
ghost use Rattle.instr_effects.specs.Numbered.{number_in};
ghost use Rattle.instr_effects.specs.declared.owner.Owner.TheVariants as owners;
ghost use Rattle.live_lanes.specs.Lasting.{reading_counts, shapes};
ghost use Rattle.live_lanes.specs.Table.{begun, readings_in, rises_from, seen_cell};
ghost use Rattle.live_lanes.specs.Touching.{ReadsInOrder, reading_ids, reads_lane, reads_seen, begun_at, begun_by, is_early, leaves_block, some_lane, AreTouched, FindsInstrs, InLine, Meets, layout_key, names_cell, names_lane, names_segment, reads_in, some_below, is_touched, touches_lane};

use crate::compute::flow::successors;
use crate::live::LiveFunc;
use crate::row::{Cell, DefPiece, LaneUse, Piece, entry_rank, exit_rank};
use crate::table::{LaneRanges, Table};
use instr_effects::row::LaneSpan;
use mir_func::{Block, Func, Instr};
use slot_index::Slots;
use std::alloc::{AllocError, Global};
use target_base::Boxed;

/// Instructions, and how many of them were met again.
#[derive(Drop)]
struct TouchList {
    ids: Vec<u32>,
    /// So many of them, from the first, were met in the lane that is gone through.
    met: usize,
    /// Whether one stands behind another that it should stand before.
    is_mixed: bool,
}

/// A number of an instruction, which rises along the layout. No two instructions have the same.
fn layout_key(slots: &Slots, id: u32) -> u128
    ensures { result ≡ layout_key slots.now id }
{
    slots.number(id) as u128 * 4294967296 + id as u128
}

impl TouchList {
    /// Whether that instruction is the one at a place.
    fn has_at(&self, place: usize, id: u32) -> bool
        ensures { result ≡ true → has id self.now.ids.items ≡ true }
    {
        match self.ids.get(place) {
            Some(other) => *other == id,
            None => false,
        }
    }

    /// Whether an instruction is the one that was met last, or the next one, which is met then.
    fn is_next(&mut self, id: u32) -> bool
        ensures ids { self.new.ids ≡ self.old.ids }
        ensures mixed { self.new.is_mixed ≡ self.old.is_mixed }
        ensures found { result ≡ true → has id self.old.ids.items ≡ true }
    {
        if self.met > 0 && self.has_at(self.met - 1, id) {
            return true;
        }
        if self.has_at(self.met, id) {
            self.met = self.met.saturating_add(1);
            return true;
        }
        false
    }

    /// Whether an instruction should stand behind the last one.
    fn is_behind(&self, slots: &Slots, id: u32) -> bool
        ensures { result ≡ true → IsStrictlySortedBy nat_cmp (map (layout_key slots.now) self.now.ids.items)
            → IsStrictlySortedBy nat_cmp (map (layout_key slots.now) (self.now.ids.items ++ id ∷ [])) }
    {
        match self.ids.last() {
            Some(last) => layout_key(slots, *last) < layout_key(slots, id),
            None => true,
        }
    }

    /// Adds an instruction behind the others, where it isn't the last one.
    fn add(&mut self, slots: &Slots, id: u32) -> Result<(), AllocError>
        ensures { OnOk result (Meets slots.now self.old self.new (nat_eq id)) }
    {
        if !self.ids.is_empty() && self.has_at(self.ids.len() - 1, id) {
            return Ok(());
        }
        self.is_mixed |= !self.is_behind(slots, id);
        self.ids.push(id)?;
        Ok(())
    }

    /// Meets an instruction. Where lanes are named together, it is among those that were found in
    /// the lane before.
    fn meet(&mut self, slots: &Slots, id: u32) -> Result<(), AllocError>
        ensures { OnOk result (Meets slots.now self.old self.new (nat_eq id)) }
    {
        if self.is_next(id) {
            return Ok(());
        }
        self.add(slots, id)
    }

    /// Meets the instructions of readings.
    fn meet_readings(&mut self, slots: &Slots, readings: &[LaneUse]) -> Result<(), AllocError>
        ensures { OnOk result (Meets slots.now self.old self.new (λ x. reads_in x readings.now)) }
    {
        'readings: for reading in readings {
            self.meet(slots, reading.id)?;
        }
        Ok(())
    }

    /// Meets the instruction that begins a piece, and those of its readings.
    fn meet_segment(&mut self, slots: &Slots, segment: &DefPiece) -> Result<(), AllocError>
        ensures { OnOk result (Meets slots.now self.old self.new (λ x. names_segment x segment.now)) }
    {
        self.meet(slots, segment.start)?;
        self.meet_readings(slots, segment.piece.readings.as_slice())
    }

    /// The same of several pieces.
    fn meet_segments(&mut self, slots: &Slots, segments: &[DefPiece]) -> Result<(), AllocError>
        ensures { OnOk result (Meets slots.now self.old self.new (λ x. list_any (names_segment x) segments.now)) }
    {
        'segments: for segment in segments {
            self.meet_segment(slots, segment)?;
        }
        Ok(())
    }

    /// Meets the instructions that name a lane in a cell.
    fn meet_cell(&mut self, slots: &Slots, cell: &Cell) -> Result<(), AllocError>
        ensures { OnOk result (Meets slots.now self.old self.new (λ x. names_cell x cell.now)) }
    {
        self.meet_readings(slots, cell.first.readings.as_slice())?;
        self.meet_segments(slots, cell.segments.as_slice())
    }

    /// Meets the instructions that name a lane with these cells, which go from the last block to the
    /// first.
    fn meet_lane(&mut self, slots: &Slots, cells: &[Cell]) -> Result<(), AllocError>
        ensures { OnOk result (Meets slots.now self.old self.new (λ x. list_any (names_cell x) cells.now)) }
    {
        self.met = 0;
        'cells: for cell in cells.iter().rev() {
            self.meet_cell(slots, cell)?;
        }
        Ok(())
    }

    /// Meets the instructions that name one of these lanes.
    fn meet_lanes(&mut self, table: &Table, own: LaneSpan) -> Result<(), AllocError>
        ensures { OnOk result (Meets table.now.order.slots self.old self.new
            (λ x. some_below (names_lane x table.now.rows.rows.items) own.first own.count)) }
    {
        'lanes: for k in 0..own.count {
            self.meet_lane(&table.order.slots, table.rows.cells(own.first + k))?;
        }
        Ok(())
    }

    /// The instructions in layout order, each once.
    fn in_order(self, slots: &Slots) -> Vec<u32>
        ensures named { (x : ℕ) → has x result.items ≡ has x self.ids.items }
        ensures order { InLine slots.now self → IsStrictlySortedBy nat_cmp (map (layout_key slots.now) result.items) }
    {
        let TouchList {
            mut ids,
            is_mixed,
            ..
        } = self;
        if !is_mixed {
            return ids;
        }
        put_in_order(&mut ids, slots);
        ids
    }
}

/// Puts instructions in layout order, each once.
fn put_in_order(ids: &mut Vec<u32>, slots: &Slots)
    ensures named { (x : ℕ) → has x ids.new.items ≡ has x ids.old.items }
    ensures order { IsStrictlySortedBy nat_cmp (map (layout_key slots.now) ids.new.items) }
{
    ids.sort_unstable_by_key(|id| layout_key(slots, *id));
    ids.dedup();
}

impl Table {
    /// The place of an instruction among those of the block at a position.
    fn place_in(&self, func: &Func, block: u32, id: u32) -> usize
        ensures { (b : Block) → slice_get func.now.blocks block ≡ Some b → AreRising self.now.order.slots 0 (ids_of b.instrs)
            → (j : ℕ) (i : Instr) → slice_get b.instrs j ≡ Some i → i.id ≡ id → result ≡ j }
    {
        match func.blocks.as_slice().get(block as usize) {
            Some(here) => self.order.place(here.instrs.as_slice(), id),
            None => 0,
        }
    }

    /// The instruction of an id among those of a block.
    fn instr_among<'a>(&self, instrs: &'a [Boxed<Instr>], id: u32) -> Option<&'a Instr>
        ensures { AreRising self.now.order.slots 0 (ids_of instrs.now) → (j : ℕ) (i : Instr) → slice_get instrs.now j ≡ Some i → i.id ≡ id → option_copied result ≡ Some i }
    {
        let at = self.order.place(instrs, id);
        if at >= instrs.len() {
            return None;
        }
        let instr = instrs[at].get();
        if instr.id != id {
            return None;
        }
        Some(instr)
    }

    /// The instruction of an id in these blocks.
    fn instr<'a>(&self, blocks: &'a [Block], id: u32) -> Option<&'a Instr>
        ensures { FindsInstrs self.now blocks.now → (p j : ℕ) (b : Block) (i : Instr) → slice_get blocks.now p ≡ Some b
            → slice_get b.instrs j ≡ Some i → i.id ≡ id → option_copied result ≡ Some i }
    {
        let position = self.order.block_of(id) as usize;
        if position >= blocks.len() {
            return None;
        }
        self.instr_among(blocks[position].instrs.as_slice(), id)
    }
}

impl LiveFunc {
    /// The instructions that touch a range, by their ids, in layout order, each once: those that
    /// name it in an operand other than an `undef` use.
    pub fn touched(&self, alloc: Global, v: u32) -> Result<Vec<u32>, AllocError>
        ensures { IfOk result (λ ids. AreTouched self.now.table v ids.items) }
    {
        let mut found = TouchList {
            ids: Vec::new(alloc),
            met: 0,
            is_mixed: false,
        };
        found.meet_lanes(&self.table, self.table.lanes.of_range(v))?;
        Ok(found.in_order(&self.table.order.slots))
    }

    /// Whether some instruction touches a range.
    pub fn is_touched(&self, v: u32) -> bool
        ensures { result ≡ some_lane self.now.table v (touches_lane self.now.table.rows.rows.items) }
    {
        self.table
            .rows
            .is_some_touched(self.table.lanes.of_range(v))
    }

    /// The instruction of an id.
    pub fn instr(&self, id: u32) -> Option<&Instr>
        ensures { FindsInstrs self.now.table self.now.func.blocks → (p j : ℕ) (b : Block) (i : Instr) → slice_get self.now.func.blocks p ≡ Some b
            → slice_get b.instrs j ≡ Some i → i.id ≡ id → option_copied result ≡ Some i }
    {
        self.table.instr(self.func.blocks.as_slice(), id)
    }

    /// The position in the layout of the block of an instruction.
    pub fn position_of(&self, id: u32) -> u32
        ensures { result ≡ slice_index self.now.table.order.block_of.items id }
    {
        self.table.order.block_of(id)
    }

    /// The place of an instruction among those of its block.
    pub fn place_of(&self, id: u32) -> usize
        ensures { FindsInstrs self.now.table self.now.func.blocks → (p j : ℕ) (b : Block) (i : Instr) → slice_get self.now.func.blocks p ≡ Some b
            → slice_get b.instrs j ≡ Some i → i.id ≡ id → result ≡ j }
    {
        self.table
            .place_in(&self.func, self.table.order.block_of(id), id)
    }

    /// The position in the layout of the block of that number; of several, that of the first.
    pub fn block_position(&self, number: u32) -> Option<u32>
        ensures { result ≡ get nat_cmp self.now.table.order.positions number }
    {
        self.table.order.position(number)
    }
}

impl LiveFunc {
    /// Whether an instruction reads a lane of a range: whatever is live behind it, or since it moves
    /// the lane to where it is live.
    pub fn is_read(&self, v: u32, k: u32, id: u32) -> bool
        ensures { InOrder self.now.table → ReadsInOrder self.now.table → result ≡ reads_lane self.now.table (number_in self.now.table.lanes (owners.Range v k)) id }
    {
        let Some(lane) = self.table.lanes.of_range(v).lane(k) else {
            return false;
        };
        let block = self.table.order.block_of(id);
        match self.table.rows.cell(lane, block) {
            Some(cell) => self.table.is_read_in(cell, block, id),
            None => false,
        }
    }

    /// The piece of a lane of a range that an instruction begins.
    fn segment_of(&self, v: u32, k: u32, id: u32) -> Option<&DefPiece>
        ensures { InOrder self.now.table → option_map begun (option_copied result) ≡ begun_at self.now.table (number_in self.now.table.lanes (owners.Range v k)) id }
    {
        let Some(lane) = self.table.lanes.of_range(v).lane(k) else {
            return None;
        };
        let order = &self.table.order;
        match self.table.rows.cell(lane, order.block_of(id)) {
            Some(cell) => cell.segment_of(&order.slots, id),
            None => None,
        }
    }

    /// Whether an instruction writes a lane of a range.
    pub fn is_written(&self, v: u32, k: u32, id: u32) -> bool
        ensures { InOrder self.now.table → result ≡ is_some (begun_at self.now.table (number_in self.now.table.lanes (owners.Range v k)) id) }
    {
        self.segment_of(v, k, id).is_some()
    }

    /// Whether an instruction writes a lane of a range early, so that it is occupied at the entry.
    pub fn is_written_early(&self, v: u32, k: u32, id: u32) -> bool
        ensures { InOrder self.now.table → result ≡ is_early (begun_at self.now.table (number_in self.now.table.lanes (owners.Range v k)) id) }
    {
        match self.segment_of(v, k, id) {
            Some(segment) => segment.early,
            None => false,
        }
    }

    /// The positions of the blocks behind the one at a position.
    pub fn successors(&self, position: u32) -> &[u32]
        ensures { result.now ≡ behind self.now.table.flow.items position }
    {
        successors(self.table.flow.as_slice(), position)
    }

    /// Whether some lane of a range is live at the start of the block at a position.
    pub fn is_live_into(&self, v: u32, position: u32) -> bool
        ensures { result ≡ some_lane self.now.table v (λ l. is_live (causes self.now.table.rows.rows.items l position 0)) }
    {
        self.table
            .rows
            .is_some_live_in(self.table.lanes.of_range(v), position)
    }
}

impl Cell {
    /// Whether some instruction reads or writes the lane here.
    fn is_touched(&self) -> bool
        ensures { result ≡ is_touched self.now }
    {
        self.first.readings.len() > 0 || self.segments.len() > 0
    }
}

impl LaneRanges {
    /// Whether some instruction reads or writes a lane.
    fn is_touched(&self, lane: u32) -> bool
        ensures { result ≡ touches_lane self.now.rows.items lane }
    {
        self.cells(lane).iter().any(|cell| cell.is_touched())
    }

    /// Whether some instruction reads or writes one of these lanes.
    fn is_some_touched(&self, own: LaneSpan) -> bool
        ensures { result ≡ some_below (touches_lane self.now.rows.items) own.first own.count }
    {
        'lanes: for k in 0..own.count {
            if self.is_touched(own.first + k) {
                return true;
            }
        }
        false
    }
}

impl Cell {
    /// The piece that an instruction begins.
    pub(crate) fn segment_of(&self, slots: &Slots, id: u32) -> Option<&DefPiece>
        ensures { IsTrue (rises_from slots.now 0 (seen_cell self.now).segments) → option_map begun (option_copied result) ≡ begun_by id (seen_cell self.now).segments }
    {
        let index = self.piece_at(slots, exit_rank(slots, id));
        if index == 0 {
            return None;
        }
        let segment = &self.segments[index - 1];
        if segment.start != id {
            return None;
        }
        Some(segment)
    }
}

impl Piece {
    /// The reading of an instruction.
    fn reading_of(&self, slots: &Slots, id: u32) -> Option<&LaneUse>
        ensures { AreRising slots.now 0 (reading_ids self.now.readings.items) → option_copied result ≡ find (λ r. nat_eq r.id id) self.now.readings.items }
    {
        let at = slots.number(id);
        let readings = self.readings.as_slice();
        let place = readings.partition_point(|r| slots.number(r.id) < at);
        if place >= readings.len() {
            return None;
        }
        let reading = &readings[place];
        if reading.id != id {
            return None;
        }
        Some(reading)
    }
}

impl Table {
    /// Whether a reading in a block counts.
    fn counts(&self, block: u32, reading: &LaneUse) -> bool
        ensures { InOrder self.now → result ≡ reading_counts self.now.order.slots (causes self.now.rows.rows.items) (shapes self.now.rows.rows.items) block reading.now }
    {
        match reading.into {
            None => true,
            Some(lane) => {
                self.rows
                    .is_live_after(&self.order, lane, block, reading.id)
            }
        }
    }

    /// Whether an instruction reads the lane of a cell.
    fn is_read_in(&self, cell: &Cell, block: u32, id: u32) -> bool
        ensures { InOrder self.now → IsTrue (rises_from self.now.order.slots 0 (seen_cell cell.now).segments)
            → ((n : ℕ) → AreRising self.now.order.slots 0 (reading_ids (readings_in (seen_cell cell.now) n)))
            → result ≡ reads_seen self.now (seen_cell cell.now) block id }
    {
        let slots = &self.order.slots;
        let Some(piece) = cell.piece(cell.piece_at(slots, entry_rank(slots, id))) else {
            return false;
        };
        match piece.reading_of(slots, id) {
            Some(reading) => self.counts(block, reading),
            None => false,
        }
    }
}

impl LaneRanges {
    /// Whether one of these lanes is live at the start of a block.
    fn is_some_live_in(&self, own: LaneSpan, block: u32) -> bool
        ensures { result ≡ some_below (λ l. is_live (causes self.now.rows.items l block 0)) own.first own.count }
    {
        'lanes: for k in 0..own.count {
            if self.is_live_in(own.first + k, 0, block) {
                return true;
            }
        }
        false
    }
}

impl Table {
    /// Whether one of these lanes is live at the point of this rank in a block.
    fn is_some_live_at(&self, own: LaneSpan, block: u32, at: u128) -> bool
        ensures { InOrder self.now → result ≡ some_below (λ l. row_at self.now.order.slots self.now.rows.rows.items l block at) own.first own.count }
    {
        'lanes: for k in 0..own.count {
            if self.is_live_at(own.first + k, block, at) {
                return true;
            }
        }
        false
    }
}

impl LiveFunc {
    /// Whether some lane of a range is live at the end of the block at a position.
    pub fn is_live_out_of(&self, v: u32, position: u32) -> bool
        ensures { InOrder self.now.table → result ≡ leaves_block self.now.table v position (slice_get self.now.func.blocks position) }
    {
        let Some(block) = self.func.blocks.as_slice().get(position as usize) else {
            return false;
        };
        match block.instrs.as_slice().last() {
            Some(instr) => self.is_live_behind(v, instr.get().id),
            None => self.is_live_into(v, position),
        }
    }

    /// Whether some lane of a range is live at the entry of an instruction.
    pub fn is_live_before(&self, v: u32, id: u32) -> bool
        ensures { InOrder self.now.table → result ≡ some_lane self.now.table v (λ l. entry_at self.now.table (Some l) id) }
    {
        let order = &self.table.order;
        let at = entry_rank(&order.slots, id);
        self.table
            .is_some_live_at(self.table.lanes.of_range(v), order.block_of(id), at)
    }

    /// Whether some lane of a range is live at the exit of an instruction.
    pub fn is_live_behind(&self, v: u32, id: u32) -> bool
        ensures { InOrder self.now.table → result ≡ some_lane self.now.table v (λ l. exit_at self.now.table (Some l) id) }
    {
        let order = &self.table.order;
        let at = exit_rank(&order.slots, id);
        self.table
            .is_some_live_at(self.table.lanes.of_range(v), order.block_of(id), at)
    }
}
