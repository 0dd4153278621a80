//! What the instructions of a function do, entered into the pieces of its lanes.

ghost use Rattle.std.specs.Prelude.{◌≡◌, ◌<◌, ℕ, length, OnOk, IfOk, map};
ghost use Rattle.instr_effects.specs.Numbered.{IsTable, number_in};
ghost use Rattle.instr_effects.specs.Steps.{seen_read};
ghost use Rattle.live_lanes.specs.Entered.{rows_seen};
ghost use Rattle.live_lanes.specs.Coded.{entries};
ghost use Rattle.live_lanes.specs.Doing.{doing_of};
ghost use Rattle.std.specs.Ordering.{nat_cmp};
ghost use Rattle.std.specs.BTreeMap.{get};
ghost use Rattle.live_lanes.specs.Table.{unseen, with_reading, with_segment, read_at_end};
ghost use Rattle.live_lanes.specs.Entering.{Enters, at_spot, reads_entered, move_entered, moves_entered, writes_entered, lasts_entered, end_entered, ends_entered, step_entered, block_entered, blocks_entered};

use crate::order::Order;
use crate::row::LaneUse;
use crate::table::LaneRanges;
use instr_effects::lanes::LaneTable;
use instr_effects::{EffectReader, LaneDef, PhiRead};
use mir_func::{Block, Func, Instr, Operand};
use std::alloc::{AllocError, Global};
use target_base::{Boxed, Target};

/// The slot that operands name.
pub(crate) fn slot_of(operands: &[Operand]) -> Option<u32> {
    'operands: for operand in operands {
        if let Operand::Stack(slot) = operand {
            return Some(*slot);
        }
    }
    None
}

impl LaneRanges {
    /// Enters a reading of a lane.
    fn add_reading(&mut self, lane: u32, block: u32, reading: LaneUse) -> Result<(), AllocError>
        ensures { OnOk result (Enters self.old.rows.items self.new.rows.items (at_spot lane block (with_reading reading))) }
    {
        let alloc = self.alloc;
        let at = lane as usize;
        if at >= self.rows.len() {
            return Ok(());
        }
        self.rows[at].add_reading(alloc, block, reading)
    }

    /// Enters a writing of a lane.
    fn add_segment(&mut self, block: u32, id: u32, w: &LaneDef) -> Result<(), AllocError>
        ensures { OnOk result (Enters self.old.rows.items self.new.rows.items (at_spot w.now.lane block (with_segment id w.now.early w.now.from))) }
    {
        let alloc = self.alloc;
        let at = w.lane as usize;
        if at >= self.rows.len() {
            return Ok(());
        }
        self.rows[at].add_segment(alloc, block, id, w.early, w.from)
    }

    /// Enters that a phi reads a lane at the end of a block.
    fn read_last(&mut self, lane: u32, block: u32) -> Result<(), AllocError>
        ensures { OnOk result (Enters self.old.rows.items self.new.rows.items (at_spot lane block read_at_end)) }
    {
        let alloc = self.alloc;
        let at = lane as usize;
        if at >= self.rows.len() {
            return Ok(());
        }
        self.rows[at].read_last(alloc, block)
    }

    /// Enters what an instruction reads.
    fn add_reads(&mut self, block: u32, id: u32, lanes: &[u32]) -> Result<(), AllocError>
        ensures { OnOk result (Enters self.old.rows.items self.new.rows.items (reads_entered block id lanes.now)) }
    {
        'lanes: for lane in lanes {
            self.add_reading(*lane, block, LaneUse { id, into: None })?;
        }
        Ok(())
    }

    /// Enters the reading of a lane that is moved, if one is.
    fn add_move(&mut self, block: u32, id: u32, w: &LaneDef) -> Result<(), AllocError>
        ensures { OnOk result (Enters self.old.rows.items self.new.rows.items (λ l b v. move_entered block id l b w.now v)) }
    {
        match w.from {
            Some(from) => {
                let into = Some(w.lane);
                self.add_reading(from, block, LaneUse { id, into })
            }
            None => Ok(()),
        }
    }

    /// Enters the readings of lanes that an instruction moves.
    fn add_moves(&mut self, block: u32, id: u32, writes: &[LaneDef]) -> Result<(), AllocError>
        ensures { OnOk result (Enters self.old.rows.items self.new.rows.items (moves_entered block id writes.now)) }
    {
        'writes: for w in writes {
            self.add_move(block, id, w)?;
        }
        Ok(())
    }

    /// Enters what an instruction writes.
    fn add_writes(&mut self, block: u32, id: u32, writes: &[LaneDef]) -> Result<(), AllocError>
        ensures { OnOk result (Enters self.old.rows.items self.new.rows.items (writes_entered block id writes.now)) }
    {
        'writes: for w in writes {
            self.add_segment(block, id, w)?;
        }
        Ok(())
    }

    /// Enters what a phi reads at the end of a block before its own.
    fn add_phi_read(&mut self, order: &Order, read: &PhiRead) -> Result<(), AllocError>
        ensures { OnOk result (Enters self.old.rows.items self.new.rows.items (λ l b v. end_entered (get nat_cmp order.now.positions) l b (seen_read read.now) v)) }
    {
        match order.position(read.block) {
            Some(position) => self.read_all_last(position, read.lanes.as_slice()),
            None => Ok(()),
        }
    }

    /// Enters what a phi reads at the ends of the blocks before its own.
    fn add_phi_reads(&mut self, order: &Order, reads: &[PhiRead]) -> Result<(), AllocError>
        ensures { OnOk result (Enters self.old.rows.items self.new.rows.items (ends_entered (get nat_cmp order.now.positions) (map seen_read reads.now))) }
    {
        'reads: for read in reads {
            self.add_phi_read(order, read)?;
        }
        Ok(())
    }

    /// Enters that phis read lanes at the end of a block.
    fn read_all_last(&mut self, block: u32, lanes: &[u32]) -> Result<(), AllocError>
        ensures { OnOk result (Enters self.old.rows.items self.new.rows.items (lasts_entered block lanes.now)) }
    {
        'lanes: for lane in lanes {
            self.read_last(*lane, block)?;
        }
        Ok(())
    }

    /// Enters what an instruction does.
    fn add_instr(
        &mut self,
        reader: &EffectReader<'_>,
        order: &Order,
        block: u32,
        instr: &Instr,
    ) -> Result<(), AllocError>
        ensures { OnOk result (Enters self.old.rows.items self.new.rows.items (λ l b v. step_entered (get nat_cmp order.now.positions) block l b (doing_of reader.now.target.now reader.now.func.now (number_in reader.now.lanes.now) instr.now) v)) }
    {
        let effects = reader.effects(instr)?;
        self.add_reads(block, instr.id, effects.reads.as_slice())?;
        self.add_moves(block, instr.id, effects.writes.as_slice())?;
        self.add_writes(block, instr.id, effects.writes.as_slice())?;
        let reads = reader.phi_reads(instr)?;
        self.add_phi_reads(order, reads.as_slice())
    }

    /// Enters what the instructions of a block do.
    fn add_instrs(
        &mut self,
        reader: &EffectReader<'_>,
        order: &Order,
        block: u32,
        instrs: &[Boxed<Instr>],
    ) -> Result<(), AllocError>
        ensures { OnOk result (Enters self.old.rows.items self.new.rows.items (block_entered (get nat_cmp order.now.positions) block (map (doing_of reader.now.target.now reader.now.func.now (number_in reader.now.lanes.now)) instrs.now))) }
    {
        'instrs: for instr in instrs {
            let instr = instr.get();
            self.add_instr(reader, order, block, instr)?;
        }
        Ok(())
    }

    /// Enters what the instructions of these blocks do. A row holds its cells from the last block to the
    /// first, so the blocks are gone through from the last: then a new cell mostly comes at the end of its row.
    fn add_blocks(
        &mut self,
        reader: &EffectReader<'_>,
        order: &Order,
        blocks: &[Block],
    ) -> Result<(), AllocError>
        ensures { OnOk result (Enters self.old.rows.items self.new.rows.items (blocks_entered (get nat_cmp order.now.positions) 0 (entries (doing_of reader.now.target.now reader.now.func.now (number_in reader.now.lanes.now)) blocks.now))) }
    {
        let Ok(count) = u32::try_from(blocks.len()) else {
            return Err(AllocError);
        };
        'positions: for position in (0..count).rev() {
            let block = &blocks[position as usize];
            self.add_instrs(reader, order, position, block.instrs.as_slice())?;
        }
        Ok(())
    }
}

/// The pieces of the lanes of a function, none of them live. Where more lanes have numbers than fit
/// 32 bits, there are none.
pub(crate) fn enter_pieces(
    alloc: Global,
    target: &Target,
    lanes: &LaneTable,
    order: &Order,
    func: &Func,
) -> Result<LaneRanges, AllocError>
    ensures few { IfOk result (λ x. length x.rows.items < 4294967296) }
    ensures seen { IfOk result (λ x. IsTable lanes.now
        → (l b : ℕ) → rows_seen x.rows.items l b ≡ blocks_entered (get nat_cmp order.now.positions) 0 (entries (doing_of target.now func.now (number_in lanes.now)) func.now.blocks) l b unseen) }
{
    let Ok(count) = u32::try_from(lanes.len()) else {
        return Err(AllocError);
    };
    let mut rows = LaneRanges::new(alloc, count as usize)?;
    let reader = EffectReader {
        alloc,
        target,
        func,
        lanes,
    };
    rows.add_blocks(&reader, order, func.blocks.as_slice())?;
    Ok(rows)
}
