//! Numbers for the lanes of a whole function.

ghost use Rattle.std.specs.Prelude.{◌≡◌, ℕ, ◌++◌, length, slice_get, Some, IfOk, OnOk};
ghost use Rattle.target_base.specs.Registers.{widths_of_some};
ghost use Rattle.mir_func.specs.declared.func.Block.{Block};
ghost use Rattle.mir_func.specs.Binding.{slot_at};
ghost use Rattle.instr_effects.specs.Numbered.{IsTable, HasSlot, HasSlotsOf, NumbersAll, counts, class_counts};

use crate::lanes::LaneTable;
use crate::registers::class_lanes;
use mir_func::operands::slot_at;
use mir_func::{Block, Func, Instr};
use std::alloc::{AllocError, Global};
use target_base::{Boxed, ClassId, Target};

/// The number of lanes of a range of this class; none where it has no class.
fn count_of(target: &Target, class: Option<ClassId>) -> usize
    ensures { result ≡ length (widths_of_some target.now class) }
{
    match class {
        Some(class) => class_lanes(target, class),
        None => 0,
    }
}

impl LaneTable {
    /// Numbers the lanes of further ranges, of these classes.
    pub fn add_ranges(
        &mut self,
        alloc: Global,
        target: &Target,
        classes: &[Option<ClassId>],
    ) -> Result<(), AllocError>
        ensures table { OnOk result (IsTable self.old → IsTable self.new) }
        ensures reserved { OnOk result (self.new.reserved ≡ self.old.reserved) }
        ensures ranges { OnOk result (counts self.new.ranges.items ≡ counts self.old.ranges.items ++ class_counts target.now classes.now) }
        ensures slots { OnOk result (self.new.slots ≡ self.old.slots) }
    {
        'classes: for class in classes {
            self.add_range(alloc, count_of(target, *class))?;
        }
        Ok(())
    }

    /// Numbers the lanes of the slot that is the second operand of an instruction.
    fn add_slot_of(&mut self, alloc: Global, instr: &Instr) -> Result<(), AllocError>
        ensures table { OnOk result (IsTable self.old → IsTable self.new) }
        ensures reserved { self.new.reserved ≡ self.old.reserved }
        ensures ranges { self.new.ranges ≡ self.old.ranges }
        ensures numbered { OnOk result ((s : ℕ) → slot_at instr.now.operands 1 ≡ Some s → HasSlot self.new s) }
        ensures kept { OnOk result ((s : ℕ) → HasSlot self.old s → HasSlot self.new s) }
    {
        match slot_at(instr.operands.as_slice(), 1) {
            Some(slot) => self.add_slot(alloc, slot),
            None => Ok(()),
        }
    }

    /// Numbers the lanes of the slots that instructions store to or reload.
    fn add_slots_of(&mut self, alloc: Global, instrs: &[Boxed<Instr>]) -> Result<(), AllocError>
        ensures table { OnOk result (IsTable self.old → IsTable self.new) }
        ensures reserved { OnOk result (self.new.reserved ≡ self.old.reserved) }
        ensures ranges { OnOk result (self.new.ranges ≡ self.old.ranges) }
        ensures numbered { OnOk result (HasSlotsOf self.new instrs.now) }
        ensures kept { OnOk result ((s : ℕ) → HasSlot self.old s → HasSlot self.new s) }
    {
        'instrs: for instr in instrs {
            let instr = instr.get();
            self.add_slot_of(alloc, instr)?;
        }
        Ok(())
    }

    /// Numbers the lanes of the slots that the instructions of blocks store to or reload.
    fn add_slots(&mut self, alloc: Global, blocks: &[Block]) -> Result<(), AllocError>
        ensures table { OnOk result (IsTable self.old → IsTable self.new) }
        ensures reserved { OnOk result (self.new.reserved ≡ self.old.reserved) }
        ensures ranges { OnOk result (self.new.ranges ≡ self.old.ranges) }
        ensures numbered { OnOk result ((k : ℕ) (b : Block) → slice_get blocks.now k ≡ Some b → HasSlotsOf self.new b.instrs) }
    {
        'all: for block in blocks {
            self.add_slots_of(alloc, block.instrs.as_slice())?;
        }
        Ok(())
    }
}

/// Numbers for the lanes of a function: those of its units, of its ranges, and of the slots that it
/// stores to or reloads.
pub fn lanes_of(alloc: Global, target: &Target, func: &Func) -> Result<LaneTable, AllocError>
    ensures { IfOk result (λ x. NumbersAll target.now func.now x) }
{
    let mut lanes = LaneTable::of_units(alloc, target)?;
    lanes.add_ranges(alloc, target, func.classes.as_slice())?;
    lanes.add_slots(alloc, func.blocks.as_slice())?;
    Ok(lanes)
}
