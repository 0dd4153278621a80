//! What silent instructions read and write.

ghost use Rattle.std.specs.Prelude.{◌≡◌, ◌++◌, OnOk, map, filter_map, flat_map, cond, None, [], not};
ghost use Rattle.mir_func.specs.Binding.{puts_together};
ghost use Rattle.mir_meaning.specs.Items.{copied, defined_undef, given_constant, reloaded, silent_reads};
ghost use Rattle.instr_effects.specs.Acts.{acts_of, read_owners, use_owners, filled_whole, stored, silent_acts, slot_numbers, is_constant};
ghost use Rattle.instr_effects.specs.Numbered.{number_in};
ghost use Rattle.instr_effects.specs.Owners.{operand_owners};
ghost use Rattle.instr_effects.specs.Runs.{run_numbers, of_kind};
ghost use Rattle.instr_effects.specs.Steps.{act_writings, act_readings};
ghost use Rattle.instr_effects.specs.declared.owner.Owner.TheVariants as owners;

use crate::definitions::LATE;
use crate::effects::{EffectReader, Effects};
use crate::registers::operand_at;
use crate::run::{LaneSequence, move_lanes};
use mir_func::opcodes::puts_together;
use mir_func::operands::{register_at, slot_at};
use mir_func::{Operand, RegOp};
use mir_meaning::LaneDef;
use std::alloc::AllocError;
use target_base::Effect;

/// Whether an operand is an immediate or an address.
fn is_constant(operand: &Operand) -> bool
    ensures { result ≡ is_constant operand.now }
{
    matches!(
        operand,
        Operand::Imm(_) | Operand::Stack(_) | Operand::FixedStack(_) | Operand::Symbol(_)
    )
}

impl<'a> EffectReader<'a> {
    /// Adds what COPY reads and writes.
    #[tactic(auto, using(crate::proofs::SilentParts::copy_writings, crate::proofs::SilentParts::copy_readings, crate::proofs::Writes::copied_none, crate::proofs::Writes::copied_one, crate::proofs::Runs::nothing_written, crate::proofs::Runs::nothing_read))]
    fn copy(self, operands: &[Operand], effects: &mut Effects) -> Result<(), AllocError>
        ensures reads { OnOk result (effects.new.reads.items ≡ effects.old.reads.items ++ act_readings (number_in self.entry.lanes.now) (acts_of (copied self.entry.target.now self.entry.func.now operands.now))) }
        ensures writes { OnOk result (effects.new.writes.items ≡ effects.old.writes.items ++ act_writings (number_in self.entry.lanes.now) (acts_of (copied self.entry.target.now self.entry.func.now operands.now))) }
    {
        let Some(to) = register_at(operands, 0) else {
            return Ok(());
        };
        let Some(from) = register_at(operands, 1) else {
            return Ok(());
        };
        self.define(&to, self.given_lanes(&from), false, effects)?;
        Ok(())
    }

    /// Adds what IMPLICIT_DEF writes, and a phi where it stands.
    #[tactic(auto, using(crate::proofs::SilentParts::undefined_writings, crate::proofs::SilentParts::undefined_nothing))]
    fn undefine(self, operands: &[Operand], writes: &mut Vec<LaneDef>) -> Result<(), AllocError>
        ensures { OnOk result (writes.new.items ≡ writes.old.items ++ act_writings (number_in self.entry.lanes.now) (acts_of (defined_undef self.entry.target.now self.entry.func.now operands.now))) }
    {
        let Some(to) = register_at(operands, 0) else {
            return Ok(());
        };
        self.fill_result(&to, LATE, writes)
    }

    /// Adds what REG_SEQUENCE and INSERT_SUBREG write.
    #[tactic(auto, using(crate::proofs::SilentParts::whole_writings, crate::proofs::SilentParts::whole_nothing))]
    fn put_together(self, operands: &[Operand], writes: &mut Vec<LaneDef>) -> Result<(), AllocError>
        ensures { OnOk result (writes.new.items ≡ writes.old.items ++ act_writings (number_in self.entry.lanes.now) (acts_of (filled_whole self.entry.target.now self.entry.func.now operands.now))) }
    {
        let Some(to) = register_at(operands, 0) else {
            return Ok(());
        };
        self.fill_register(&to, LATE, writes)
    }

    /// What an immediate or an address gives the lanes of a definition: nothing that a lane held.
    #[tactic(auto, using(crate::proofs::SilentParts::constant_run))]
    fn constant_lanes(self, op: &RegOp, constant: &Operand) -> LaneSequence<'a>
        ensures { run_numbers result ≡ cond (is_constant constant.now) (map (λ o. None) (operand_owners self.entry.target.now self.entry.func.now op.now)) [] }
    {
        if !is_constant(constant) {
            return LaneSequence::Nothing(0);
        }
        LaneSequence::Nothing(self.operand_lanes(op).len())
    }

    /// Adds what a definition writes that is given an immediate or an address.
    #[tactic(auto, using(crate::proofs::SilentParts::constant_writings, crate::proofs::SilentParts::constant_readings, crate::proofs::Writes::constant_none, crate::proofs::Writes::constant_one, crate::proofs::Runs::nothing_written, crate::proofs::Runs::nothing_read))]
    fn give_constant(
        self,
        operands: &[Operand],
        early: bool,
        effects: &mut Effects,
    ) -> Result<(), AllocError>
        ensures reads { OnOk result (effects.new.reads.items ≡ effects.old.reads.items ++ act_readings (number_in self.entry.lanes.now) (acts_of (given_constant self.entry.target.now self.entry.func.now early operands.now))) }
        ensures writes { OnOk result (effects.new.writes.items ≡ effects.old.writes.items ++ act_writings (number_in self.entry.lanes.now) (acts_of (given_constant self.entry.target.now self.entry.func.now early operands.now))) }
    {
        let Some(to) = register_at(operands, 0) else {
            return Ok(());
        };
        let Some(constant) = operand_at(operands, 1) else {
            return Ok(());
        };
        self.define(&to, self.constant_lanes(&to, constant), early, effects)?;
        Ok(())
    }

    /// The lanes of a slot beside so many lanes of a register.
    #[tactic(auto, using(crate::proofs::SilentParts::slot_run))]
    fn slot_lanes(self, slot: u32, lanes: &Operand, count: usize) -> LaneSequence<'a>
        ensures { run_numbers result ≡ map (number_in self.entry.lanes.now) (map (owners.Slot slot) (slot_numbers self.entry.target.now count lanes.now)) }
    {
        let own = self.lanes.of_slot(slot);
        match lanes {
            Operand::Index(x) => LaneSequence::Picked(own, self.target.lanes_at(*x)),
            _ => LaneSequence::First(own, count),
        }
    }

    /// Adds what a store to a slot reads and writes.
    #[tactic(auto, using(crate::proofs::SilentParts::store_writings, crate::proofs::SilentParts::store_readings, crate::proofs::Writes::stored_none, crate::proofs::Writes::stored_one, crate::proofs::Writes::stored_two, crate::proofs::Runs::nothing_written, crate::proofs::Runs::nothing_read))]
    fn store(self, operands: &[Operand], effects: &mut Effects) -> Result<(), AllocError>
        ensures reads { OnOk result (effects.new.reads.items ≡ effects.old.reads.items ++ act_readings (number_in self.entry.lanes.now) (acts_of (stored self.entry.target.now self.entry.func.now operands.now))) }
        ensures writes { OnOk result (effects.new.writes.items ≡ effects.old.writes.items ++ act_writings (number_in self.entry.lanes.now) (acts_of (stored self.entry.target.now self.entry.func.now operands.now))) }
    {
        let Some(from) = register_at(operands, 0) else {
            return Ok(());
        };
        let Some(slot) = slot_at(operands, 1) else {
            return Ok(());
        };
        let Some(lanes) = operand_at(operands, 2) else {
            return Ok(());
        };
        let given = self.given_lanes(&from);
        move_lanes(
            self.slot_lanes(slot, lanes, given.len()),
            given,
            LATE,
            effects,
        )?;
        Ok(())
    }

    /// Adds what a reload from a slot reads and writes.
    #[tactic(auto, using(crate::proofs::SilentParts::reload_writings, crate::proofs::SilentParts::reload_readings, crate::proofs::Writes::reloaded_none, crate::proofs::Writes::reloaded_one, crate::proofs::Writes::reloaded_two, crate::proofs::Runs::nothing_written, crate::proofs::Runs::nothing_read))]
    fn reload(
        self,
        operands: &[Operand],
        early: bool,
        effects: &mut Effects,
    ) -> Result<(), AllocError>
        ensures reads { OnOk result (effects.new.reads.items ≡ effects.old.reads.items ++ act_readings (number_in self.entry.lanes.now) (acts_of (reloaded self.entry.target.now self.entry.func.now early operands.now))) }
        ensures writes { OnOk result (effects.new.writes.items ≡ effects.old.writes.items ++ act_writings (number_in self.entry.lanes.now) (acts_of (reloaded self.entry.target.now self.entry.func.now early operands.now))) }
    {
        let Some(to) = register_at(operands, 0) else {
            return Ok(());
        };
        let Some(slot) = slot_at(operands, 1) else {
            return Ok(());
        };
        let Some(lanes) = operand_at(operands, 2) else {
            return Ok(());
        };
        let count = self.operand_lanes(&to).len();
        self.define(&to, self.slot_lanes(slot, lanes, count), early, effects)?;
        Ok(())
    }

    /// Adds what a silent instruction moves and writes.
    #[tactic(auto, using(crate::proofs::Writes::other_silent, crate::proofs::Runs::nothing_written, crate::proofs::Runs::nothing_read, crate::proofs::SilentParts::undefined_readings, crate::proofs::SilentParts::whole_readings))]
    pub(crate) fn write_silently(
        self,
        effect: Effect,
        early: bool,
        operands: &[Operand],
        effects: &mut Effects,
    ) -> Result<(), AllocError>
        ensures reads { OnOk result (effects.new.reads.items ≡ effects.old.reads.items ++ act_readings (number_in self.entry.lanes.now) (acts_of (silent_acts self.entry.target.now self.entry.func.now effect early operands.now))) }
        ensures writes { OnOk result (effects.new.writes.items ≡ effects.old.writes.items ++ act_writings (number_in self.entry.lanes.now) (acts_of (silent_acts self.entry.target.now self.entry.func.now effect early operands.now))) }
    {
        match effect {
            Effect::Copy => self.copy(operands, effects)?,
            Effect::Phi => self.undefine(operands, &mut effects.writes)?,
            Effect::ImplicitDef => self.undefine(operands, &mut effects.writes)?,
            Effect::RegSequence => self.put_together(operands, &mut effects.writes)?,
            Effect::InsertSubreg => self.put_together(operands, &mut effects.writes)?,
            Effect::Const => self.give_constant(operands, early, effects)?,
            Effect::Addr => self.give_constant(operands, early, effects)?,
            Effect::Spill => self.store(operands, effects)?,
            Effect::Reload => self.reload(operands, early, effects)?,
            _ => {}
        }
        Ok(())
    }

    /// Adds what an operand reads, if it is a use.
    fn read_use(self, operand: &Operand, reads: &mut Vec<u32>) -> Result<(), AllocError>
        ensures { OnOk result (reads.new.items ≡ reads.old.items ++ of_kind (λ o. not o.def) (λ o. filter_map (number_in self.entry.lanes.now) (use_owners self.entry.target.now self.entry.func.now o)) operand.now) }
    {
        if let Operand::Reg(op) = operand {
            if !op.def {
                self.read(op, reads)?;
            }
        }
        Ok(())
    }

    /// Adds what the uses read.
    #[tactic(auto, using(crate::proofs::Loops::gathered_more, crate::proofs::Loops::gathered_all))]
    fn read_uses(self, operands: &[Operand], reads: &mut Vec<u32>) -> Result<(), AllocError>
        ensures { OnOk result (reads.new.items ≡ reads.old.items ++ flat_map (of_kind (λ o. not o.def) (λ o. filter_map (number_in self.entry.lanes.now) (use_owners self.entry.target.now self.entry.func.now o))) operands.now) }
    {
        'operands: for operand in operands {
            self.read_use(operand, reads)?;
        }
        Ok(())
    }

    /// Adds what a silent instruction reads whatever is live behind it.
    #[tactic(auto, using(crate::proofs::SilentParts::together_reads, crate::proofs::SilentParts::other_reads))]
    pub(crate) fn read_silently(
        self,
        effect: Effect,
        operands: &[Operand],
        reads: &mut Vec<u32>,
    ) -> Result<(), AllocError>
        ensures { OnOk result (reads.new.items ≡ reads.old.items ++ filter_map (number_in self.entry.lanes.now) (read_owners (silent_reads self.entry.target.now self.entry.func.now effect operands.now))) }
    {
        if !puts_together(effect) {
            return Ok(());
        }
        self.read_uses(operands, reads)
    }
}
