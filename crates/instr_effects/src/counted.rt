//! What counted instructions read and write.

ghost use Rattle.std.specs.Prelude.{◌≡◌, ◌++◌, OnOk, map, filter, filter_map, find, flat_map, nat_abs, not, false, ◌&&◌, cond, [], option_to_list};
ghost use Rattle.std.specs.List.{list_any};
ghost use Rattle.target_base.specs.Roles.{is_implicit};
ghost use Rattle.meaning.specs.Perform.{condition_lane};
ghost use Rattle.mir_func.specs.Binding.{immediate_of, definitions};
ghost use Rattle.mir_meaning.specs.Items.{preserves};
ghost use Rattle.instr_effects.specs.Acts.{plain, acts_of, result_acts, counted_acts, call_writes, unpreserved, is_call, tested_role, takes_some, flag_owners, use_owners, implicit_owners, implicit_uses, counted_owners};
ghost use Rattle.instr_effects.specs.Numbered.{number_in};
ghost use Rattle.instr_effects.specs.Owners.{operand_owners};
ghost use Rattle.instr_effects.specs.Runs.{of_kind, unit_clobbered};
ghost use Rattle.instr_effects.specs.Steps.{act_writings};
ghost use Rattle.instr_effects.specs.declared.owner.Owner.TheVariants as owners;

use crate::definitions::{Definition, LATE, next_definition};
use crate::effects::EffectReader;
use crate::items::counted::condition_lane;
use crate::masks::is_preserved;
use crate::run::{push_lane, push_writing};
use mir_func::operands::immediate_of;
use mir_func::{Operand, RegOp, operands};
use mir_meaning::LaneDef;
use std::alloc::AllocError;
use target_base::roles::{first_implicit, is_implicit};
use target_base::{Effect, OpaqueKind, OpcodeDesc, Role, Target};

/// Whether an operand is what a role names.
fn takes_role(op: &RegOp, role: Option<Role>) -> bool
    ensures { result ≡ takes_some role op.now }
{
    match role {
        None => false,
        Some(role) => operands::takes_role(op, role),
    }
}

/// Whether an effect is a call, an opaque one too.
fn is_call(effect: Effect) -> bool
    ensures { result ≡ is_call effect }
{
    matches!(effect, Effect::Call | Effect::Opaque(OpaqueKind::Call))
}

/// The role whose register a conditional jump tests.
fn tested_role(effect: Effect, roles: &[Role]) -> Option<Role>
    ensures { result ≡ tested_role effect roles.now }
{
    match effect {
        Effect::Jcc => first_implicit(roles),
        _ => None,
    }
}

impl<'a> EffectReader<'a> {
    /// Adds the writing of a unit, if no mask among the operands preserves it.
    fn clobber_unit(
        self,
        operands: &[Operand],
        u: u32,
        writes: &mut Vec<LaneDef>,
    ) -> Result<(), AllocError>
        ensures { OnOk result (writes.new.items ≡ writes.old.items ++ unit_clobbered self.entry.target.now (number_in self.entry.lanes.now) operands.now u) }
    {
        if !is_preserved(self.target, operands, u) {
            push_writing(self.lanes.unit(u), LATE, writes)?;
        }
        Ok(())
    }

    /// Adds the units that no mask among the operands preserves.
    #[tactic(auto, using(crate::proofs::CountedParts::units_more, crate::proofs::CountedParts::unpreserved_units))]
    fn clobber_units(
        self,
        operands: &[Operand],
        writes: &mut Vec<LaneDef>,
    ) -> Result<(), AllocError>
        ensures { OnOk result (writes.new.items ≡ writes.old.items ++ act_writings (number_in self.entry.lanes.now) (map (λ u. plain false (owners.Unit u)) (unpreserved self.entry.target.now operands.now))) }
    {
        let Ok(count) = u32::try_from(self.target.units.len()) else {
            return Err(AllocError);
        };
        'units: for u in 0..count {
            self.clobber_unit(operands, u, writes)?;
        }
        Ok(())
    }

    /// Adds the units that a call makes undefined.
    #[tactic(auto, using(crate::proofs::CountedParts::no_clobber, crate::proofs::CountedParts::call_clobber))]
    fn clobber(
        self,
        effect: Effect,
        operands: &[Operand],
        writes: &mut Vec<LaneDef>,
    ) -> Result<(), AllocError>
        ensures { OnOk result (writes.new.items ≡ writes.old.items ++ act_writings (number_in self.entry.lanes.now) (acts_of (call_writes self.entry.target.now effect operands.now))) }
    {
        if !is_call(effect) {
            return Ok(());
        }
        self.clobber_units(operands, writes)
    }

    /// Adds what an explicit definition writes, if there is one.
    fn write_explicit(
        self,
        definition: Option<Definition>,
        writes: &mut Vec<LaneDef>,
    ) -> Result<(), AllocError>
        ensures { OnOk result (writes.new.items ≡ writes.old.items ++ flat_map (λ d. act_writings (number_in self.entry.lanes.now) (result_acts self.entry.target.now self.entry.func.now d.0 d.1)) (option_to_list definition)) }
    {
        if let Some((early, op)) = definition {
            self.fill_result(&op, early, writes)?;
        }
        Ok(())
    }

    /// Adds what the explicit definitions write among operands that take these roles.
    #[tactic(auto, using(crate::proofs::Defined::definitions_at, crate::proofs::Defined::gathered_option, crate::proofs::Defined::gathered_end))]
    fn write_explicits(
        self,
        roles: &[Role],
        operands: &[Operand],
        writes: &mut Vec<LaneDef>,
    ) -> Result<(), AllocError>
        ensures { OnOk result (writes.new.items ≡ writes.old.items ++ flat_map (λ d. act_writings (number_in self.entry.lanes.now) (result_acts self.entry.target.now self.entry.func.now d.0 d.1)) (definitions roles.now operands.now)) }
    {
        let mut left = roles;
        'operands: for operand in operands {
            let (definition, behind) = next_definition(left, operand);
            self.write_explicit(definition, writes)?;
            left = behind;
        }
        Ok(())
    }

    /// Adds what an operand writes, if it is an implicit definition.
    fn write_implicit(self, operand: &Operand, writes: &mut Vec<LaneDef>) -> Result<(), AllocError>
        ensures { OnOk result (writes.new.items ≡ writes.old.items ++ of_kind (λ o. o.implicit && o.def) (λ o. act_writings (number_in self.entry.lanes.now) (map (plain false) (operand_owners self.entry.target.now self.entry.func.now o))) operand.now) }
    {
        if let Operand::Reg(op) = operand {
            if op.implicit && op.def {
                self.fill_register(op, LATE, writes)?;
            }
        }
        Ok(())
    }

    /// Adds what the implicit definitions write.
    #[tactic(auto, using(crate::proofs::Loops::gathered_more, crate::proofs::Loops::gathered_all))]
    fn write_implicits(
        self,
        operands: &[Operand],
        writes: &mut Vec<LaneDef>,
    ) -> Result<(), AllocError>
        ensures { OnOk result (writes.new.items ≡ writes.old.items ++ flat_map (of_kind (λ o. o.implicit && o.def) (λ o. act_writings (number_in self.entry.lanes.now) (map (plain false) (operand_owners self.entry.target.now self.entry.func.now o)))) operands.now) }
    {
        'operands: for operand in operands {
            self.write_implicit(operand, writes)?;
        }
        Ok(())
    }

    /// Adds what a counted instruction writes.
    #[tactic(auto, using(crate::proofs::CountedParts::unpreserved_units))]
    pub(crate) fn write_counted(
        self,
        desc: &OpcodeDesc,
        operands: &[Operand],
        writes: &mut Vec<LaneDef>,
    ) -> Result<(), AllocError>
        ensures { OnOk result (writes.new.items ≡ writes.old.items ++ act_writings (number_in self.entry.lanes.now) (acts_of (counted_acts self.entry.target.now self.entry.func.now desc.now.effect desc.now.roles operands.now))) }
    {
        self.write_explicits(desc.roles.as_slice(), operands, writes)?;
        self.write_implicits(operands, writes)?;
        self.clobber(desc.effect, operands, writes)?;
        Ok(())
    }

    /// Adds what an operand reads, if it is an explicit use.
    fn read_explicit(self, operand: &Operand, reads: &mut Vec<u32>) -> Result<(), AllocError>
        ensures { OnOk result (reads.new.items ≡ reads.old.items ++ of_kind (λ o. not o.def && not o.implicit) (λ o. filter_map (number_in self.entry.lanes.now) (use_owners self.entry.target.now self.entry.func.now o)) operand.now) }
    {
        if let Operand::Reg(op) = operand {
            if !op.def && !op.implicit {
                self.read(op, reads)?;
            }
        }
        Ok(())
    }

    /// Adds what the explicit uses read.
    #[tactic(auto, using(crate::proofs::Loops::gathered_more, crate::proofs::Loops::gathered_all))]
    fn read_explicits(self, operands: &[Operand], reads: &mut Vec<u32>) -> Result<(), AllocError>
        ensures { OnOk result (reads.new.items ≡ reads.old.items ++ flat_map (of_kind (λ o. not o.def && not o.implicit) (λ o. filter_map (number_in self.entry.lanes.now) (use_owners self.entry.target.now self.entry.func.now o))) operands.now) }
    {
        'operands: for operand in operands {
            self.read_explicit(operand, reads)?;
        }
        Ok(())
    }

    /// Adds what an operand reads, if it is an implicit use that no role names.
    fn read_implicit(
        self,
        tested: Option<Role>,
        operand: &Operand,
        reads: &mut Vec<u32>,
    ) -> Result<(), AllocError>
        ensures { OnOk result (reads.new.items ≡ reads.old.items ++ of_kind (λ o. (o.implicit && not o.def) && not (takes_some tested o)) (λ o. filter_map (number_in self.entry.lanes.now) (use_owners self.entry.target.now self.entry.func.now o)) operand.now) }
    {
        if let Operand::Reg(op) = operand {
            if op.implicit && !op.def && !takes_role(op, tested) {
                self.read(op, reads)?;
            }
        }
        Ok(())
    }

    /// Adds what the implicit uses read that no role names.
    #[tactic(auto, using(crate::proofs::Loops::gathered_more, crate::proofs::Loops::gathered_all))]
    fn read_implicits(
        self,
        tested: Option<Role>,
        operands: &[Operand],
        reads: &mut Vec<u32>,
    ) -> Result<(), AllocError>
        ensures { OnOk result (reads.new.items ≡ reads.old.items ++ flat_map (of_kind (λ o. (o.implicit && not o.def) && not (takes_some tested o)) (λ o. filter_map (number_in self.entry.lanes.now) (use_owners self.entry.target.now self.entry.func.now o))) operands.now) }
    {
        'operands: for operand in operands {
            self.read_implicit(tested, operand, reads)?;
        }
        Ok(())
    }

    /// Adds the lane at a place of a register that is tested.
    #[tactic(auto, using(crate::proofs::CountedParts::flag_undef, crate::proofs::CountedParts::flag_read))]
    fn read_flag(self, op: &RegOp, place: usize, reads: &mut Vec<u32>) -> Result<(), AllocError>
        ensures { OnOk result (reads.new.items ≡ reads.old.items ++ filter_map (number_in self.entry.lanes.now) (flag_owners self.entry.target.now self.entry.func.now place op.now)) }
    {
        if op.undef {
            return Ok(());
        }
        push_lane(self.operand_lanes(op).number(place), reads)
    }

    /// Adds the lane at a place of an operand, if it is an implicit use that a role names.
    fn test(
        self,
        tested: Option<Role>,
        place: usize,
        operand: &Operand,
        reads: &mut Vec<u32>,
    ) -> Result<(), AllocError>
        ensures { OnOk result (reads.new.items ≡ reads.old.items ++ of_kind (λ o. (o.implicit && not o.def) && takes_some tested o) (λ o. filter_map (number_in self.entry.lanes.now) (flag_owners self.entry.target.now self.entry.func.now place o)) operand.now) }
    {
        if let Operand::Reg(op) = operand {
            if op.implicit && !op.def && takes_role(op, tested) {
                self.read_flag(op, place, reads)?;
            }
        }
        Ok(())
    }

    /// Adds the lanes at a place of the implicit uses that a role names.
    #[tactic(auto, using(crate::proofs::Loops::gathered_more, crate::proofs::Loops::gathered_all))]
    fn test_all(
        self,
        tested: Option<Role>,
        place: usize,
        operands: &[Operand],
        reads: &mut Vec<u32>,
    ) -> Result<(), AllocError>
        ensures { OnOk result (reads.new.items ≡ reads.old.items ++ flat_map (of_kind (λ o. (o.implicit && not o.def) && takes_some tested o) (λ o. filter_map (number_in self.entry.lanes.now) (flag_owners self.entry.target.now self.entry.func.now place o))) operands.now) }
    {
        'operands: for operand in operands {
            self.test(tested, place, operand, reads)?;
        }
        Ok(())
    }

    /// Adds the flag of a conditional jump's condition, of the flags that it tests.
    #[tactic(auto, using(crate::proofs::CountedParts::untested, crate::proofs::CountedParts::flags_read))]
    fn read_condition(
        self,
        tested: Option<Role>,
        operands: &[Operand],
        reads: &mut Vec<u32>,
    ) -> Result<(), AllocError>
        ensures { OnOk result (reads.new.items ≡ reads.old.items ++ filter_map (number_in self.entry.lanes.now) (flat_map (flag_owners self.entry.target.now self.entry.func.now (condition_lane (nat_abs (immediate_of operands.now)))) (filter (takes_some tested) (implicit_uses operands.now)))) }
    {
        if tested.is_none() {
            return Ok(());
        }
        let place = condition_lane(immediate_of(operands).unsigned_abs());
        self.test_all(tested, place, operands, reads)
    }

    /// Adds what a counted instruction reads.
    #[tactic(auto, using(crate::proofs::CountedParts::flags_read))]
    pub(crate) fn read_counted(
        self,
        desc: &OpcodeDesc,
        operands: &[Operand],
        reads: &mut Vec<u32>,
    ) -> Result<(), AllocError>
        ensures { OnOk result (reads.new.items ≡ reads.old.items ++ filter_map (number_in self.entry.lanes.now) (counted_owners self.entry.target.now self.entry.func.now desc.now.effect desc.now.roles operands.now)) }
    {
        self.read_explicits(operands, reads)?;
        let tested = tested_role(desc.effect, desc.roles.as_slice());
        self.read_condition(tested, operands, reads)?;
        self.read_implicits(tested, operands, reads)?;
        Ok(())
    }
}
