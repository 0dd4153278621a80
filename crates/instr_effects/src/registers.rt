//! How many lanes registers have, and the lanes of registers and slots.

ghost use Rattle.std.specs.Prelude.{◌≡◌, IfOk, length, map, slice_get, option_copied};
ghost use Rattle.target_base.specs.Registers.{widths_of};
ghost use Rattle.mir_meaning.specs.Registers.{range_widths, numbers};
ghost use Rattle.instr_effects.specs.declared.owner.Owner.TheVariants as owners;

use crate::owner::Owner;
use mir_func::operands::class_of;
use mir_func::{Func, Operand};
use std::alloc::{AllocError, Global};
use target_base::{ClassId, Target};

/// The number of lanes of a class; none where there is no such class.
pub fn class_lanes(target: &Target, class: ClassId) -> usize
    ensures { result ≡ length (widths_of target.now class) }
{
    target.class_units(Some(class)).len()
}

/// The number of lanes of a virtual register; none where it has no class.
pub fn lane_count(target: &Target, func: &Func, v: u32) -> usize
    ensures { result ≡ length (range_widths target.now func.now v) }
{
    match class_of(func, v) {
        Some(class) => class_lanes(target, class),
        None => 0,
    }
}

/// The operand at a place, if there is one.
pub fn operand_at(operands: &[Operand], place: usize) -> Option<&Operand>
    ensures { option_copied result ≡ slice_get operands.now place }
{
    operands.get(place)
}

/// The first lanes of a virtual register.
#[tactic(auto, using(crate::proofs::Loops::numbered_more))]
pub(crate) fn first_owners(alloc: Global, v: u32, count: usize) -> Result<Vec<Owner>, AllocError>
    ensures { IfOk result (λ x. x.items ≡ map (owners.Range v) (numbers 0 count)) }
{
    let Ok(limit) = u32::try_from(count) else {
        return Err(AllocError);
    };
    let mut lanes = Vec::new(alloc);
    'lanes: for k in 0..limit {
        lanes.push(Owner::Range(v, k))?;
    }
    Ok(lanes)
}

/// The first lanes of a slot.
#[tactic(auto, using(crate::proofs::Loops::numbered_more))]
pub fn first_slots(alloc: Global, s: u32, count: usize) -> Result<Vec<Owner>, AllocError>
    ensures { IfOk result (λ x. x.items ≡ map (owners.Slot s) (numbers 0 count)) }
{
    let Ok(limit) = u32::try_from(count) else {
        return Err(AllocError);
    };
    let mut lanes = Vec::new(alloc);
    'lanes: for k in 0..limit {
        lanes.push(Owner::Slot(s, k))?;
    }
    Ok(lanes)
}
