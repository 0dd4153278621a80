//! Which stores to new spill slots, and reloads from them, stay within their slot.

ghost use Rattle.std.specs.Prelude.{◌≡◌, nat_eq, find, slice_get};
ghost use Rattle.std.specs.List.{list_all, list_any};
ghost use Rattle.mir_func.specs.Binding.{does};
ghost use Rattle.source_text.specs.Stored.{uses_slot, is_as_wide, are_at, are_first, are_placed, holds, fits_slot, register_fits, placed_in, operands_fit, instr_fits, block_fits};

use crate::slots::{NewSlot, bytes_of};
use mir_func::opcodes::effect_of;
use mir_func::operands::{register_at, slot_at};
use mir_func::{Block, Instr, Loc, Operand, RegOp};
use target_base::classes::{first_units, have_same_widths, is_reload, is_spill, width_of};
use target_base::{ClassDesc, Target, Unit};

fn uses_slot(target: &Target, i: &Instr) -> bool
    ensures { result ≡ does uses_slot target.now i.now }
{
    match effect_of(target, i) {
        None => false,
        Some(e) => is_spill(e) || is_reload(e),
    }
}

/// Whether a unit is as wide as the one at a lane, where there is one.
fn is_as_wide(target: &Target, there: &[Unit], lane: u8, unit: Unit) -> bool
    ensures { result ≡ is_as_wide target.now (slice_get there.now lane) unit }
{
    let units = target.units.as_slice();
    match there.get(lane as usize) {
        None => false,
        Some(v) => width_of(units, *v) == width_of(units, unit),
    }
}

/// Whether lanes of these numbers are there, and as wide as the units.
fn are_at(target: &Target, there: &[Unit], lanes: &[u8], units: &[Unit]) -> bool
    ensures { result ≡ are_at target.now there.now lanes.now units.now }
{
    let mut left = units;
    'lanes: for lane in lanes {
        match left {
            [] => return false,
            [u, rest @ ..] => {
                if !is_as_wide(target, there, *lane, *u) {
                    return false;
                }
                left = rest;
            }
        }
    }
    match left {
        [] => true,
        [_, ..] => false,
    }
}

/// Whether the first lanes are as wide as the units, and as many are there.
fn are_first(target: &Target, there: &[Unit], units: &[Unit]) -> bool
    ensures { result ≡ are_first target.now there.now units.now }
{
    units.len() <= there.len()
        && have_same_widths(target.units.as_slice(), &there[..units.len()], units)
}

/// Whether a `lanes` operand places the units of a register among those of a slot.
fn are_placed(target: &Target, there: &[Unit], lanes: &Operand, units: &[Unit]) -> bool
    ensures { result ≡ are_placed target.now there.now lanes.now units.now }
{
    match lanes {
        Operand::Index(x) => are_at(target, there, target.lanes_at(*x), units),
        _ => are_first(target, there, units),
    }
}

/// Whether a register of the class takes this many bytes, and has lanes for the units.
fn holds(target: &Target, bytes: u128, lanes: &Operand, units: &[Unit], class: &ClassDesc) -> bool
    ensures { result ≡ holds target.now bytes lanes.now units.now class.now }
{
    bytes_of(target, class) == bytes
        && are_placed(
            target,
            first_units(target.regs.as_slice(), class.regs.as_slice()),
            lanes,
            units,
        )
}

/// The slot of a number.
fn slot_of(slots: &[NewSlot], n: u32) -> Option<NewSlot>
    ensures { result ≡ find (λ s. nat_eq s.number n) slots.now }
{
    slots.iter().copied().find(|s| s.number == n)
}

/// Whether a register of some class takes this many bytes, and has lanes for the units.
fn some_holds(target: &Target, bytes: u128, lanes: &Operand, units: &[Unit]) -> bool
    ensures { result ≡ list_any (holds target.now bytes lanes.now units.now) target.now.classes }
{
    target
        .classes
        .as_slice()
        .iter()
        .any(|d| holds(target, bytes, lanes, units, d))
}

/// Whether a register of some class can lie in the slot, and has lanes for the units.
fn fits_slot(target: &Target, lanes: &Operand, units: &[Unit], slot: Option<NewSlot>) -> bool
    ensures { result ≡ fits_slot target.now lanes.now units.now slot }
{
    match slot {
        None => false,
        Some(s) => some_holds(target, s.bytes, lanes, units),
    }
}

/// Whether a register has lanes in the slot.
fn register_fits(target: &Target, lanes: &Operand, loc: Loc, slot: Option<NewSlot>) -> bool
    ensures { result ≡ register_fits target.now lanes.now loc slot }
{
    match loc {
        Loc::Virtual(_) => false,
        Loc::Fixed(r) => fits_slot(target, lanes, target.units_at(r), slot),
    }
}

/// Whether a slot is one of these, and a register fits it.
fn placed_in(
    target: &Target,
    slots: &[NewSlot],
    lanes: &Operand,
    register: Option<RegOp>,
    slot: Option<u32>,
) -> bool
    ensures { result ≡ placed_in target.now slots.now lanes.now register slot }
{
    match (register, slot) {
        (Some(o), Some(n)) => register_fits(target, lanes, o.loc, slot_of(slots, n)),
        _ => false,
    }
}

/// Whether the operands of a store or a reload name one of the slots, in which all lies that is
/// stored or reloaded.
fn operands_fit(target: &Target, slots: &[NewSlot], operands: &[Operand]) -> bool
    ensures { result ≡ operands_fit target.now slots.now operands.now }
{
    match operands.get(2) {
        None => false,
        Some(lanes) => placed_in(
            target,
            slots,
            lanes,
            register_at(operands, 0),
            slot_at(operands, 1),
        ),
    }
}

fn instr_fits(target: &Target, slots: &[NewSlot], i: &Instr) -> bool
    ensures { result ≡ instr_fits target.now slots.now i.now }
{
    if uses_slot(target, i) {
        operands_fit(target, slots, i.operands.as_slice())
    } else {
        true
    }
}

fn block_fits(target: &Target, slots: &[NewSlot], b: &Block) -> bool
    ensures { result ≡ block_fits target.now slots.now b.now }
{
    b.instrs
        .as_slice()
        .iter()
        .all(|i| instr_fits(target, slots, i.get()))
}

/// Whether all that blocks store to slots, or reload from them, lies in one of these slots.
pub(crate) fn blocks_fit(target: &Target, slots: &[NewSlot], blocks: &[Block]) -> bool
    ensures { result ≡ list_all (block_fits target.now slots.now) blocks.now }
{
    blocks.iter().all(|b| block_fits(target, slots, b))
}
