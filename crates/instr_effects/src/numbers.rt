//! The numbers of lanes in a table.

ghost use Rattle.std.specs.Prelude.{◌≡◌, ℕ, [], ◌∷◌, ◌++◌, length, map, slice_get, None, IfOk, OnOk};
ghost use Rattle.std.specs.Ordering.{nat_cmp};
ghost use Rattle.std.specs.BTreeMap.{get};
ghost use Rattle.mir_meaning.specs.Registers.{numbers};
ghost use Rattle.target_base.specs.Registers.{is_reserved_unit};
ghost use Rattle.instr_effects.specs.Row.{lane_in};
ghost use Rattle.instr_effects.specs.Numbers.{unit_number_in, row_number_in};
ghost use Rattle.instr_effects.specs.Numbered.{number_in, IsTable, HasSlot, KeepsNumbers, AddsLanes, NumbersNext, reserved_units, counts};
ghost use Rattle.instr_effects.specs.declared.owner.Owner.TheVariants as owners;

use crate::lanes::LaneTable;
use crate::owner::Owner;
use crate::registers::{first_owners, first_slots};
use crate::row::{LaneSpan, no_lanes};
use std::alloc::{AllocError, Global};
use std::collections::BTreeMap;
use target_base::Target;

/// More lanes than a register has.
pub const LANES_OF_A_SLOT: usize = 32;

/// A unit by its number, where it isn't one of the reserved ones.
pub(crate) fn unit_number(reserved: &[bool], u: u32) -> Option<u32>
    ensures { result ≡ unit_number_in reserved.now u }
{
    match reserved.get(u as usize) {
        Some(is_reserved) => { if *is_reserved { None } else { Some(u) } }
        None => None,
    }
}

impl LaneTable {
    /// The number of lanes.
    pub fn len(&self) -> usize
        ensures { result ≡ length self.now.owners.items }
    {
        self.owners.len()
    }

    /// The lanes of a range; none where there is no such range.
    pub fn of_range(&self, v: u32) -> LaneSpan
        ensures { (k : ℕ) → lane_in result.first result.count k ≡ row_number_in (slice_get self.now.ranges.items v) k }
    {
        match self.ranges.get(v as usize) {
            Some(lanes) => *lanes,
            None => no_lanes(),
        }
    }

    /// A unit by its number, where it isn't reserved.
    pub(crate) fn unit(&self, u: u32) -> Option<u32>
        ensures { result ≡ unit_number_in self.now.reserved.items u }
    {
        unit_number(self.reserved.as_slice(), u)
    }

    /// The number of a lane of a range.
    fn range(&self, v: u32, k: u32) -> Option<u32>
        ensures { result ≡ row_number_in (slice_get self.now.ranges.items v) k }
    {
        self.of_range(v).lane(k)
    }

    /// The lanes of a slot; none where it has no numbers.
    pub fn of_slot(&self, s: u32) -> LaneSpan
        ensures { (k : ℕ) → lane_in result.first result.count k ≡ row_number_in (get nat_cmp self.now.slots s) k }
    {
        match self.slots.get(&s) {
            Some(lanes) => *lanes,
            None => no_lanes(),
        }
    }

    /// The number of a lane of a slot, where the slot has numbers.
    fn slot(&self, s: u32, k: u32) -> Option<u32>
        ensures { result ≡ row_number_in (get nat_cmp self.now.slots s) k }
    {
        self.of_slot(s).lane(k)
    }

    /// The number of a lane, where it has one; reserved units have none.
    pub fn number(&self, owner: Owner) -> Option<u32>
        ensures { result ≡ number_in self.now owner }
    {
        match owner {
            Owner::Unit(u) => self.unit(u),
            Owner::Range(v, k) => self.range(v, k),
            Owner::Slot(s, k) => self.slot(s, k),
        }
    }
}

/// So many lanes from a number on.
fn lanes_at(first: usize, count: usize) -> Result<LaneSpan, AllocError>
    ensures first { IfOk result (λ x. x.first ≡ first) }
    ensures count { IfOk result (λ x. x.count ≡ count) }
{
    let (Ok(first), Ok(count)) = (u32::try_from(first), u32::try_from(count)) else {
        return Err(AllocError);
    };
    if first.checked_add(count).is_none() {
        return Err(AllocError);
    }
    Ok(LaneSpan { first, count })
}

/// The first units as lanes.
#[tactic(auto, using(crate::proofs::Loops::numbered_more))]
fn first_units(alloc: Global, count: usize) -> Result<Vec<Owner>, AllocError>
    ensures { IfOk result (λ x. x.items ≡ map owners.Unit (numbers 0 count)) }
{
    let Ok(limit) = u32::try_from(count) else {
        return Err(AllocError);
    };
    let mut lanes = Vec::new(alloc);
    'lanes: for u in 0..limit {
        lanes.push(Owner::Unit(u))?;
    }
    Ok(lanes)
}

/// Which units are reserved.
#[tactic(auto, using(crate::proofs::Loops::numbered_more))]
fn reserved_units(alloc: Global, target: &Target) -> Result<Vec<bool>, AllocError>
    ensures { IfOk result (λ x. x.items ≡ reserved_units target.now) }
{
    let Ok(limit) = u32::try_from(target.units.len()) else {
        return Err(AllocError);
    };
    let mut units = Vec::new(alloc);
    'units: for u in 0..limit {
        units.push(target.is_reserved_unit(u))?;
    }
    Ok(units)
}

impl LaneTable {
    /// Numbers for the units, which come before all other lanes.
    pub fn of_units(alloc: Global, target: &Target) -> Result<LaneTable, AllocError>
        ensures table { IfOk result (λ t. IsTable t) }
        ensures reserved { IfOk result (λ t. t.reserved.items ≡ reserved_units target.now) }
        ensures ranges { IfOk result (λ t. t.ranges.items ≡ []) }
    {
        let owners = first_units(alloc, target.units.len())?;
        let reserved = reserved_units(alloc, target)?;
        Ok(LaneTable {
            owners,
            reserved,
            ranges: Vec::new(alloc),
            slots: BTreeMap::new(alloc),
        })
    }

    /// Numbers the lanes of the next range. After a refusal owners may stand behind the last number.
    pub fn add_range(&mut self, alloc: Global, count: usize) -> Result<(), AllocError>
        ensures table { IsTable self.old → IsTable self.new }
        ensures reserved { self.new.reserved ≡ self.old.reserved }
        ensures ranges { OnOk result (counts self.new.ranges.items ≡ counts self.old.ranges.items ++ count ∷ []) }
        ensures slots { self.new.slots ≡ self.old.slots }
        ensures numbers { KeepsNumbers (number_in self.old) (number_in self.new) }
        ensures adds { AddsLanes self.old self.new }
        ensures numbered { OnOk result (NumbersNext self.old self.new count) }
    {
        let Ok(v) = u32::try_from(self.ranges.len()) else {
            return Err(AllocError);
        };
        let own = first_owners(alloc, v, count)?;
        let lanes = lanes_at(self.owners.len(), count)?;
        self.owners.extend_from_slice(own.as_slice())?;
        self.ranges.push(lanes)?;
        Ok(())
    }

    /// Numbers the lanes of a slot that has no numbers yet.
    fn new_slot(&mut self, alloc: Global, slot: u32) -> Result<(), AllocError>
        ensures table { get nat_cmp self.old.slots slot ≡ None → IsTable self.old → IsTable self.new }
        ensures reserved { self.new.reserved ≡ self.old.reserved }
        ensures ranges { self.new.ranges ≡ self.old.ranges }
        ensures numbered { OnOk result (HasSlot self.new slot) }
        ensures kept { (s : ℕ) → HasSlot self.old s → HasSlot self.new s }
        ensures numbers { get nat_cmp self.old.slots slot ≡ None → KeepsNumbers (number_in self.old) (number_in self.new) }
    {
        let own = first_slots(alloc, slot, LANES_OF_A_SLOT)?;
        let lanes = lanes_at(self.owners.len(), LANES_OF_A_SLOT)?;
        self.owners.extend_from_slice(own.as_slice())?;
        self.slots.insert(slot, lanes)?;
        Ok(())
    }

    /// Numbers the lanes of a slot where it has no numbers yet.
    pub fn add_slot(&mut self, alloc: Global, slot: u32) -> Result<(), AllocError>
        ensures table { IsTable self.old → IsTable self.new }
        ensures reserved { self.new.reserved ≡ self.old.reserved }
        ensures ranges { self.new.ranges ≡ self.old.ranges }
        ensures numbered { OnOk result (HasSlot self.new slot) }
        ensures kept { (s : ℕ) → HasSlot self.old s → HasSlot self.new s }
        ensures numbers { KeepsNumbers (number_in self.old) (number_in self.new) }
    {
        if self.slots.contains_key(&slot) {
            return Ok(());
        }
        self.new_slot(alloc, slot)?;
        Ok(())
    }
}
