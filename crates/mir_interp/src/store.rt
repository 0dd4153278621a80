//! What lanes hold in the course of a run.

ghost use Rattle.std.specs.Prelude.{◌≡◌, OnOk, IfOk, None, Some};
ghost use Rattle.mir_interp.specs.Holds.{key_of, held_apart, held_by, updated};
ghost use Rattle.meaning.specs.declared.types.Lane.{Lane};

use meaning::Lane;
use std::alloc::{AllocError, Global};
use std::collections::HashMap;

/// A lane as the key of a map: its kind, and up to three numbers.
type LaneKey = (u8, u32, u32, u32);

/// What each lane holds. Units, and the first four lanes of each virtual register, have cells of
/// their own; other lanes, those of spill slots among them, stand in a map.
#[derive(Drop)]
pub struct Store {
    units: Vec<Option<u128>>,
    ranges: Vec<Option<u128>>,
    others: HashMap<LaneKey, Option<u128>>,
}

/// The lanes of each virtual register that have cells of their own.
const DENSE: usize = 4;

/// The key of a lane.
fn key_of(l: Lane) -> LaneKey
    ensures { result ≡ key_of l }
{
    match l {
        Lane::VirtualLane(v, k) => (0, v, k, 0),
        Lane::UnitLane(u) => (1, u, 0, 0),
        Lane::SlotLane(s, k, w) => (2, s, k, w),
    }
}

impl Store {
    /// A store for so many units and virtual registers, in which each lane is Undef.
    pub fn new(alloc: Global, units: usize, ranges: usize) -> Result<Store, AllocError>
        ensures { IfOk result (λ made. (l : Lane) → held_by made l ≡ None) }
    {
        let cells = match ranges.checked_mul(DENSE) {
            None => return Err(AllocError),
            Some(cells) => cells,
        };
        Ok(Store {
            units: Vec::from_elem(alloc, None, units)?,
            ranges: Vec::from_elem(alloc, None, cells)?,
            others: HashMap::new(alloc),
        })
    }

    /// What a lane holds that has no cell.
    fn get_apart(&self, l: Lane) -> Option<u128>
        ensures { result ≡ held_apart self.now.others.entries l }
    {
        match self.others.get(&key_of(l)) {
            None => None,
            Some(held) => *held,
        }
    }

    /// What a lane holds.
    pub fn get(&self, l: &Lane) -> Option<u128>
        ensures { result ≡ held_by self.now l.now }
    {
        match l {
            Lane::UnitLane(u) => {
                let at = *u as usize;
                if at < self.units.len() {
                    self.units[at]
                } else {
                    self.get_apart(*l)
                }
            }
            Lane::VirtualLane(v, k) => {
                let at = DENSE * *v as usize + *k as usize;
                if (*k as usize) < DENSE && at < self.ranges.len() {
                    self.ranges[at]
                } else {
                    self.get_apart(*l)
                }
            }
            Lane::SlotLane(_, _, _) => self.get_apart(*l),
        }
    }

    /// Lets a lane that has no cell hold a value.
    fn set_apart(&mut self, l: Lane, held: Option<u128>) -> Result<(), AllocError>
        ensures units { self.new.units ≡ self.old.units }
        ensures ranges { self.new.ranges ≡ self.old.ranges }
        ensures apart { OnOk result ((m : Lane) → held_apart self.new.others.entries m ≡ updated (held_apart self.old.others.entries) l held m) }
    {
        self.others.insert(key_of(l), held)?;
        Ok(())
    }

    /// Lets a lane hold a value.
    pub fn set(&mut self, l: &Lane, held: Option<u128>) -> Result<(), AllocError>
        ensures { OnOk result ((m : Lane) → held_by self.new m ≡ updated (held_by self.old) l.now held m) }
    {
        match l {
            Lane::UnitLane(u) => {
                let at = *u as usize;
                if at < self.units.len() {
                    self.units[at] = held;
                    Ok(())
                } else {
                    self.set_apart(*l, held)
                }
            }
            Lane::VirtualLane(v, k) => {
                let at = DENSE * *v as usize + *k as usize;
                if (*k as usize) < DENSE && at < self.ranges.len() {
                    self.ranges[at] = held;
                    Ok(())
                } else {
                    self.set_apart(*l, held)
                }
            }
            Lane::SlotLane(_, _, _) => self.set_apart(*l, held),
        }
    }
}
