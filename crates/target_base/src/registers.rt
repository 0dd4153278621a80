//! Questions about a target's registers. None of them takes memory.

ghost use Rattle.std.specs.Prelude.{◌≡◌, ◌<◌, ◌↔◌, IsTrue, length, slice_get, Some, IfSome};
ghost use Rattle.target_base.specs.Numbers.{unit_number};
ghost use Rattle.target_base.specs.Registers.{IsReg, IsIndex, IsClass, units_of, lanes_of, regs_of, mask_regs, is_reserved_unit, Alias, sub_of};
ghost use Rattle.target_base.specs.Storage.{is_among, is_picked, is_unit, is_unreserved, reg_units, sub_place};

use crate::types::{ClassId, IndexId, MaskId, Reg, RegDesc, Target, Unit};

impl Target {
    /// The version of the target's text, 1 or 2.
    pub fn version(&self) -> u8
        ensures { result ≡ self.now.version }
    {
        self.version
    }

    /// The units of a register, lane by lane.
    pub fn units_of(&self, r: Reg) -> &[Unit]
        requires { IsReg self.now r }
        ensures { result.now ≡ units_of self.now r }
    {
        self.regs.get(r.0 as usize).units.as_slice()
    }

    /// The lanes that an index picks, in order.
    pub fn lanes_of(&self, i: IndexId) -> &[u8]
        requires { IsIndex self.now i }
        ensures { result.now ≡ lanes_of self.now i }
    {
        self.indexes.get(i.0 as usize).lanes.as_slice()
    }

    /// The registers of a class in allocation order.
    pub fn regs_of(&self, c: ClassId) -> &[Reg]
        requires { IsClass self.now c }
        ensures { result.now ≡ regs_of self.now c }
    {
        self.classes.get(c.0 as usize).regs.as_slice()
    }

    /// Whether two registers share a unit.
    pub fn alias(&self, a: Reg, b: Reg) -> bool
        requires a { IsReg self.now a }
        requires b { IsReg self.now b }
        ensures { IsTrue result ↔ Alias self.now a b }
    {
        let others = self.units_of(b);
        self.units_of(a).iter().any(|u| others.contains(u))
    }

    /// The unit of one lane of a register.
    pub fn unit_of(&self, r: Reg, lane: usize) -> Unit
        requires register { IsReg self.now r }
        requires lane { lane < length (units_of self.now r) }
        ensures { slice_get (units_of self.now r) lane ≡ Some result }
    {
        self.units_of(r)[lane]
    }

    /// The first register that has the units which the index picks of `r`, in the index's order
    /// (LLVM's `getSubReg`). None where no register has these units.
    pub fn sub_of(&self, r: Reg, i: IndexId) -> Option<Reg>
        requires register { IsReg self.now r }
        requires index { IsIndex self.now i }
        ensures value { result ≡ sub_of self.now r i }
        ensures there { IfSome result (IsReg self.now) }
    {
        self.sub_at(r, i)
    }
}

// The same of numbers that the target may not have.
impl Target {
    /// The units of a register, lane by lane; none where the target has no such register.
    pub fn units_at(&self, r: Reg) -> &[Unit]
        ensures { result.now ≡ units_of self.now r }
    {
        units_at(self.regs.as_slice(), r)
    }

    /// The lanes that an index picks, in order; none where the target has no such index.
    pub fn lanes_at(&self, i: IndexId) -> &[u8]
        ensures { result.now ≡ lanes_of self.now i }
    {
        match self.indexes.as_slice().get(i.0 as usize) {
            None => &[],
            Some(d) => d.lanes.as_slice(),
        }
    }

    /// The registers of a class in allocation order; none where the target has no such class.
    pub fn regs_in(&self, c: ClassId) -> &[Reg]
        ensures { result.now ≡ regs_of self.now c }
    {
        match self.classes.as_slice().get(c.0 as usize) {
            None => &[],
            Some(d) => d.regs.as_slice(),
        }
    }

    /// The first register that has the units which the index picks of `r`, in the index's order.
    /// None where no register has these units.
    pub fn sub_at(&self, r: Reg, i: IndexId) -> Option<Reg>
        ensures value { result ≡ sub_of self.now r i }
        ensures there { IfSome result (IsReg self.now) }
    {
        match find_sub(self.regs.as_slice(), self.units_at(r), self.lanes_at(i)) {
            None => None,
            Some(place) => Some(Reg(place as u16)),
        }
    }

    /// The registers that a call mask preserves; none where the target has no such mask.
    pub fn mask_regs(&self, m: MaskId) -> &[Reg]
        ensures { result.now ≡ mask_regs self.now m }
    {
        match self.masks.as_slice().get(m.0 as usize) {
            None => &[],
            Some(d) => d.regs.as_slice(),
        }
    }

    /// Whether the unit of a number is reserved.
    pub fn is_reserved_unit(&self, n: u32) -> bool
        ensures { result ≡ is_reserved_unit self.now n }
    {
        has_unit_number(self.reserved.as_slice(), n)
    }

    /// Whether none of a register's units is reserved.
    pub fn is_unreserved(&self, r: Reg) -> bool
        ensures { result ≡ is_unreserved self.now.reserved self.now.regs r }
    {
        is_unreserved(self.reserved.as_slice(), self.regs.as_slice(), r)
    }
}

/// Whether the list holds a unit.
pub fn has_unit(us: &[Unit], u: Unit) -> bool
    ensures { result ≡ is_among us.now u }
{
    us.iter().any(|v| v.0 == u.0)
}

/// Whether the list holds the unit of a number.
pub fn has_unit_number(us: &[Unit], n: u32) -> bool
    ensures { result ≡ is_among us.now (unit_number n) }
{
    us.iter().any(|v| v.0 as u32 == n)
}

/// Whether none of a register's units is among these reserved ones.
pub fn is_unreserved(reserved: &[Unit], regs: &[RegDesc], r: Reg) -> bool
    ensures { result ≡ is_unreserved reserved.now regs.now r }
{
    units_at(regs, r).iter().all(|u| !has_unit(reserved, *u))
}

/// The units of a register of a list, lane by lane; none where the list is too short.
pub fn units_at(regs: &[RegDesc], r: Reg) -> &[Unit]
    ensures { result.now ≡ reg_units regs.now r }
{
    match regs.get(r.0 as usize) {
        None => &[],
        Some(d) => d.units.as_slice(),
    }
}

/// The place of the first register with the units that the lanes pick.
pub fn find_sub(regs: &[RegDesc], units: &[Unit], lanes: &[u8]) -> Option<usize>
    ensures { result ≡ sub_place regs.now units.now lanes.now }
{
    regs.iter()
        .position(|d| is_picked(units, lanes, d.units.as_slice()))
}

/// Whether the lanes pick exactly these units.
pub fn is_picked(units: &[Unit], lanes: &[u8], picked: &[Unit]) -> bool
    ensures { result ≡ is_picked units.now lanes.now picked.now }
{
    if lanes.len() != picked.len() {
        return false;
    }
    for k in 0..lanes.len() {
        if !is_unit_at(units, lanes[k], picked[k]) {
            return false;
        }
    }
    true
}

/// Whether a lane of these units is this one.
fn is_unit_at(units: &[Unit], lane: u8, unit: Unit) -> bool
    ensures { result ≡ is_unit (slice_get units.now lane) unit }
{
    match units.get(lane as usize) {
        None => false,
        Some(u) => u.0 == unit.0,
    }
}
