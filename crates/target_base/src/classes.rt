//! Questions about a target's classes and their opcodes. None of them takes memory.

ghost use Rattle.std.specs.Prelude.{◌≡◌, Some, position, IsTrue, IfSome, option_map};
ghost use Rattle.target_base.specs.Numbers.{reg_number};
ghost use Rattle.target_base.specs.Registers.{IsReg, IsClass, IsOpcode, HasIndex, lanes_of, regs_of, fits, part_of, move_class, class_of_widths, widths_of_some, home_of, spill_place, reload_place};
ghost use Rattle.target_base.specs.Roles.{role_class, first_class};
ghost use Rattle.target_base.specs.Rules.{regs_of_some, spills, reloads, is_spill, is_reload};
ghost use Rattle.target_base.specs.Storage.{alike_place, holds_reg, is_within, holds_place, holds_subs, lanes_fit, part_place, same_numbers, widths, class_widths, class_units, unit_width};

use crate::registers::{find_sub, units_at};
use crate::types::{
    ClassDesc, ClassId, Effect, IndexId, OpId, OpcodeDesc, Reg, RegDesc, Role, Target, Unit,
    UnitDesc,
};

impl Target {
    /// Whether the index picks the units of a register, of each register of the class. Without an
    /// index it does.
    pub fn fits(&self, c: ClassId, i: Option<IndexId>) -> bool
        requires class { IsClass self.now c }
        requires index { HasIndex self.now i }
        ensures { result ≡ fits self.now c i }
    {
        self.fits_at(c, i)
    }

    /// The first class that holds, of each register of the class, the register that the index
    /// picks; without an index the class itself.
    pub fn part(&self, c: ClassId, i: Option<IndexId>) -> ClassId
        requires class { IsClass self.now c }
        requires index { HasIndex self.now i }
        requires fits { IsTrue (fits self.now c i) }
        ensures value { part_of self.now c i ≡ Some result }
        ensures there { IsClass self.now result }
    {
        self.part_at(c, i).unwrap_or(c)
    }

    /// The first class with the lane widths of the class's part for the index: the class of a
    /// register that such a part is copied through.
    pub fn move_of(&self, c: ClassId, i: Option<IndexId>) -> ClassId
        requires class { IsClass self.now c }
        requires index { HasIndex self.now i }
        requires fits { IsTrue (fits self.now c i) }
        ensures value { move_class self.now c i ≡ Some result }
        ensures there { IsClass self.now result }
    {
        self.move_at(c, i).unwrap_or(c)
    }

    /// The first class that holds the register. None where no class holds it.
    pub fn home(&self, r: Reg) -> Option<ClassId>
        requires { IsReg self.now r }
        ensures value { result ≡ home_of self.now r }
        ensures there { IfSome result (IsClass self.now) }
    {
        self.home_at(r)
    }

    /// The first spill opcode whose class holds all registers of the class.
    pub fn spill_op(&self, c: ClassId) -> OpId
        requires { IsClass self.now c }
        ensures value { spill_place self.now c ≡ Some result.0 }
        ensures there { IsOpcode self.now result }
    {
        self.spill_at(c).unwrap_or(OpId(0))
    }

    /// The first reload opcode whose class holds all registers of the class.
    pub fn reload_op(&self, c: ClassId) -> OpId
        requires { IsClass self.now c }
        ensures value { reload_place self.now c ≡ Some result.0 }
        ensures there { IsOpcode self.now result }
    {
        self.reload_at(c).unwrap_or(OpId(0))
    }
}

// The same of numbers that the target may not have.
impl Target {
    /// Whether the index picks the units of a register, of each register of the class. Without an
    /// index it does.
    pub fn fits_at(&self, c: ClassId, i: Option<IndexId>) -> bool
        ensures { result ≡ fits self.now c i }
    {
        match i {
            None => true,
            Some(i) => have_subs(self.regs.as_slice(), self.lanes_at(i), self.regs_in(c)),
        }
    }

    /// The place of the first class that holds, of each register of the class, the register that the
    /// index picks.
    fn part_place(&self, c: ClassId, i: IndexId) -> Option<usize>
        ensures { result ≡ part_place self.now.regs self.now.classes (lanes_of self.now i) (regs_of self.now c) }
    {
        let (regs, classes) = (self.regs.as_slice(), self.classes.as_slice());
        find_part(regs, classes, self.lanes_at(i), self.regs_in(c))
    }

    /// The first class that holds, of each register of the class, the register that the index
    /// picks; without an index the class itself. None where there is no such class.
    pub fn part_at(&self, c: ClassId, i: Option<IndexId>) -> Option<ClassId>
        ensures value { result ≡ part_of self.now c i }
        ensures there { IsClass self.now c → IfSome result (IsClass self.now) }
    {
        match i {
            None => Some(c),
            Some(i) => match self.part_place(c, i) {
                None => None,
                Some(place) => Some(ClassId(place as u16)),
            },
        }
    }

    /// The place of the first class with the lane widths of these registers' class.
    fn alike_place(&self, rs: &[Reg]) -> Option<usize>
        ensures { result ≡ alike_place self.now.units self.now.regs self.now.classes rs.now }
    {
        let (units, regs) = (self.units.as_slice(), self.regs.as_slice());
        self.classes
            .as_slice()
            .iter()
            .position(|d| are_alike(units, regs, d.regs.as_slice(), rs))
    }

    /// The first class with the lane widths of this one; without a class the first one without lanes.
    pub fn alike_at(&self, c: Option<ClassId>) -> Option<ClassId>
        ensures value { result ≡ class_of_widths self.now (widths_of_some self.now c) }
        ensures there { IfSome result (IsClass self.now) }
    {
        match self.alike_place(regs_at(self.classes.as_slice(), c)) {
            None => None,
            Some(place) => Some(ClassId(place as u16)),
        }
    }

    /// The first class with the lane widths of the class's part for the index: the class of a
    /// register that such a part is copied through. None where there is no such class.
    pub fn move_at(&self, c: ClassId, i: Option<IndexId>) -> Option<ClassId>
        ensures value { result ≡ move_class self.now c i }
        ensures there { IfSome result (IsClass self.now) }
    {
        self.alike_at(self.part_at(c, i))
    }

    /// The first class that holds the register. None where no class holds it.
    pub fn home_at(&self, r: Reg) -> Option<ClassId>
        ensures value { result ≡ home_of self.now r }
        ensures there { IfSome result (IsClass self.now) }
    {
        match find_home(self.classes.as_slice(), r) {
            None => None,
            Some(place) => Some(ClassId(place as u16)),
        }
    }

    /// The first spill opcode whose class holds all registers of the class. None where none does.
    pub fn spill_at(&self, c: ClassId) -> Option<OpId>
        ensures value { option_map (λ o. o.0) result ≡ spill_place self.now c }
        ensures there { IfSome result (IsOpcode self.now) }
    {
        let (classes, opcodes) = (self.classes.as_slice(), self.opcodes.as_slice());
        match find_spill(classes, self.regs_in(c), opcodes) {
            None => None,
            Some(place) => Some(OpId(place as u16)),
        }
    }

    /// The first reload opcode whose class holds all registers of the class. None where none does.
    pub fn reload_at(&self, c: ClassId) -> Option<OpId>
        ensures value { option_map (λ o. o.0) result ≡ reload_place self.now c }
        ensures there { IfSome result (IsOpcode self.now) }
    {
        let (classes, opcodes) = (self.classes.as_slice(), self.opcodes.as_slice());
        match find_reload(classes, self.regs_in(c), opcodes) {
            None => None,
            Some(place) => Some(OpId(place as u16)),
        }
    }
}

impl Target {
    /// The units of the first register of a class, which give the class's lanes their widths; none
    /// without a class.
    pub fn class_units(&self, class: Option<ClassId>) -> &[Unit]
        ensures { result.now ≡ class_units self.now.regs (regs_of_some self.now.classes class) }
    {
        first_units(
            self.regs.as_slice(),
            regs_at(self.classes.as_slice(), class),
        )
    }
}

/// Whether the lanes pick the units of a register, of each register of the list.
pub fn have_subs(regs: &[RegDesc], lanes: &[u8], rs: &[Reg]) -> bool
    ensures { result ≡ lanes_fit regs.now lanes.now rs.now }
{
    rs.iter()
        .all(|r| find_sub(regs, units_at(regs, *r), lanes).is_some())
}

/// Whether the list holds a register.
pub fn holds(rs: &[Reg], r: Reg) -> bool
    ensures { result ≡ holds_reg rs.now r }
{
    rs.iter().any(|q| q.0 == r.0)
}

/// Whether the list holds the register of a number.
pub fn holds_number(rs: &[Reg], k: usize) -> bool
    ensures { result ≡ holds_reg rs.now (reg_number k) }
{
    rs.iter().any(|q| q.0 as usize == k)
}

/// Whether the list holds the register at a place, if one was found.
pub fn holds_found(rs: &[Reg], place: Option<usize>) -> bool
    ensures { result ≡ holds_place rs.now place }
{
    match place {
        None => false,
        Some(k) => holds_number(rs, k),
    }
}

/// Whether `qs` holds what the lanes pick of each register of `rs`.
pub fn hold_subs(regs: &[RegDesc], lanes: &[u8], rs: &[Reg], qs: &[Reg]) -> bool
    ensures { result ≡ holds_subs regs.now lanes.now rs.now qs.now }
{
    rs.iter().all(|r| holds_found(qs, find_sub(regs, units_at(regs, *r), lanes)))
}

/// The place of the first class that holds what the lanes pick of each register of `rs`.
pub fn find_part(regs: &[RegDesc], classes: &[ClassDesc], lanes: &[u8], rs: &[Reg]) -> Option<usize>
    ensures { result ≡ part_place regs.now classes.now lanes.now rs.now }
{
    classes
        .iter()
        .position(|d| hold_subs(regs, lanes, rs, d.regs.as_slice()))
}

/// The place of the first class that holds the register.
pub fn find_home(classes: &[ClassDesc], r: Reg) -> Option<usize>
    ensures { result ≡ position (λ d. holds_reg d.regs r) classes.now }
{
    classes.iter().position(|d| holds(d.regs.as_slice(), r))
}

/// Whether all registers of `rs` lie in `qs`.
pub fn are_within(rs: &[Reg], qs: &[Reg]) -> bool
    ensures { result ≡ is_within rs.now qs.now }
{
    rs.iter().all(|r| holds(qs, *r))
}

/// The width of a unit in bits; 0 where the list is too short.
pub fn width_of(units: &[UnitDesc], u: Unit) -> u8
    ensures { result ≡ unit_width units.now u }
{
    match units.get(u.0 as usize) {
        None => 0,
        Some(d) => d.width,
    }
}

/// Whether two lists of units have the same widths.
pub fn have_same_widths(units: &[UnitDesc], a: &[Unit], b: &[Unit]) -> bool
    ensures { result ≡ same_numbers (widths units.now a.now) (widths units.now b.now) }
{
    if a.len() != b.len() {
        return false;
    }
    for k in 0..a.len() {
        if width_of(units, a[k]) != width_of(units, b[k]) {
            return false;
        }
    }
    true
}

/// The units of the first register of a list.
pub fn first_units<'a>(regs: &'a [RegDesc], rs: &[Reg]) -> &'a [Unit]
    ensures { result.now ≡ class_units regs.now rs.now }
{
    match rs.first() {
        None => &[],
        Some(r) => units_at(regs, *r),
    }
}

/// Whether two classes have the same lane widths.
pub fn are_alike(units: &[UnitDesc], regs: &[RegDesc], a: &[Reg], b: &[Reg]) -> bool
    ensures { result ≡ same_numbers (class_widths units.now regs.now a.now) (class_widths units.now regs.now b.now) }
{
    have_same_widths(units, first_units(regs, a), first_units(regs, b))
}

/// The class of a definition or a use; other roles have none.
pub fn class_of(role: Role) -> Option<ClassId>
    ensures { result ≡ role_class role }
{
    match role {
        Role::Def(k) | Role::Early(k) | Role::Read(k) | Role::Tied(k, _) => Some(k),
        Role::Value(k) => k,
        _ => None,
    }
}

/// The class of the first role that has one.
pub fn first_class(roles: &[Role]) -> Option<ClassId>
    ensures { result ≡ first_class roles.now }
{
    for role in roles {
        if let Some(k) = class_of(*role) {
            return Some(k);
        }
    }
    None
}

/// The registers of a class in allocation order; none without a class.
pub fn regs_at(classes: &[ClassDesc], k: Option<ClassId>) -> &[Reg]
    ensures { result.now ≡ regs_of_some classes.now k }
{
    match k {
        None => &[],
        Some(k) => match classes.get(k.0 as usize) {
            None => &[],
            Some(d) => d.regs.as_slice(),
        },
    }
}

/// Whether the effect stores in a spill slot.
pub fn is_spill(e: Effect) -> bool
    ensures { result ≡ is_spill e }
{
    match e {
        Effect::Spill => true,
        _ => false,
    }
}

/// Whether the effect reloads from a spill slot.
pub fn is_reload(e: Effect) -> bool
    ensures { result ≡ is_reload e }
{
    match e {
        Effect::Reload => true,
        _ => false,
    }
}

/// Whether an opcode spills all these registers.
pub fn does_spill(classes: &[ClassDesc], rs: &[Reg], o: &OpcodeDesc) -> bool
    ensures { result ≡ spills classes.now rs.now o.now }
{
    is_spill(o.effect) && are_within(rs, regs_at(classes, first_class(o.roles.as_slice())))
}

/// Whether an opcode reloads all these registers.
pub fn does_reload(classes: &[ClassDesc], rs: &[Reg], o: &OpcodeDesc) -> bool
    ensures { result ≡ reloads classes.now rs.now o.now }
{
    is_reload(o.effect) && are_within(rs, regs_at(classes, first_class(o.roles.as_slice())))
}

fn find_spill(classes: &[ClassDesc], rs: &[Reg], opcodes: &[OpcodeDesc]) -> Option<usize>
    ensures { result ≡ position (spills classes.now rs.now) opcodes.now }
{
    opcodes.iter().position(|o| does_spill(classes, rs, o))
}

fn find_reload(classes: &[ClassDesc], rs: &[Reg], opcodes: &[OpcodeDesc]) -> Option<usize>
    ensures { result ≡ position (reloads classes.now rs.now) opcodes.now }
{
    opcodes.iter().position(|o| does_reload(classes, rs, o))
}
