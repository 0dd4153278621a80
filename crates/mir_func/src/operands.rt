//! What the operands of an instruction are. None of the questions takes memory.

ghost use Rattle.std.specs.Prelude.{◌≡◌, ◌==◌};
ghost use Rattle.mir_func.specs.Binding.{as_register, register_at, as_slot, slot_at, as_immediate, immediate_of, is_implicit_operand, same_fixed, takes_role, class_of, is_virtual, is_definition, is_use, same_loc, same_index};

use crate::func::{Func, Loc, Operand, RegOp};
use target_base::{ClassId, IndexId, Reg, Role};

/// The operand as a register operand, where it is one.
pub fn as_register(operand: &Operand) -> Option<RegOp>
    ensures { result ≡ as_register operand.now }
{
    match operand {
        Operand::Reg(op) => Some(*op),
        _ => None,
    }
}

/// The register operand at a place, if one is.
pub fn register_at(operands: &[Operand], place: usize) -> Option<RegOp>
    ensures { result ≡ register_at operands.now place }
{
    match operands.get(place) {
        Some(operand) => as_register(operand),
        None => None,
    }
}

/// The number of the operand's frame object `%stack.N`, where it is one.
pub fn as_slot(operand: &Operand) -> Option<u32>
    ensures { result ≡ as_slot operand.now }
{
    match operand {
        Operand::Stack(slot) => Some(*slot),
        _ => None,
    }
}

/// The frame object `%stack.N` at a place, if one is.
pub fn slot_at(operands: &[Operand], place: usize) -> Option<u32>
    ensures { result ≡ slot_at operands.now place }
{
    match operands.get(place) {
        Some(operand) => as_slot(operand),
        None => None,
    }
}

/// The operand as an immediate, where it is one.
pub fn as_immediate(operand: &Operand) -> Option<i128>
    ensures { result ≡ as_immediate operand.now }
{
    match operand {
        Operand::Imm(value) => Some(*value),
        _ => None,
    }
}

/// The first immediate operand, or 0.
pub fn immediate_of(operands: &[Operand]) -> i128
    ensures { result ≡ immediate_of operands.now }
{
    for o in operands {
        if let Operand::Imm(z) = o {
            return *z;
        }
    }
    0
}

/// Whether an operand is a register operand that is marked implicit.
pub fn is_implicit_operand(o: &Operand) -> bool
    ensures { result ≡ is_implicit_operand o.now }
{
    match o {
        Operand::Reg(r) => r.implicit,
        _ => false,
    }
}

/// Whether a location is a virtual register.
pub fn is_virtual(loc: Loc) -> bool
    ensures { result ≡ is_virtual loc }
{
    match loc {
        Loc::Virtual(_) => true,
        Loc::Fixed(_) => false,
    }
}

/// Whether an operand is an explicit definition.
pub fn is_definition(o: &RegOp) -> bool
    ensures { result ≡ is_definition o.now }
{
    o.def && !o.implicit
}

/// Whether an operand is an explicit use.
pub fn is_use(o: &RegOp) -> bool
    ensures { result ≡ is_use o.now }
{
    !o.def && !o.implicit
}

/// Whether two locations are one register.
pub fn same_loc(a: Loc, b: Loc) -> bool
    ensures { result ≡ same_loc a b }
{
    match (a, b) {
        (Loc::Virtual(v), Loc::Virtual(w)) => v == w,
        (Loc::Fixed(r), Loc::Fixed(q)) => r.0 == q.0,
        _ => false,
    }
}

/// Whether two indexes are one, or both are absent.
pub fn same_index(a: Option<IndexId>, b: Option<IndexId>) -> bool
    ensures { result ≡ same_index a b }
{
    match (a, b) {
        (None, None) => true,
        (Some(x), Some(y)) => x.0 == y.0,
        _ => false,
    }
}

/// Whether a location is that physical register.
pub fn is_fixed(loc: Loc, r: Reg) -> bool
    ensures { result ≡ same_fixed r loc }
{
    match loc {
        Loc::Virtual(_) => false,
        Loc::Fixed(own) => r.0 == own.0,
    }
}

/// Whether an implicit operand is what the role names.
pub fn takes_role(o: &RegOp, role: Role) -> bool
    ensures { result ≡ takes_role o.now role }
{
    match role {
        Role::ImpDef(r) => o.def && is_fixed(o.loc, r),
        Role::ImpRead(r) => !o.def && is_fixed(o.loc, r),
        _ => false,
    }
}

/// The class of a virtual register, where it has just one.
pub fn class_of(f: &Func, v: u32) -> Option<ClassId>
    ensures { result ≡ class_of f.now v }
{
    match f.classes.as_slice().get(v as usize) {
        None => None,
        Some(class) => *class,
    }
}
