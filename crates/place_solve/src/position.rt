//! The units that are in use around a place.

ghost use Rattle.std.specs.Prelude.{◌≡◌};
ghost use Rattle.std.specs.List.{list_any};
ghost use Rattle.mir_func.specs.Binding.{passes, definition_in, definitions};
ghost use Rattle.live_lanes.specs.Looks.{InOrder};
ghost use Rattle.place_solve.specs.Positions.{has_unit, keeps_unit, defines, defines_early, clobbers, writes, writes_early, is_taken, is_left, entry_tests, exit_tests, at_entry, at_exit};

use instr_effects::masks::is_preserved;
use live_lanes::LiveFunc;
use mir_func::opcodes::{effect_of, is_early, next_role, roles_of};
use mir_func::operands::{is_definition, is_implicit_operand};
use mir_func::{Instr, Loc, Operand, RegOp};
use target_base::{Boxed, Effect, OpaqueKind, Role, Target, Unit, registers};

/// Where a place stands.
#[derive(Clone, Copy)]
pub enum PlacePosition<'a> {
    /// Instructions that make one place.
    Instrs(&'a [Boxed<Instr>]),
    /// A copy before the instruction of that id.
    Before(u32),
    /// A copy behind the instruction of that id.
    Behind(u32),
    /// A copy at the start of the block of that number.
    Start(u32),
}

/// Whether a location is a register that has the unit.
fn has_unit(target: &Target, o: RegOp, u: Unit) -> bool
    ensures { result ≡ has_unit target.now o.loc u }
{
    match o.loc {
        Loc::Virtual(_) => false,
        Loc::Fixed(r) => registers::has_unit(target.units_at(r), u),
    }
}

/// Whether an operand defines the unit.
#[tactic(auto, unfolding(crate::specs::Positions::defines))]
fn defines(target: &Target, o: &Operand, u: Unit) -> bool
    ensures { result ≡ defines target.now u o.now }
{
    match o {
        Operand::Reg(r) => r.def && has_unit(target, *r, u),
        _ => false,
    }
}

/// Whether an operand with this role is an early-clobber definition of the unit.
fn defines_early(target: &Target, role: Option<Role>, o: &Operand, u: Unit) -> bool
    ensures { result ≡ passes (defines_early target.now u) (definition_in (role, o.now)) }
{
    match o {
        Operand::Reg(r) => is_definition(r) && is_early(role) && has_unit(target, *r, u),
        _ => false,
    }
}

/// Whether one of the operands defines the unit.
#[tactic(auto, using(crate::proofs::Units::anys))]
fn is_defined(target: &Target, operands: &[Operand], u: Unit) -> bool
    ensures { result ≡ list_any (defines target.now u) operands.now }
{
    'each: for o in operands {
        if defines(target, o, u) {
            return true;
        }
    }
    false
}

/// Whether one of the operands is a mask that preserves the unit.
#[tactic(auto, unfolding(crate::specs::Positions::keeps_unit))]
fn is_kept(target: &Target, operands: &[Operand], u: Unit) -> bool
    ensures { result ≡ list_any (keeps_unit target.now u) operands.now }
{
    is_preserved(target, operands, u.0 as u32)
}

/// Whether the instruction is a call that makes the unit undefined.
fn clobbers(target: &Target, i: &Instr, u: Unit) -> bool
    ensures { result ≡ clobbers target.now i.now u }
{
    match effect_of(target, i) {
        Some(Effect::Call | Effect::Opaque(OpaqueKind::Call)) => {
            !is_kept(target, i.operands.as_slice(), u)
        }
        _ => false,
    }
}

/// Whether the instruction writes an unreserved unit.
fn writes(target: &Target, i: &Instr, u: Unit) -> bool
    ensures { result ≡ writes target.now i.now u }
{
    is_defined(target, i.operands.as_slice(), u) || clobbers(target, i, u)
}

/// Whether one of the operands, which take these roles, is an early-clobber definition of the unit.
#[tactic(auto, using(crate::proofs::Early::earlies))]
fn is_defined_early(target: &Target, roles: &[Role], operands: &[Operand], u: Unit) -> bool
    ensures { result ≡ list_any (defines_early target.now u) (definitions roles.now operands.now) }
{
    let mut left = roles;
    'each: for o in operands {
        if !is_implicit_operand(o) {
            let (role, behind) = next_role(left);
            if defines_early(target, role, o, u) {
                return true;
            }
            left = behind;
        }
    }
    false
}

/// Whether the instruction writes the unit by an early-clobber definition.
fn writes_early(target: &Target, i: &Instr, u: Unit) -> bool
    ensures { result ≡ writes_early target.now i.now u }
{
    is_defined_early(target, roles_of(target, i), i.operands.as_slice(), u)
}

/// Whether uses may not lie in the unit at an instruction.
fn is_taken(live: &LiveFunc, i: &Instr, u: Unit) -> bool
    ensures { InOrder live.now.table → result ≡ is_taken live.now.target live.now.table u i.now }
{
    live.unit_in(u, i.id) || writes_early(live.target(), i, u)
}

/// Whether uses may not lie in the unit at instructions that make one place.
#[tactic(auto, using(crate::proofs::Units::entries))]
fn is_entered(live: &LiveFunc, instrs: &[Boxed<Instr>], u: Unit) -> bool
    ensures { InOrder live.now.table → result ≡ entry_tests live.now.target live.now.table u instrs.now }
{
    'each: for k in 0..instrs.len() {
        let i = instrs[k].get();
        if is_taken(live, i, u) {
            return true;
        }
        if k + 1 < instrs.len() && writes(live.target(), i, u) {
            return true;
        }
    }
    false
}

/// Whether definitions may not lie in the unit at an instruction.
fn is_left(live: &LiveFunc, i: &Instr, u: Unit) -> bool
    ensures { InOrder live.now.table → result ≡ is_left live.now.target live.now.table u i.now }
{
    live.unit_out(u, i.id) || writes(live.target(), i, u)
}

/// Whether definitions may not lie in the unit at instructions that make one place.
#[tactic(auto, using(crate::proofs::Units::anys))]
fn is_exited(live: &LiveFunc, instrs: &[Boxed<Instr>], u: Unit) -> bool
    ensures { InOrder live.now.table → result ≡ exit_tests live.now.target live.now.table u instrs.now }
{
    'each: for i in instrs {
        if is_left(live, i.get(), u) {
            return true;
        }
    }
    false
}

/// Whether uses and copies at the place may not lie in the unit.
pub fn is_at_entry(live: &LiveFunc, around: PlacePosition<'_>, u: Unit) -> bool
    ensures { InOrder live.now.table → result ≡ at_entry live.now.target live.now.table around.entry u }
{
    match around {
        PlacePosition::Before(id) => live.unit_in(u, id),
        PlacePosition::Behind(id) => live.unit_out(u, id),
        PlacePosition::Start(block) => live.unit_at(u, block),
        PlacePosition::Instrs(instrs) => is_entered(live, instrs, u),
    }
}

/// Whether definitions at the place may not lie in the unit.
pub fn is_at_exit(live: &LiveFunc, around: PlacePosition<'_>, u: Unit) -> bool
    ensures { InOrder live.now.table → result ≡ at_exit live.now.target live.now.table around.entry u }
{
    match around {
        PlacePosition::Instrs(instrs) => is_exited(live, instrs, u),
        _ => false,
    }
}
