//! V1: whether operands fit the roles of their opcode in number, kind and value.

ghost use Rattle.std.specs.Prelude.{◌≡◌, ◌&&◌, ◌==◌, not, length, filter, count_by, is_none, IfOk};
ghost use Rattle.std.specs.List.{list_all};
ghost use Rattle.mir_func.specs.Binding as binding;
ghost use Rattle.mir_meaning.specs.Rules as rules;
ghost use Rattle.mir_meaning.specs.Registers as registers;
ghost use Rattle.target_base.specs.Roles as roles;
ghost use Rattle.machine_verify.specs.Operands.{fits_next, reads_virtual, is_block, is_index, fits_roles};

use crate::lanes::{has_lanes, is_reserved_register};
use crate::parts::implicit_registers;
use crate::words::{is_opaque, same_role};
use instr_effects::items::lanes::push_operand_widths;
use mir_func::opcodes::{next_role, takes_many};
use mir_func::operands::{
    immediate_of, is_definition, is_implicit_operand, is_use, is_virtual, takes_role,
};
use mir_func::{Func, Operand, RegOp};
use std::alloc::{AllocError, Global};
use target_base::roles::{is_implicit, is_silent};
use target_base::{Effect, List, OpcodeDesc, Role, Target};

/// Whether the operand is an immediate, a frame object, a symbol, a subregister index, or a use of a
/// reserved register.
fn is_value(target: &Target, o: &Operand) -> bool
    ensures { result ≡ rules.is_value target.now o.now }
{
    match o {
        Operand::Reg(r) => is_use(r) && is_reserved_register(target, r.loc),
        Operand::Block(_) | Operand::Mask(_) => false,
        _ => true,
    }
}

/// Whether the operand is of the kind that the role asks for at an opaque opcode, beside what it asks
/// for at any.
fn fits_opaque(target: &Target, role: Role, o: &Operand) -> bool
    ensures { result ≡ rules.fits_opaque target.now role o.now }
{
    match (role, o) {
        (Role::Value(Some(_)), Operand::Reg(r)) => is_use(r),
        (Role::Value(_), _) | (Role::Any, _) => is_value(target, o),
        _ => false,
    }
}

/// Whether the operand is of the kind that the role asks for at any opcode.
fn fits_role(role: Role, o: &Operand) -> bool
    ensures { result ≡ rules.fits_role role o.now }
{
    match role {
        Role::Def(_) | Role::Early(_) => match o {
            Operand::Reg(r) => is_definition(r),
            _ => false,
        },
        Role::Read(_) | Role::Tied(_, _) | Role::Any => match o {
            Operand::Reg(r) => is_use(r),
            _ => false,
        },
        Role::Imm => match o {
            Operand::Imm(_) => true,
            _ => false,
        },
        Role::Target => match o {
            Operand::Block(_) => true,
            _ => false,
        },
        Role::Slot => match o {
            Operand::Stack(_) => true,
            _ => false,
        },
        Role::Lanes => match o {
            Operand::Imm(_) | Operand::Index(_) => true,
            _ => false,
        },
        Role::Sym => match o {
            Operand::Symbol(_) => true,
            _ => false,
        },
        Role::Frame => match o {
            Operand::Stack(_) | Operand::FixedStack(_) => true,
            _ => false,
        },
        Role::Address(_) => match o {
            Operand::Reg(r) => is_use(r),
            Operand::Stack(_) | Operand::FixedStack(_) | Operand::Symbol(_) => true,
            _ => false,
        },
        Role::Mask => match o {
            Operand::Mask(_) => true,
            _ => false,
        },
        Role::Rest => match o {
            Operand::Reg(r) => is_use(r) && !is_virtual(r.loc),
            _ => false,
        },
        Role::Value(_) | Role::ImpDef(_) | Role::ImpRead(_) => false,
    }
}

/// Whether the operand is of the kind that the role asks for at this effect.
fn fits_at(target: &Target, effect: Effect, role: Role, o: &Operand) -> bool
    ensures { result ≡ rules.fits_at target.now effect role o.now }
{
    fits_role(role, o) || (is_opaque(effect) && fits_opaque(target, role, o))
}

/// Whether there is a role left, and the operand is of the kind that it asks for.
fn fits_next(target: &Target, effect: Effect, role: Option<Role>, o: &Operand) -> bool
    ensures { result ≡ fits_next target.now effect role o.now }
{
    match role {
        None => false,
        Some(r) => fits_at(target, effect, r, o),
    }
}

/// Whether the explicit roles among these may stand without an operand.
fn are_enough(roles: &[Role]) -> bool
    ensures { result ≡ list_all binding.takes_many (binding.explicit_roles roles.now) }
{
    let mut rest = roles;
    'roles: while let [role, more @ ..] = rest {
        if !is_implicit(*role) && !takes_many(*role) {
            return false;
        }
        rest = more;
    }
    true
}

/// Whether explicit operands meet the explicit roles in number and kind.
#[tactic(auto, using(crate::proofs::Fit::explicit_step, crate::proofs::Fit::explicit_end))]
fn explicit_fit(target: &Target, effect: Effect, roles: &[Role], operands: &[Operand]) -> bool
    ensures { result ≡ rules.explicit_fit target.now effect (binding.explicit_roles roles.now) (binding.explicit_operands operands.now) }
{
    let mut left = roles;
    for o in operands {
        if !is_implicit_operand(o) {
            let (role, rest) = next_role(left);
            if !fits_next(target, effect, role, o) {
                return false;
            }
            left = rest;
        }
    }
    are_enough(left)
}

fn are_implicit(operands: &[Operand]) -> bool
    ensures { result ≡ list_all binding.is_implicit_operand operands.now }
{
    operands.iter().all(|o| is_implicit_operand(o))
}

/// Whether explicit operands stand before implicit ones.
fn implicit_last(operands: &[Operand]) -> bool
    ensures { result ≡ rules.implicit_last operands.now }
{
    let mut rest = operands;
    'operands: while let [o, more @ ..] = rest {
        if is_implicit_operand(o) {
            return are_implicit(more);
        }
        rest = more;
    }
    true
}

fn count_operands_of(implicit: &[RegOp], role: Role) -> usize
    ensures { result ≡ count_by (λ o. binding.takes_role o role) implicit.now }
{
    implicit.iter().filter(|o| takes_role(o, role)).count()
}

fn count_roles_of(roles: &[Role], role: Role) -> usize
    ensures { result ≡ count_by (rules.same_role role) roles.now }
{
    roles.iter().filter(|q| same_role(role, **q)).count()
}

/// Whether each implicit role stands as often as the opcode has it.
fn each_stands(roles: &[Role], implicit: &[RegOp]) -> bool
    ensures { result ≡ list_all (λ r. count_by (λ o. binding.takes_role o r) implicit.now == count_by (rules.same_role r) roles.now) (binding.implicit_roles roles.now) }
{
    let mut rest = roles;
    'roles: while let [role, more @ ..] = rest {
        if is_implicit(*role)
            && count_operands_of(implicit, *role) != count_roles_of(roles, *role)
        {
            return false;
        }
        rest = more;
    }
    true
}

/// Whether these are fixed registers of a counted opcode.
fn may_stand(effect: Effect, implicit: &[RegOp]) -> bool
    ensures { result ≡ list_all (λ o. not (binding.is_virtual o.loc) && not (roles.is_silent effect)) implicit.now }
{
    let is_counted = !is_silent(effect);
    implicit.iter().all(|o| !is_virtual(o.loc) && is_counted)
}

/// Whether implicit operands are fixed registers of a counted opcode, and each implicit role stands
/// as often as the opcode has it.
fn implicit_fit(d: &OpcodeDesc, implicit: &[RegOp]) -> bool
    ensures { result ≡ rules.implicit_fit d.now implicit.now }
{
    may_stand(d.effect, implicit) && each_stands(d.roles.as_slice(), implicit)
}

/// Whether the number is a condition of a conditional jump.
fn is_condition(z: i128) -> bool
    ensures { result ≡ rules.is_condition z }
{
    match z {
        2 | 3 | 4 | 5 | 12 | 13 => true,
        _ => false,
    }
}

fn is_zero(z: i128) -> bool
    ensures { result ≡ rules.is_zero z }
{
    z == 0
}

/// The number of an operand's lanes.
fn lane_count(alloc: Global, target: &Target, f: &Func, o: &RegOp) -> Result<usize, AllocError>
    ensures { IfOk result (λ n. n ≡ length (registers.operand_widths target.now f.now o.now)) }
{
    let mut widths = List::new(alloc);
    push_operand_widths(&mut widths, target, f, o)?;
    Ok(widths.len())
}

/// Whether the lanes of a slot are all, or as many as the register beside them has.
fn lanes_fit(
    alloc: Global,
    target: &Target,
    f: &Func,
    operands: &[Operand],
) -> Result<bool, AllocError>
    ensures { IfOk result (λ is_right. is_right ≡ rules.lanes_fit target.now f.now operands.now) }
{
    match operands {
        [Operand::Reg(_), _, Operand::Imm(z), ..] => Ok(is_zero(*z)),
        [Operand::Reg(o), _, Operand::Index(x), ..] => {
            if !has_lanes(target, f, o) {
                return Ok(true);
            }
            let count = lane_count(alloc, target, f, o)?;
            Ok(target.lanes_at(*x).len() == count)
        }
        _ => Ok(true),
    }
}

/// Whether conditions and lanes of slots are among those that are allowed.
fn values_fit(
    alloc: Global,
    target: &Target,
    f: &Func,
    effect: Effect,
    operands: &[Operand],
) -> Result<bool, AllocError>
    ensures { IfOk result (λ is_right. is_right ≡ rules.values_fit target.now f.now effect operands.now) }
{
    match effect {
        Effect::Jcc => Ok(is_condition(immediate_of(operands))),
        Effect::Spill => lanes_fit(alloc, target, f, operands),
        Effect::Reload => lanes_fit(alloc, target, f, operands),
        _ => Ok(true),
    }
}

/// Whether the operand is an explicit use of a virtual register.
fn reads_virtual(o: &Operand) -> bool
    ensures { result ≡ reads_virtual o.now }
{
    match o {
        Operand::Reg(r) => is_use(r) && is_virtual(r.loc),
        _ => false,
    }
}

fn is_block(o: &Operand) -> bool
    ensures { result ≡ is_block o.now }
{
    match o {
        Operand::Block(_) => true,
        _ => false,
    }
}

fn is_index(o: &Operand) -> bool
    ensures { result ≡ is_index o.now }
{
    match o {
        Operand::Index(_) => true,
        _ => false,
    }
}

/// Whether the operand is a virtual definition without an index.
fn is_whole_definition(o: &RegOp) -> bool
    ensures { result ≡ rules.is_whole_definition o.now }
{
    is_definition(o) && is_virtual(o.loc) && o.index.is_none()
}

/// A definition and a use.
fn copy_fits(operands: &[Operand]) -> bool
    ensures { result ≡ rules.copy_fits operands.now }
{
    match operands {
        [Operand::Reg(d), Operand::Reg(s)] => is_definition(d) && is_use(s),
        _ => false,
    }
}

/// A definition alone.
fn implicit_def_fits(operands: &[Operand]) -> bool
    ensures { result ≡ rules.implicit_def_fits operands.now }
{
    match operands {
        [Operand::Reg(d)] => is_definition(d),
        _ => false,
    }
}

/// Pairs of a use and a block.
#[tactic(auto, using(crate::proofs::Fit::phi_pair, crate::proofs::Fit::phi_lone))]
fn phi_pairs(operands: &[Operand]) -> bool
    ensures { result ≡ rules.phi_pairs operands.now }
{
    let mut rest = operands;
    'pairs: while let [a, b, more @ ..] = rest {
        if !reads_virtual(a) || !is_block(b) {
            return false;
        }
        rest = more;
    }
    rest.is_empty()
}

/// Pairs of a use and an index.
#[tactic(auto, using(crate::proofs::Fit::index_pair, crate::proofs::Fit::index_lone))]
fn index_pairs(operands: &[Operand]) -> bool
    ensures { result ≡ rules.index_pairs operands.now }
{
    let mut rest = operands;
    'pairs: while let [a, b, more @ ..] = rest {
        if !reads_virtual(a) || !is_index(b) {
            return false;
        }
        rest = more;
    }
    rest.is_empty()
}

/// Two uses and an index.
fn insertion(operands: &[Operand]) -> bool
    ensures { result ≡ rules.insertion operands.now }
{
    match operands {
        [Operand::Reg(a), Operand::Reg(b), Operand::Index(_)] => {
            is_use(a) && is_virtual(a.loc) && (is_use(b) && is_virtual(b.loc))
        }
        _ => false,
    }
}

/// A definition and pairs of a use and a block.
fn phi_fits(operands: &[Operand]) -> bool
    ensures { result ≡ rules.result_and rules.phi_pairs operands.now }
{
    match operands {
        [Operand::Reg(d), more @ ..] => is_whole_definition(d) && phi_pairs(more),
        _ => false,
    }
}

/// A definition and pairs of a use and an index.
fn reg_sequence_fits(operands: &[Operand]) -> bool
    ensures { result ≡ rules.result_and rules.index_pairs operands.now }
{
    match operands {
        [Operand::Reg(d), more @ ..] => is_whole_definition(d) && index_pairs(more),
        _ => false,
    }
}

/// A definition, two uses and an index.
fn insert_subreg_fits(operands: &[Operand]) -> bool
    ensures { result ≡ rules.result_and rules.insertion operands.now }
{
    match operands {
        [Operand::Reg(d), more @ ..] => is_whole_definition(d) && insertion(more),
        _ => false,
    }
}

/// Whether operands fit the roles of an opcode that has roles.
fn roles_fit(
    alloc: Global,
    target: &Target,
    f: &Func,
    d: &OpcodeDesc,
    operands: &[Operand],
) -> Result<bool, AllocError>
    ensures { IfOk result (λ is_right. is_right ≡ fits_roles target.now f.now d.now operands.now) }
{
    let roles = d.roles.as_slice();
    if !implicit_last(operands) {
        return Ok(false);
    }
    if !explicit_fit(target, d.effect, roles, operands) {
        return Ok(false);
    }
    let implicit = implicit_registers(alloc, operands)?;
    if !implicit_fit(d, implicit.as_slice()) {
        return Ok(false);
    }
    values_fit(alloc, target, f, d.effect, operands)
}

/// V1: whether operands fit the opcode's roles in number, kind and value.
pub(crate) fn operands_fit(
    alloc: Global,
    target: &Target,
    f: &Func,
    d: &OpcodeDesc,
    operands: &[Operand],
) -> Result<bool, AllocError>
    ensures { IfOk result (λ is_right. is_right ≡ rules.operands_fit target.now f.now d.now operands.now d.now.effect) }
{
    match d.effect {
        Effect::Copy => Ok(copy_fits(operands)),
        Effect::ImplicitDef => Ok(implicit_def_fits(operands)),
        Effect::Phi => Ok(phi_fits(operands)),
        Effect::RegSequence => Ok(reg_sequence_fits(operands)),
        Effect::InsertSubreg => Ok(insert_subreg_fits(operands)),
        _ => roles_fit(alloc, target, f, d, operands),
    }
}
