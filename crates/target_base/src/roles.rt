//! What the effects and the roles of opcodes are. None of the questions takes memory.

ghost use Rattle.std.specs.Prelude.{◌≡◌, find, filter};
ghost use Rattle.target_base.specs.Roles.{is_definition, is_tied, is_implicit, is_silent, first_implicit, bound_roles};
ghost use Rattle.target_base.specs.Rules.{is_copy, is_phi};

use crate::types::{Effect, Role};

/// Whether the role is that of a definition.
pub fn is_definition(role: Role) -> bool
    ensures { result ≡ is_definition role }
{
    match role {
        Role::Def(_) | Role::Early(_) => true,
        _ => false,
    }
}

/// Whether the role is that of a use which shares the register of a definition.
pub fn is_tied(role: Role) -> bool
    ensures { result ≡ is_tied role }
{
    match role {
        Role::Tied(_, _) => true,
        _ => false,
    }
}

/// Whether the role is that of an implicit operand.
pub fn is_implicit(role: Role) -> bool
    ensures { result ≡ is_implicit role }
{
    match role {
        Role::ImpDef(_) | Role::ImpRead(_) => true,
        _ => false,
    }
}

fn find_implicit(roles: &[Role]) -> Option<Role>
    ensures { result ≡ find is_implicit roles.now }
{
    roles.iter().copied().find(|r| is_implicit(*r))
}

/// The first role of an implicit operand, if there is one.
pub fn first_implicit(roles: &[Role]) -> Option<Role>
    ensures found { result ≡ find is_implicit roles.now }
    ensures first { result ≡ first_implicit (filter is_implicit roles.now) }
{
    find_implicit(roles)
}

/// Whether an instruction of this effect counts for nothing in a run.
pub fn is_silent(e: Effect) -> bool
    ensures { result ≡ is_silent e }
{
    match e {
        Effect::Copy
        | Effect::Phi
        | Effect::ImplicitDef
        | Effect::RegSequence
        | Effect::InsertSubreg
        | Effect::Const
        | Effect::Addr
        | Effect::Spill
        | Effect::Reload => true,
        _ => false,
    }
}

/// Whether the effect is that of COPY.
pub fn is_copy(e: Effect) -> bool
    ensures { result ≡ is_copy e }
{
    match e {
        Effect::Copy => true,
        _ => false,
    }
}

/// Whether the effect is that of PHI.
pub fn is_phi(e: Effect) -> bool
    ensures { result ≡ is_phi e }
{
    match e {
        Effect::Phi => true,
        _ => false,
    }
}

/// How many of the first roles are bound to one width.
pub fn bound_roles(effect: Effect) -> usize
    ensures { result ≡ bound_roles effect }
{
    match effect {
        Effect::Add
        | Effect::Sub
        | Effect::Mul
        | Effect::And
        | Effect::Or
        | Effect::Xor
        | Effect::Shl
        | Effect::Shr
        | Effect::Sar
        | Effect::Udiv
        | Effect::Urem
        | Effect::Madd => 3,
        Effect::Neg | Effect::Not | Effect::Cmp => 2,
        _ => 0,
    }
}
