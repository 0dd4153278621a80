//! Tests of effects, roles and operands.

ghost use Rattle.std.specs.Prelude.{◌≡◌};
ghost use Rattle.target_base.specs.Roles as roles;
ghost use Rattle.mir_func.specs.Binding as binding;
ghost use Rattle.mir_meaning.specs.Rules as tests;

use target_base::classes::{is_reload, is_spill};
use target_base::{Effect, Role};

/// Whether the effect stores to a slot or reloads from one.
pub(crate) fn spills_or_reloads(e: Effect) -> bool
    ensures { result ≡ tests.spills_or_reloads e }
{
    is_spill(e) || is_reload(e)
}

/// Whether the effect is opaque.
pub(crate) fn is_opaque(e: Effect) -> bool
    ensures { result ≡ tests.is_opaque e }
{
    match e {
        Effect::Opaque(_) => true,
        _ => false,
    }
}

/// Whether there is a role, and it asks for a spill slot.
pub(crate) fn is_slot(role: Option<Role>) -> bool
    ensures { result ≡ binding.passes roles.is_slot role }
{
    match role {
        Some(Role::Slot) => true,
        _ => false,
    }
}

/// Whether two implicit roles are one.
pub(crate) fn same_role(a: Role, b: Role) -> bool
    ensures { result ≡ tests.same_role a b }
{
    match (a, b) {
        (Role::ImpDef(r), Role::ImpDef(q)) => r.0 == q.0,
        (Role::ImpRead(r), Role::ImpRead(q)) => r.0 == q.0,
        _ => false,
    }
}
