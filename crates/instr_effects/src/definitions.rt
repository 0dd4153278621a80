//! The explicit definitions of an instruction, each with its own role.

ghost use Rattle.std.specs.Prelude.{◌≡◌, ◌∷◌, List};
ghost use Rattle.std.specs.List.{cons_option};
ghost use Rattle.mir_func.specs.declared.func.Operand.{Operand};
ghost use Rattle.mir_func.specs.Binding.{definition_in, definitions};

use mir_func::opcodes::{is_early, next_role};
use mir_func::operands::{is_definition, is_implicit_operand};
use mir_func::{Operand, RegOp};
use target_base::Role;

/// Says of a write that it isn't by an early-clobber definition.
pub(crate) const LATE: bool = false;

/// An explicit definition, and whether it is an early-clobber one.
pub(crate) type Definition = (bool, RegOp);

/// The explicit definition that an operand with this role is, if it is one.
fn definition_in(role: Option<Role>, operand: &Operand) -> Option<Definition>
    ensures { result ≡ definition_in (role, operand.now) }
{
    match operand {
        Operand::Reg(op) if is_definition(op) => Some((is_early(role), *op)),
        _ => None,
    }
}

/// The explicit definition that the next operand is, if it is one, and the roles that are left behind
/// it.
#[tactic(auto, using(crate::proofs::Defined::definitions_seen, crate::proofs::Defined::definitions_passed))]
pub(crate) fn next_definition<'a>(
    roles: &'a [Role],
    operand: &Operand,
) -> (Option<Definition>, &'a [Role])
    ensures { (os : List Operand) → definitions roles.now (operand.now ∷ os) ≡ cons_option result.0 (definitions result.1.now os) }
{
    if is_implicit_operand(operand) {
        return (None, roles);
    }
    let (role, left) = next_role(roles);
    (definition_in(role, operand), left)
}
