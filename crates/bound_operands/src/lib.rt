//! The operands of an instruction with the roles that they take, and the pairs that these tie.
//!
//! They are exactly those of the definitions of `mir_func`. Verifiers and places go by them.
#![tactic(auto)]

ghost use Rattle.std.specs.Prelude.{◌≡◌, ◌++◌, map, find, option_map, IfOk};
ghost use Rattle.mir_func.specs.Binding as binding;
ghost use Rattle.bound_operands.specs.Seen.{bound_by, seen, seen_all, seen_pair};

use mir_func::opcodes::{next_role, tied_number};
use mir_func::operands::{is_implicit_operand, register_at, takes_role};
use mir_func::{Operand, RegOp};
use std::alloc::{AllocError, Global};
use target_base::Role;
use target_base::roles::is_implicit;

/// An operand with the role that it takes, if it takes one.
#[derive(Clone, Copy)]
pub struct BoundOperand<'a> {
    /// Its role.
    pub role: Option<Role>,
    /// The operand.
    pub operand: &'a Operand,
}

/// The explicit operands with their roles.
fn explicit_bound<'a>(
    alloc: Global,
    roles: &[Role],
    operands: &'a [Operand],
) -> Result<Vec<BoundOperand<'a>>, AllocError>
    ensures { IfOk result (λ made. seen_all made.items ≡ binding.explicit_bound (binding.explicit_roles roles.now) (binding.explicit_operands operands.now)) }
{
    let mut made = Vec::new(alloc);
    let mut left = roles;
    for operand in operands {
        if !is_implicit_operand(operand) {
            let (role, rest) = next_role(left);
            made.push(BoundOperand { role, operand })?;
            left = rest;
        }
    }
    Ok(made)
}

/// The first implicit role that an implicit operand takes.
fn implicit_role(roles: &[Role], o: &RegOp) -> Option<Role>
    ensures { result ≡ find (binding.takes_role o.now) (binding.implicit_roles roles.now) }
{
    for role in roles {
        if is_implicit(*role) && takes_role(o, *role) {
            return Some(*role);
        }
    }
    None
}

/// These bound operands with the implicit ones behind them.
fn with_implicit<'a>(
    made: Vec<BoundOperand<'a>>,
    roles: &[Role],
    operands: &'a [Operand],
) -> Result<Vec<BoundOperand<'a>>, AllocError>
    ensures { IfOk result (λ all. seen_all all.items ≡ seen_all made.entry.items ++ map (binding.implicit_bound (binding.implicit_roles roles.now)) (binding.implicit_registers operands.now)) }
{
    let mut all = made;
    for operand in operands {
        if let Operand::Reg(r) = operand {
            if r.implicit {
                let role = implicit_role(roles, r);
                all.push(BoundOperand { role, operand })?;
            }
        }
    }
    Ok(all)
}

/// The operands with the roles that they take among these, explicit ones before implicit ones.
pub fn bind<'a>(
    alloc: Global,
    roles: &[Role],
    operands: &'a [Operand],
) -> Result<Vec<BoundOperand<'a>>, AllocError>
    ensures { IfOk result (λ made. seen_all made.items ≡ bound_by roles.now operands.now) }
{
    let made = explicit_bound(alloc, roles, operands)?;
    with_implicit(made, roles, operands)
}

/// A definition and a use that share a register.
#[derive(Clone, Copy)]
pub struct TiedPair {
    /// The number of the definition: its place among the operands.
    pub number: usize,
    /// The definition.
    pub definition: RegOp,
    /// The use.
    pub tied_use: RegOp,
}

/// The pair of the definition of a number, if it is there, and a use.
fn paired_with(operands: &[Operand], tied_use: RegOp, number: Option<usize>) -> Option<TiedPair>
    ensures { option_map seen_pair result ≡ binding.paired_with operands.now tied_use number }
{
    let number = number?;
    let definition = register_at(operands, number)?;
    Some(TiedPair {
        number,
        definition,
        tied_use,
    })
}

/// The tied pair of an operand among these whose role is tied.
pub fn tied_pair(operands: &[Operand], b: BoundOperand<'_>) -> Option<TiedPair>
    ensures { option_map seen_pair result ≡ binding.tied_pair operands.now (seen b.entry) }
{
    match b.operand {
        Operand::Reg(u) => paired_with(operands, *u, tied_number(b.role)),
        _ => None,
    }
}
