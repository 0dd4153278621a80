//! The roles that an opaque opcode has.

ghost use Rattle.std.specs.Prelude.{◌≡◌, ◌==◌, count_by, flat_map};
ghost use Rattle.std.specs.List.{list_all, list_any};
ghost use Rattle.target_base.specs.Names.{are_distinct_numbers};
ghost use Rattle.target_base.specs.Roles as roles;
ghost use Rattle.target_desc.specs.Shapes.{passes};

use crate::roles::{RoleTest, are_implicit, passes};
use target_base::classes::{are_within, regs_at};
use target_base::{ClassDesc, ClassId, OpaqueKind, Role};

/// The roles behind those at the beginning that pass a test.
fn behind(test: RoleTest, rs: &[Role]) -> &[Role]
    ensures { result.now ≡ roles.behind (passes test) rs.now }
{
    let mut rest = rs;
    'roles: while let [role, more @ ..] = rest {
        if !passes(test, *role) {
            return rest;
        }
        rest = more;
    }
    rest
}

/// The roles behind one that stands for any number of operands, if the first does.
fn behind_many(rs: &[Role]) -> &[Role]
    ensures { result.now ≡ roles.behind_many rs.now }
{
    match rs {
        [Role::Any, more @ ..] => more,
        [Role::Rest, more @ ..] => more,
        _ => rs,
    }
}

/// Whether definitions come first, then operands, then at most one role for any number of them,
/// and then implicit ones.
fn are_in_order(rs: &[Role]) -> bool
    ensures { result ≡ roles.are_in_order rs.now }
{
    let operands = behind(RoleTest::Definition, rs);
    are_implicit(behind_many(behind(RoleTest::Operand, operands)))
}

/// Whether a role is a definition of a class whose registers all lie in the class `k`.
fn defines_within(classes: &[ClassDesc], k: ClassId, role: Option<Role>) -> bool
    ensures { result ≡ roles.defines_within classes.now k role }
{
    match role {
        Some(Role::Def(c)) | Some(Role::Early(c)) => {
            are_within(regs_at(classes, Some(c)), regs_at(classes, Some(k)))
        }
        _ => false,
    }
}

/// Whether a role that is tied names a definition that is there, and its class holds each register
/// of that definition's class.
fn tie_fits(classes: &[ClassDesc], rs: &[Role], role: Role) -> bool
    ensures { result ≡ roles.opaque_tie_fits classes.now rs.now role }
{
    match role {
        Role::Tied(k, n) => n < 255 && defines_within(classes, k, rs.get(n as usize).copied()),
        _ => true,
    }
}

fn each_tie_fits(classes: &[ClassDesc], rs: &[Role]) -> bool
    ensures { result ≡ list_all (roles.opaque_tie_fits classes.now rs.now) rs.now }
{
    rs.iter().all(|role| tie_fits(classes, rs, *role))
}

/// Whether a role is tied to the definition of that number.
fn is_tied_to(n: u8, role: Role) -> bool
    ensures { result ≡ list_any (λ m. n == m) (roles.tied_to role) }
{
    match role {
        Role::Tied(_, m) => n == m,
        _ => false,
    }
}

fn any_role_tied_to(n: u8, rs: &[Role]) -> bool
    ensures { result ≡ list_any (λ r. list_any (λ m. n == m) (roles.tied_to r)) rs.now }
{
    rs.iter().any(|role| is_tied_to(n, *role))
}

fn any_tied_to(n: u8, rs: &[Role]) -> bool
    ensures { result ≡ list_any (λ m. n == m) (flat_map roles.tied_to rs.now) }
{
    any_role_tied_to(n, rs)
}

/// Whether one of the roles is tied to the definition that this one is tied to.
fn is_tied_again(role: Role, rs: &[Role]) -> bool
    ensures { result ≡ list_any (λ n. list_any (λ m. n == m) (flat_map roles.tied_to rs.now)) (roles.tied_to role) }
{
    match role {
        Role::Tied(_, n) => any_tied_to(n, rs),
        _ => false,
    }
}

/// Whether no two roles are tied to one definition.
fn are_ties_distinct(rs: &[Role]) -> bool
    ensures { result ≡ are_distinct_numbers (flat_map roles.tied_to rs.now) }
{
    let mut rest = rs;
    'roles: while let [role, more @ ..] = rest {
        if is_tied_again(*role, more) {
            return false;
        }
        rest = more;
    }
    true
}

/// How many roles pass a test.
fn count(test: RoleTest, rs: &[Role]) -> usize
    ensures { result ≡ count_by (passes test) rs.now }
{
    rs.iter().filter(|role| passes(test, **role)).count()
}

/// Whether opcodes of this kind may have definitions.
fn may_define(kind: OpaqueKind) -> bool
    ensures { result ≡ roles.may_define kind }
{
    match kind {
        OpaqueKind::Plain => true,
        _ => false,
    }
}

/// How many targets opcodes of this kind name.
fn targets_of(kind: OpaqueKind) -> usize
    ensures { result ≡ roles.targets_of kind }
{
    match kind {
        OpaqueKind::Branch => 1,
        _ => 0,
    }
}

/// Whether opcodes of this kind may have so many masks.
fn masks_fit(kind: OpaqueKind, count: usize) -> bool
    ensures { result ≡ roles.masks_fit kind count }
{
    match kind {
        OpaqueKind::Call => count == 1,
        OpaqueKind::Return => count <= 1,
        _ => count == 0,
    }
}

/// Whether there are as many definitions, targets and masks as the kind asks for.
fn counts_fit(kind: OpaqueKind, rs: &[Role]) -> bool
    ensures { result ≡ roles.counts_fit kind rs.now }
{
    (may_define(kind) || count(RoleTest::Definition, rs) == 0)
        && count(RoleTest::Block, rs) == targets_of(kind)
        && masks_fit(kind, count(RoleTest::Mask, rs))
}

/// Whether the roles are those of an opaque opcode.
pub(crate) fn opaque_fit(classes: &[ClassDesc], kind: OpaqueKind, rs: &[Role]) -> bool
    ensures { result ≡ roles.opaque_fit classes.now kind rs.now }
{
    are_in_order(rs) && are_ties_distinct(rs) && each_tie_fits(classes, rs) && counts_fit(kind, rs)
}
