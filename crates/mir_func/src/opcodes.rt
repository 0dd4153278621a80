//! What the opcode of an instruction says of it. None of the questions takes memory.

ghost use Rattle.std.specs.Prelude.{◌≡◌, ◌≤◌, length, option_copied, option_and_then, map, not};
ghost use Rattle.std.specs.List.{position, position_or_len};
ghost use Rattle.target_base.specs.Roles.{is_tied};
ghost use Rattle.target_base.specs.Rules.{is_copy, is_phi};
ghost use Rattle.mir_func.specs.Binding.{known_opcode, effect_of, roles_of, passes, does, is_conditional, ends_control, is_branch, puts_together, is_lowered_away, is_terminator, takes_many, is_early, is_early_clobber, tied_number, ties_to, first_role, after_first, explicit_roles, asked_class};

use crate::func::{Instr, Op};
use target_base::{Boxed, ClassId, Effect, OpaqueKind, OpcodeDesc, Role, Target, classes, roles};

/// The description of an opcode; none where it is an excluded one.
pub fn desc_of<'a>(target: &'a Target, op: &Op) -> Option<&'a OpcodeDesc>
    ensures { option_copied result ≡ known_opcode target.now op.now }
{
    match op {
        Op::Known(op) => target.opcodes.as_slice().get(op.0 as usize),
        Op::Excluded(_) => None,
    }
}

/// What the instruction's opcode computes; nothing where it is an excluded one.
pub fn effect_of(target: &Target, i: &Instr) -> Option<Effect>
    ensures { result ≡ effect_of target.now i.now }
{
    match &i.op {
        Op::Known(op) => match target.opcodes.as_slice().get(op.0 as usize) {
            None => None,
            Some(d) => Some(d.effect),
        },
        Op::Excluded(_) => None,
    }
}

/// The roles of the instruction's opcode; an excluded one has none.
pub fn roles_of<'a>(target: &'a Target, i: &Instr) -> &'a [Role]
    ensures { result.now ≡ roles_of target.now i.now }
{
    match &i.op {
        Op::Known(op) => match target.opcodes.as_slice().get(op.0 as usize) {
            None => &[],
            Some(d) => d.roles.as_slice(),
        },
        Op::Excluded(_) => &[],
    }
}

/// Whether control doesn't go on behind an instruction of this effect.
pub fn ends_control(e: Effect) -> bool
    ensures { result ≡ ends_control e }
{
    match e {
        Effect::Jump | Effect::Ret | Effect::Opaque(OpaqueKind::Return) => true,
        _ => false,
    }
}

/// Whether the effect is that of a branch which is taken under a condition.
pub fn is_conditional(e: Effect) -> bool
    ensures { result ≡ is_conditional e }
{
    match e {
        Effect::Jcc | Effect::Jnz | Effect::Opaque(OpaqueKind::Branch) => true,
        _ => false,
    }
}

/// Whether the effect is that of a jump or a conditional branch.
pub fn is_branch(e: Effect) -> bool
    ensures { result ≡ is_branch e }
{
    match e {
        Effect::Jump => true,
        _ => is_conditional(e),
    }
}

/// Whether the effect is REG_SEQUENCE's or INSERT_SUBREG's.
pub fn puts_together(e: Effect) -> bool
    ensures { result ≡ puts_together e }
{
    match e {
        Effect::RegSequence | Effect::InsertSubreg => true,
        _ => false,
    }
}

/// Whether the effect is PHI's, REG_SEQUENCE's or INSERT_SUBREG's, which lowering takes away.
pub fn is_lowered_away(e: Effect) -> bool
    ensures { result ≡ is_lowered_away e }
{
    roles::is_phi(e) || puts_together(e)
}

/// Whether the effect is that of a jump, a conditional branch or a return.
pub fn ends_block(e: Effect) -> bool
    ensures { result ≡ is_terminator e }
{
    ends_control(e) || is_conditional(e)
}

/// Whether the instruction is a jump, a conditional branch or a return (LLVM's `isTerminator`).
pub fn is_terminator(target: &Target, i: &Instr) -> bool
    ensures { result ≡ does is_terminator target.now i.now }
{
    match effect_of(target, i) {
        None => false,
        Some(e) => ends_block(e),
    }
}

/// Whether the instruction is a phi.
pub fn is_phi(target: &Target, i: &Instr) -> bool
    ensures { result ≡ does is_phi target.now i.now }
{
    match effect_of(target, i) {
        None => false,
        Some(e) => roles::is_phi(e),
    }
}

/// Whether the instruction is a COPY.
pub fn is_copy(target: &Target, i: &Instr) -> bool
    ensures { result ≡ does is_copy target.now i.now }
{
    match effect_of(target, i) {
        None => false,
        Some(e) => roles::is_copy(e),
    }
}

/// The place of the first terminator, if there is one.
fn find_terminator(target: &Target, instrs: &[Boxed<Instr>]) -> Option<usize>
    ensures { result ≡ position (does is_terminator target.now) instrs.now }
{
    instrs.iter().position(|i| is_terminator(target, i.get()))
}

/// The place of the first terminator, or the number of instructions.
#[tactic(auto, using(crate::proofs::Places::places))]
pub fn first_terminator(target: &Target, instrs: &[Boxed<Instr>]) -> usize
    ensures value { result ≡ position_or_len (does is_terminator target.now) instrs.now }
    ensures within { result ≤ length instrs.now }
{
    find_terminator(target, instrs).unwrap_or(instrs.len())
}

/// Whether the role stands for any number of operands.
pub fn takes_many(role: Role) -> bool
    ensures { result ≡ takes_many role }
{
    match role {
        Role::Any | Role::Rest => true,
        _ => false,
    }
}

/// Whether an opcode with these roles has an early-clobber definition.
pub fn is_early_clobber(roles: &[Role]) -> bool
    ensures { result ≡ is_early_clobber roles.now }
{
    match roles.first() {
        Some(Role::Early(_)) => true,
        _ => false,
    }
}

/// Whether an operand's role, if it has one, is that of an early-clobber definition.
pub fn is_early(role: Option<Role>) -> bool
    ensures { result ≡ passes is_early role }
{
    match role {
        Some(Role::Early(_)) => true,
        _ => false,
    }
}

/// Whether an operand's role, if it has one, is that of a use which shares the register of the
/// definition.
pub fn is_tied(role: Option<Role>) -> bool
    ensures { result ≡ passes is_tied role }
{
    match role {
        Some(Role::Tied(_, _)) => true,
        _ => false,
    }
}

/// The number of the definition to which an operand's role, if it has one, ties its use: the
/// definition's place among the operands.
pub fn tied_number(role: Option<Role>) -> Option<usize>
    ensures { result ≡ option_and_then tied_number role }
{
    match role {
        Some(Role::Tied(_, n)) => Some(n as usize),
        _ => None,
    }
}

/// Whether an operand's role, if it has one, ties its use to the definition of that number.
pub fn ties_to(role: Option<Role>, number: usize) -> bool
    ensures { result ≡ passes (ties_to number) role }
{
    match tied_number(role) {
        Some(n) => number == n,
        None => false,
    }
}

/// The role that the next explicit operand takes, and the roles that are left behind it.
pub fn next_role(roles: &[Role]) -> (Option<Role>, &[Role])
    ensures role { result.0 ≡ first_role (explicit_roles roles.now) }
    ensures left { explicit_roles result.1.now ≡ after_first (explicit_roles roles.now) }
{
    let mut rest = roles;
    'roles: while let [role, more @ ..] = rest {
        if !roles::is_implicit(*role) {
            let left = if takes_many(*role) { rest } else { more };
            return (Some(*role), left);
        }
        rest = more;
    }
    (None, rest)
}

/// The class that a role asks of a register, if it asks for one.
pub fn asked_class(role: Role) -> Option<ClassId>
    ensures { result ≡ asked_class role }
{
    match role {
        Role::Address(k) => Some(k),
        r => classes::class_of(r),
    }
}
