//! The roles and widths that an effect asks of an opcode.

ghost use Rattle.std.specs.Prelude.{◌≡◌, ◌<◌, map, length, take, filter, sum, nat_eq, not, ◌&&◌, ◌||◌, ◌==◌, ◌%◌, count_by, IfSome};
ghost use Rattle.std.specs.List.{list_all};
ghost use Rattle.target_base.specs.Roles as roles;
ghost use Rattle.target_base.specs.Storage.{class_units, class_regs, unit_width, widths};
ghost use Rattle.target_desc.specs.Shapes.{passes, classes_from};

use crate::opaque::opaque_fit;
use crate::widths::total_width;
use target_base::classes::{class_of, first_units, regs_at, width_of};
use target_base::registers::units_at;
use target_base::roles::{
    bound_roles, first_implicit, is_definition, is_implicit, is_silent, is_tied,
};
use target_base::{ClassDesc, ClassId, Effect, Reg, RegDesc, Role, Unit, UnitDesc};

/// What an effect asks of one explicit role.
#[derive(Clone, Copy)]
pub(crate) enum RoleTest {
    Definition,
    Use,
    UseOrImmediate,
    Immediate,
    FrameOrSymbol,
    Address,
    Block,
    Symbol,
    Mask,
    Rest,
    Any,
    Slot,
    Lanes,
    Operand,
}

fn is_use(role: Role) -> bool
    ensures { result ≡ roles.is_use role }
{
    match role {
        Role::Read(_) => true,
        Role::Tied(_, _) => true,
        _ => false,
    }
}

fn is_immediate(role: Role) -> bool
    ensures { result ≡ roles.is_immediate role }
{
    match role {
        Role::Imm => true,
        _ => false,
    }
}

fn is_frame_or_symbol(role: Role) -> bool
    ensures { result ≡ roles.is_frame_or_symbol role }
{
    match role {
        Role::Frame => true,
        Role::Sym => true,
        _ => false,
    }
}

fn is_address(role: Role) -> bool
    ensures { result ≡ roles.is_address role }
{
    match role {
        Role::Address(_) => true,
        _ => false,
    }
}

fn is_block(role: Role) -> bool
    ensures { result ≡ roles.is_block role }
{
    match role {
        Role::Target => true,
        _ => false,
    }
}

fn is_symbol(role: Role) -> bool
    ensures { result ≡ roles.is_symbol role }
{
    match role {
        Role::Sym => true,
        _ => false,
    }
}

fn is_mask(role: Role) -> bool
    ensures { result ≡ roles.is_mask role }
{
    match role {
        Role::Mask => true,
        _ => false,
    }
}

fn is_rest(role: Role) -> bool
    ensures { result ≡ roles.is_rest role }
{
    match role {
        Role::Rest => true,
        _ => false,
    }
}

fn is_any(role: Role) -> bool
    ensures { result ≡ roles.is_any role }
{
    match role {
        Role::Any => true,
        _ => false,
    }
}

fn is_slot(role: Role) -> bool
    ensures { result ≡ roles.is_slot role }
{
    match role {
        Role::Slot => true,
        _ => false,
    }
}

fn is_lanes(role: Role) -> bool
    ensures { result ≡ roles.is_lanes role }
{
    match role {
        Role::Lanes => true,
        _ => false,
    }
}

/// Whether a role stands for one operand of an opaque opcode, beside its definitions.
fn is_operand(role: Role) -> bool
    ensures { result ≡ roles.is_operand role }
{
    match role {
        Role::Read(_)
        | Role::Tied(_, _)
        | Role::Value(_)
        | Role::Address(_)
        | Role::Imm
        | Role::Target
        | Role::Sym
        | Role::Frame
        | Role::Mask => true,
        _ => false,
    }
}

/// Whether a role passes a test.
pub(crate) fn passes(test: RoleTest, role: Role) -> bool
    ensures { result ≡ passes test role }
{
    match test {
        RoleTest::Definition => is_definition(role),
        RoleTest::Use => is_use(role),
        RoleTest::UseOrImmediate => is_use(role) || is_immediate(role),
        RoleTest::Immediate => is_immediate(role),
        RoleTest::FrameOrSymbol => is_frame_or_symbol(role),
        RoleTest::Address => is_address(role),
        RoleTest::Block => is_block(role),
        RoleTest::Symbol => is_symbol(role),
        RoleTest::Mask => is_mask(role),
        RoleTest::Rest => is_rest(role),
        RoleTest::Any => is_any(role),
        RoleTest::Slot => is_slot(role),
        RoleTest::Lanes => is_lanes(role),
        RoleTest::Operand => is_operand(role),
    }
}

pub(crate) fn are_implicit(rs: &[Role]) -> bool
    ensures { result ≡ list_all roles.is_implicit rs.now }
{
    rs.iter().all(|role| is_implicit(*role))
}

/// Whether the first roles pass these tests, each its own, and only implicit roles follow.
fn have_shape(tests: &[RoleTest], rs: &[Role]) -> bool
    ensures { result ≡ roles.has_shape (map passes tests.now) rs.now }
{
    let mut rest = rs;
    for test in tests {
        match rest {
            [] => return false,
            [role, more @ ..] => {
                if !passes(*test, *role) {
                    return false;
                }
                rest = more;
            }
        }
    }
    are_implicit(rest)
}

/// Whether the explicit roles are those of the effect. No roles are those of an effect whose
/// opcodes belong to every target, or of an opaque one.
fn fits_shape(effect: Effect, rs: &[Role]) -> bool
    ensures { result ≡ roles.shape_fits (roles.explicit_shape effect) rs.now }
{
    use RoleTest::{
        Address, Any, Block, Definition, FrameOrSymbol, Immediate, Lanes, Mask, Rest, Slot, Symbol,
        Use, UseOrImmediate,
    };
    match effect {
        Effect::Copy
        | Effect::Phi
        | Effect::ImplicitDef
        | Effect::RegSequence
        | Effect::InsertSubreg
        | Effect::Opaque(_) => false,
        Effect::Const => have_shape(&[Definition, Immediate], rs),
        Effect::Addr => have_shape(&[Definition, FrameOrSymbol], rs),
        Effect::Add
        | Effect::Sub
        | Effect::Mul
        | Effect::And
        | Effect::Or
        | Effect::Xor
        | Effect::Shl
        | Effect::Shr
        | Effect::Sar
        | Effect::Udiv
        | Effect::Urem => have_shape(&[Definition, Use, UseOrImmediate], rs),
        Effect::Neg | Effect::Not | Effect::Zext | Effect::Sext => {
            have_shape(&[Definition, Use], rs)
        }
        Effect::Madd => have_shape(&[Definition, Use, UseOrImmediate, Use], rs),
        Effect::Cmp => have_shape(&[Use, UseOrImmediate], rs),
        Effect::Load(_) => have_shape(&[Definition, Address, Immediate], rs),
        Effect::Store(_) => have_shape(&[Address, Immediate, Use], rs),
        Effect::Jump => have_shape(&[Block], rs),
        Effect::Jcc => have_shape(&[Block, Immediate], rs),
        Effect::Jnz => have_shape(&[Use, Block], rs),
        Effect::Call => have_shape(&[Symbol, Mask, Rest], rs),
        Effect::Ret => have_shape(&[Rest], rs),
        Effect::Marker => have_shape(&[Any], rs),
        Effect::Spill => have_shape(&[Use, Slot, Lanes], rs),
        Effect::Reload => have_shape(&[Definition, Slot, Lanes], rs),
    }
}

/// The class of the first role that has one, and the roles behind it.
fn next_class(rs: &[Role]) -> Option<(ClassId, &[Role])>
    ensures class { roles.classes_of rs.now ≡ classes_from result }
    ensures shorter { IfSome result (λ p. length p.1.now < length rs.now) }
{
    let mut rest = rs;
    'roles: while let [role, more @ ..] = rest {
        if let Some(k) = class_of(*role) {
            return Some((k, more));
        }
        rest = more;
    }
    None
}

/// The units of a class's first register, whose widths are those of the class.
fn units_of_class<'a>(regs: &'a [RegDesc], classes: &[ClassDesc], k: ClassId) -> &'a [Unit]
    ensures { result.now ≡ class_units regs.now (class_regs classes.now k) }
{
    first_units(regs, regs_at(classes, Some(k)))
}

/// The width of a class in bits.
fn width_of_class(units: &[UnitDesc], regs: &[RegDesc], classes: &[ClassDesc], k: ClassId) -> u128
    ensures { result ≡ sum (roles.widths_of_class units.now regs.now classes.now k) }
{
    total_width(units, units_of_class(regs, classes, k))
}

/// Whether all classes of these roles have this width.
fn have_width(
    units: &[UnitDesc],
    regs: &[RegDesc],
    classes: &[ClassDesc],
    rs: &[Role],
    width: u128,
) -> bool
    ensures { result ≡ list_all (λ m. width == m) (map (λ k. sum (roles.widths_of_class units.now regs.now classes.now k)) (roles.classes_of rs.now)) }
{
    let mut rest = rs;
    'classes: while let Some((k, more)) = next_class(rest) {
        if width != width_of_class(units, regs, classes, k) {
            return false;
        }
        rest = more;
    }
    true
}

/// Whether the classes of these roles have equal widths.
fn have_one_width(units: &[UnitDesc], regs: &[RegDesc], classes: &[ClassDesc], rs: &[Role]) -> bool
    ensures { result ≡ roles.all_same (map (λ k. sum (roles.widths_of_class units.now regs.now classes.now k)) (roles.classes_of rs.now)) }
{
    match next_class(rs) {
        None => true,
        Some((k, rest)) => {
            let width = width_of_class(units, regs, classes, k);
            have_width(units, regs, classes, rest, width)
        }
    }
}

/// Whether the width of the first role's class isn't less than that of the second's.
fn widens(units: &[UnitDesc], regs: &[RegDesc], classes: &[ClassDesc], rs: &[Role]) -> bool
    ensures { result ≡ roles.widens (roles.widths_of_class units.now regs.now classes.now) (roles.classes_of rs.now) }
{
    let Some((to, rest)) = next_class(rs) else {
        return false;
    };
    let Some((from, _)) = next_class(rest) else {
        return false;
    };
    width_of_class(units, regs, classes, from) <= width_of_class(units, regs, classes, to)
}

fn all_in_bytes(units: &[UnitDesc], us: &[Unit]) -> bool
    ensures { result ≡ list_all (λ u. unit_width units.now u % 8 == 0) us.now }
{
    us.iter().all(|u| width_of(units, *u) % 8 == 0)
}

fn are_in_bytes(units: &[UnitDesc], us: &[Unit]) -> bool
    ensures { result ≡ list_all (λ n. n % 8 == 0) (widths units.now us.now) }
{
    all_in_bytes(units, us)
}

/// Whether each lane of these roles' classes is whole bytes.
fn in_bytes(units: &[UnitDesc], regs: &[RegDesc], classes: &[ClassDesc], rs: &[Role]) -> bool
    ensures { result ≡ roles.in_bytes (roles.widths_of_class units.now regs.now classes.now) (roles.classes_of rs.now) }
{
    let mut rest = rs;
    'classes: while let Some((k, more)) = next_class(rest) {
        if !are_in_bytes(units, units_of_class(regs, classes, k)) {
            return false;
        }
        rest = more;
    }
    true
}

/// The rules on widths that an effect has of its own.
fn have_effect_widths(
    units: &[UnitDesc],
    regs: &[RegDesc],
    classes: &[ClassDesc],
    effect: Effect,
    rs: &[Role],
) -> bool
    ensures { result ≡ roles.effect_widths (roles.widths_of_class units.now regs.now classes.now) effect (roles.classes_of rs.now) }
{
    match effect {
        Effect::Zext | Effect::Sext => widens(units, regs, classes, rs),
        Effect::Load(_) | Effect::Store(_) => in_bytes(units, regs, classes, rs),
        _ => true,
    }
}

/// Whether a register is three flags of one bit each.
fn is_flags(units: &[UnitDesc], regs: &[RegDesc], r: Reg) -> bool
    ensures { result ≡ roles.is_flags units.now regs.now r }
{
    match units_at(regs, r) {
        [a, b, c] => width_of(units, *a) == 1
            && width_of(units, *b) == 1
            && width_of(units, *c) == 1,
        _ => false,
    }
}

/// Whether the first implicit role is the one that the effect asks for, on flags.
fn has_flags(units: &[UnitDesc], regs: &[RegDesc], effect: Effect, first: Option<Role>) -> bool
    ensures { result ≡ roles.effect_flags units.now regs.now effect first }
{
    match effect {
        Effect::Cmp => match first {
            Some(Role::ImpDef(r)) => is_flags(units, regs, r),
            _ => false,
        },
        Effect::Jcc => match first {
            Some(Role::ImpRead(r)) => is_flags(units, regs, r),
            _ => false,
        },
        _ => true,
    }
}

/// Whether the first role is a definition of this class.
fn defines(k: ClassId, rs: &[Role]) -> bool
    ensures { result ≡ roles.defines k rs.now }
{
    match rs {
        [Role::Def(c), ..] => k.0 == c.0,
        [Role::Early(c), ..] => k.0 == c.0,
        _ => false,
    }
}

fn tie_fits(rs: &[Role], role: Role) -> bool
    ensures { result ≡ roles.tie_fits rs.now role }
{
    match role {
        Role::Tied(k, n) => n == 0 && defines(k, rs),
        _ => true,
    }
}

fn tied_count(rs: &[Role]) -> usize
    ensures { result ≡ count_by roles.is_tied rs.now }
{
    rs.iter().filter(|role| is_tied(**role)).count()
}

fn each_tie_fits(rs: &[Role]) -> bool
    ensures { result ≡ list_all (roles.tie_fits rs.now) rs.now }
{
    rs.iter().all(|role| tie_fits(rs, *role))
}

/// Whether at most one role is tied, and to a definition of its class.
fn ties_fit(rs: &[Role]) -> bool
    ensures { result ≡ roles.ties_fit rs.now }
{
    tied_count(rs) <= 1 && each_tie_fits(rs)
}

/// Whether the implicit roles are none where the effect is silent, and begin with its flags.
fn implicit_fit(units: &[UnitDesc], regs: &[RegDesc], effect: Effect, rs: &[Role]) -> bool
    ensures { result ≡ ((not (roles.is_silent effect) || nat_eq (length (filter roles.is_implicit rs.now)) 0)
        && roles.effect_flags units.now regs.now effect (roles.first_implicit (filter roles.is_implicit rs.now))) }
{
    let first = first_implicit(rs);
    (!is_silent(effect) || first.is_none()) && has_flags(units, regs, effect, first)
}

/// At most so many of the first roles.
fn first_roles(rs: &[Role], count: usize) -> &[Role]
    ensures { result.now ≡ take count rs.now }
{
    if count < rs.len() {
        return &rs[..count];
    }
    rs
}

/// Whether the roles are those that a known effect asks for, with its widths.
fn known_fit(
    units: &[UnitDesc],
    regs: &[RegDesc],
    classes: &[ClassDesc],
    effect: Effect,
    rs: &[Role],
) -> bool
    ensures { result ≡ roles.known_fit units.now regs.now classes.now effect rs.now }
{
    if !fits_shape(effect, rs) {
        return false;
    }
    if !ties_fit(rs) {
        return false;
    }
    if !have_one_width(units, regs, classes, first_roles(rs, bound_roles(effect))) {
        return false;
    }
    if !have_effect_widths(units, regs, classes, effect, rs) {
        return false;
    }
    implicit_fit(units, regs, effect, rs)
}

/// Whether the roles are those that the effect asks for.
pub(crate) fn fit(
    units: &[UnitDesc],
    regs: &[RegDesc],
    classes: &[ClassDesc],
    effect: Effect,
    rs: &[Role],
) -> bool
    ensures { result ≡ roles.roles_fit units.now regs.now classes.now effect rs.now }
{
    match effect {
        Effect::Opaque(kind) => opaque_fit(classes, kind, rs),
        _ => known_fit(units, regs, classes, effect, rs),
    }
}

/// Whether the class or the register of a role is one of so many.
fn is_known(classes: usize, regs: usize, role: Role) -> bool
    ensures { result ≡ roles.role_known classes regs role }
{
    match role {
        Role::Def(k) => (k.0 as usize) < classes,
        Role::Early(k) => (k.0 as usize) < classes,
        Role::Read(k) => (k.0 as usize) < classes,
        Role::Tied(k, _) => (k.0 as usize) < classes,
        Role::Value(Some(k)) => (k.0 as usize) < classes,
        Role::Address(k) => (k.0 as usize) < classes,
        Role::ImpDef(r) => (r.0 as usize) < regs,
        Role::ImpRead(r) => (r.0 as usize) < regs,
        _ => true,
    }
}

/// Whether the classes and registers of the roles are among so many.
pub(crate) fn are_known(classes: usize, regs: usize, rs: &[Role]) -> bool
    ensures { result ≡ list_all (roles.role_known classes regs) rs.now }
{
    rs.iter().all(|role| is_known(classes, regs, *role))
}

fn is_scale(s: u8) -> bool
    ensures { result ≡ roles.is_scale s }
{
    s == 1 || s == 2 || s == 4 || s == 8 || s == 16
}

/// Whether the unit of a load's or a store's offset is 1, 2, 4, 8 or 16 bytes.
pub(crate) fn scale_fits(effect: Effect) -> bool
    ensures { result ≡ roles.scale_fits effect }
{
    match effect {
        Effect::Load(s) => is_scale(s),
        Effect::Store(s) => is_scale(s),
        _ => true,
    }
}
