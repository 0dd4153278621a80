//! What a counted instruction reads, writes and does.

ghost use Rattle.std.specs.Prelude.{◌≡◌, ◌+◌, ◌<◌, ◌≤◌, ◌-◌, ◌^◌, ◌%◌, ◌++◌, ◌∷◌, [], map, filter, filter_map, OnOk, IfOk, IfSome, None, Some, option_to_list, cond, not, sum, List};
ghost use Rattle.target_base.specs.Roles.{is_address, is_implicit};
ghost use Rattle.meaning.specs.Environment.{residue, constant_source};
ghost use Rattle.meaning.specs.declared.types.Constant.TheVariants.{Immediate};
ghost use Rattle.meaning.specs.Perform.{condition_lane};
ghost use Rattle.mir_func.specs.Binding.{roles_of, implicit_roles, passes, takes_role, is_implicit_operand, explicit_operands, implicit_registers, registers, immediate_of};
ghost use Rattle.mir_meaning.specs.Registers.{operand_widths, use_sources};
ghost use Rattle.mir_meaning.specs.Items.{value_of, use_value, constant_value, computes_with_immediates, has_base, first_width, symbol_of, is_flags, pick, flag_value, implicit_values, values, result_widths, read_widths, named_symbol, needs_value, explicit_needs, needed_of, rest_of};
ghost use Rattle.target_base.specs.declared.types.Effect.TheVariants as effects;
ghost use Rattle.std.specs.List.{cons_option};
ghost use Rattle.mir_func.specs.declared.func.Operand.{Operand};
ghost use Rattle.meaning.specs.declared.types.Source.TheVariants.{Bits};

use crate::items::lanes::{Sources, push_operand_widths, use_sources};
use crate::items::results::result_widths;
use meaning::{Constant, Reads, Rest, Source, Widths};
use mir_func::opcodes::{next_role, roles_of};
use mir_func::operands::{immediate_of, is_implicit_operand, takes_role};
use mir_func::spelling::event_name;
use mir_func::{Func, Instr, Operand, RegOp};
use std::alloc::{AllocError, Global};
use target_base::roles::{bound_roles, is_implicit};
use target_base::{Bytes, Copied, Effect, Flags, List, Numbers, Role, Target};

/// Operands that are read: the sources of each, and their widths.
pub type Values = List<(Sources, Numbers)>;

/// Whether an immediate operand of this effect is read as a register is: where roles are bound to one width.
pub fn computes_with_immediates(e: Effect) -> bool
    ensures { result ≡ computes_with_immediates e }
{
    bound_roles(e) > 0
}

/// Whether the effect is a load or a store.
fn has_base(e: Effect) -> bool
    ensures { result ≡ has_base e }
{
    match e {
        Effect::Load(_) | Effect::Store(_) => true,
        _ => false,
    }
}

/// Whether an operand is what the first implicit role names: the flags of a comparison or of a
/// conditional jump.
pub(crate) fn is_flags(roles: &[Role], o: &RegOp) -> bool
    ensures { result ≡ is_flags (implicit_roles roles.now) o.now }
{
    for r in roles {
        if is_implicit(*r) {
            return takes_role(o, *r);
        }
    }
    false
}

/// The lower bits of a number, as many as w.
pub fn low_bits(n: u128, w: u32) -> u128
    ensures { result ≡ n % 2 ^ w }
{
    if w >= 128 { n } else { n % (1 << w) }
}

/// The greatest number of so many bits.
pub fn ones(w: u32) -> u128
    requires { w ≤ 128 }
    ensures { result ≡ 2 ^ w - 1 }
{
    if w >= 128 { u128::MAX } else { (1 << w) - 1 }
}

/// A signed number modulo 2^w.
pub fn residue(z: i128, w: u32) -> u128
    requires { w ≤ 128 }
    ensures { result ≡ residue z w }
{
    if z >= 0 {
        low_bits(z.unsigned_abs(), w)
    } else {
        ones(w) - low_bits(z.unsigned_abs() - 1, w)
    }
}

/// The first symbol operand, or nothing.
fn symbol_of(operands: &[Operand]) -> &[u8]
    ensures { result.now ≡ symbol_of operands.now }
{
    for o in operands {
        if let Operand::Symbol(name) = o {
            return name.as_slice();
        }
    }
    &[]
}

/// The sum of widths that fit 128 bits.
pub fn total(widths: &[u32]) -> Option<u32>
    ensures { IfSome result (λ n. (n ≡ sum widths.now) × (n ≤ 128)) }
{
    let mut total: u32 = 0;
    for w in widths {
        if *w > 128 - total {
            return None;
        }
        total += *w;
    }
    Some(total)
}

/// The bits of a register operand. Want of memory stands for more than 128, which no register has.
fn bits_of(alloc: Global, t: &Target, f: &Func, o: &RegOp) -> Result<u32, AllocError>
    ensures { IfOk result (λ n. (n ≡ sum (operand_widths t.now f.now o.now)) × (n ≤ 128)) }
{
    let mut widths = List::new(alloc);
    push_operand_widths(&mut widths, t, f, o)?;
    total(widths.as_slice()).ok_or(AllocError)
}

/// The bits of the first register operand.
fn first_width(alloc: Global, t: &Target, f: &Func, operands: &[Operand]) -> Result<u32, AllocError>
    ensures { IfOk result (λ n. (n ≡ first_width t.now f.now (registers operands.now)) × (n ≤ 128)) }
{
    for o in operands {
        if let Operand::Reg(r) = o {
            return bits_of(alloc, t, f, r);
        }
    }
    Ok(0)
}

/// A use with its widths.
fn use_value(
    alloc: Global,
    t: &Target,
    f: &Func,
    o: &RegOp,
) -> Result<(Sources, Numbers), AllocError>
    ensures { IfOk result (λ v. v ≡ use_value t.now f.now o.now) }
{
    let mut widths = List::new(alloc);
    push_operand_widths(&mut widths, t, f, o)?;
    Ok((use_sources(alloc, t, f, o)?, widths))
}

/// A list of one element.
pub(crate) fn one<T: Drop>(alloc: Global, x: T) -> Result<List<T>, AllocError>
    ensures { IfOk result (λ made. made ≡ x ∷ []) }
{
    let mut made = List::new(alloc);
    made.push(x)?;
    Ok(made)
}

/// An immediate at so many bits.
fn immediate_value(alloc: Global, z: i128, w: u32) -> Result<(Sources, Numbers), AllocError>
    requires { w ≤ 128 }
    ensures { IfOk result (λ v. v ≡ constant_value (Immediate (residue z w)) w) }
{
    let number = Constant::Immediate(low_bits(residue(z, w), w));
    Ok((one(alloc, Source::Bits(number, 0, w))?, one(alloc, w)?))
}

/// An address, which has 64 bits.
fn address_value(alloc: Global, address: Constant) -> Result<(Sources, Numbers), AllocError>
    requires { constant_source address 0 64 ≡ Bits address 0 64 }
    ensures { IfOk result (λ v. v ≡ constant_value address 64) }
{
    Ok((one(alloc, Source::Bits(address, 0, 64))?, one(alloc, 64)?))
}

/// What an explicit operand gives to read, if anything.
fn value_of(
    alloc: Global,
    t: &Target,
    f: &Func,
    e: Effect,
    w: u32,
    o: &Operand,
) -> Result<Option<(Sources, Numbers)>, AllocError>
    requires { w ≤ 128 }
    ensures { IfOk result (λ v. v ≡ value_of t.now f.now e w o.now) }
{
    match o {
        Operand::Reg(r) => {
            if r.def {
                Ok(None)
            } else {
                Ok(Some(use_value(alloc, t, f, r)?))
            }
        }
        Operand::Imm(z) => {
            if computes_with_immediates(e) {
                Ok(Some(immediate_value(alloc, *z, w)?))
            } else {
                Ok(None)
            }
        }
        Operand::Stack(n) => base_of(alloc, e, Constant::StackAddress(*n)),
        Operand::FixedStack(n) => base_of(alloc, e, Constant::FixedStackAddress(*n)),
        Operand::Symbol(name) => base_of(alloc, e, Constant::SymbolAddress(name.copied(alloc)?)),
        _ => Ok(None),
    }
}

/// An address as the base of a load or a store; other effects don't read it.
fn base_of(
    alloc: Global,
    e: Effect,
    address: Constant,
) -> Result<Option<(Sources, Numbers)>, AllocError>
    requires { constant_source address 0 64 ≡ Bits address 0 64 }
    ensures { IfOk result (λ v. v ≡ cond (has_base e) (Some (constant_value address 64)) None) }
{
    if has_base(e) {
        Ok(Some(address_value(alloc, address)?))
    } else {
        Ok(None)
    }
}

/// Appends what the explicit operands give to read.
fn push_explicit(
    out: &mut Values,
    alloc: Global,
    t: &Target,
    f: &Func,
    e: Effect,
    operands: &[Operand],
) -> Result<(), AllocError>
    ensures { OnOk result (out.new ≡ out.old ++ filter_map (value_of t.now f.now e (first_width t.now f.now (registers operands.now))) (explicit_operands operands.now)) }
{
    let w = first_width(alloc, t, f, operands)?;
    for o in operands {
        if !is_implicit_operand(o) {
            push_some(out, value_of(alloc, t, f, e, w, o)?)?;
        }
    }
    Ok(())
}

/// Appends a value, if there is one.
fn push_some(out: &mut Values, v: Option<(Sources, Numbers)>) -> Result<(), AllocError>
    ensures { OnOk result (out.new ≡ out.old ++ option_to_list v) }
{
    match v {
        None => Ok(()),
        Some(v) => out.push(v),
    }
}

/// A list of the element at a place alone, or an empty list.
fn element_list<T: Copied>(alloc: Global, k: usize, items: &[T]) -> Result<List<T>, AllocError>
    ensures { IfOk result (λ made. made ≡ pick k items.now) }
{
    if k >= items.len() {
        return Ok(List::new(alloc));
    }
    let x = items[k].copied(alloc)?;
    let made = one(alloc, x)?;
    Ok(made)
}

/// The place, among three flags, of the one that a condition reads.
pub(crate) fn condition_lane(c: u128) -> usize
    ensures { result ≡ condition_lane c }
{
    if c < 4 {
        2
    } else if c < 6 {
        0
    } else {
        1
    }
}

/// The flag that a conditional jump reads.
fn flag_value(
    alloc: Global,
    t: &Target,
    f: &Func,
    c: i128,
    o: &RegOp,
) -> Result<(Sources, Numbers), AllocError>
    ensures { IfOk result (λ v. v ≡ flag_value t.now f.now c o.now) }
{
    let k = condition_lane(c.unsigned_abs());
    let mut widths = List::new(alloc);
    push_operand_widths(&mut widths, t, f, o)?;
    let sources = use_sources(alloc, t, f, o)?;
    Ok((
        element_list(alloc, k, sources.as_slice())?,
        element_list(alloc, k, widths.as_slice())?,
    ))
}

/// What a conditional jump asks of flags.
#[derive(Clone, Copy)]
struct Condition<'a> {
    /// The condition code.
    code: i128,
    /// The roles of the opcode; the first implicit one names the flags.
    roles: &'a [Role],
}

/// Appends the flags that a conditional jump reads.
fn push_flags(
    out: &mut Values,
    alloc: Global,
    t: &Target,
    f: &Func,
    condition: &Condition,
    operands: &[RegOp],
) -> Result<(), AllocError>
    ensures { OnOk result (out.new ≡ out.old ++ map (flag_value t.now f.now condition.now.code) (filter (is_flags (implicit_roles condition.now.roles.now)) operands.now)) }
{
    for o in operands {
        if is_flags(condition.roles, o) {
            out.push(flag_value(alloc, t, f, condition.code, o)?)?;
        }
    }
    Ok(())
}

/// Appends what a conditional jump reads besides flags.
fn push_others(
    out: &mut Values,
    alloc: Global,
    t: &Target,
    f: &Func,
    roles: &[Role],
    operands: &[RegOp],
) -> Result<(), AllocError>
    ensures { OnOk result (out.new ≡ out.old ++ map (use_value t.now f.now) (filter (λ o. not (is_flags (implicit_roles roles.now) o)) operands.now)) }
{
    for o in operands {
        if !is_flags(roles, o) {
            out.push(use_value(alloc, t, f, o)?)?;
        }
    }
    Ok(())
}

/// Appends what a conditional jump reads implicitly.
fn push_tested(
    out: &mut Values,
    alloc: Global,
    t: &Target,
    f: &Func,
    condition: &Condition,
    operands: &[RegOp],
) -> Result<(), AllocError>
    ensures { OnOk result (out.new ≡ out.old ++ implicit_values t.now f.now effects.Jcc condition.now.code (implicit_roles condition.now.roles.now) operands.now) }
{
    push_flags(out, alloc, t, f, condition, operands)?;
    push_others(out, alloc, t, f, condition.roles, operands)
}

/// Appends uses.
fn push_uses(
    out: &mut Values,
    alloc: Global,
    t: &Target,
    f: &Func,
    operands: &[RegOp],
) -> Result<(), AllocError>
    ensures { OnOk result (out.new ≡ out.old ++ map (use_value t.now f.now) operands.now) }
{
    for o in operands {
        out.push(use_value(alloc, t, f, o)?)?;
    }
    Ok(())
}

/// Appends what is read implicitly.
fn push_implicit(
    out: &mut Values,
    alloc: Global,
    t: &Target,
    f: &Func,
    e: Effect,
    i: &Instr,
) -> Result<(), AllocError>
    ensures { OnOk result (out.new ≡ out.old ++ implicit_values t.now f.now e (immediate_of i.now.operands) (implicit_roles (roles_of t.now i.now)) (filter (λ o. not o.def) (implicit_registers i.now.operands))) }
{
    let operands = i.operands.as_slice();
    let uses = implicit_uses(alloc, operands)?;
    match e {
        Effect::Jcc => {
            let condition = Condition {
                code: immediate_of(operands),
                roles: roles_of(t, i),
            };
            push_tested(out, alloc, t, f, &condition, uses.as_slice())
        }
        _ => push_uses(out, alloc, t, f, uses.as_slice()),
    }
}

/// The implicit uses of an instruction.
fn implicit_uses(alloc: Global, operands: &[Operand]) -> Result<List<RegOp>, AllocError>
    ensures { IfOk result (λ made. made ≡ filter (λ o. not o.def) (implicit_registers operands.now)) }
{
    let mut made = List::new(alloc);
    for o in operands {
        if let Operand::Reg(r) = o {
            if r.implicit && !r.def {
                made.push(*r)?;
            }
        }
    }
    Ok(made)
}

/// All that a counted instruction reads, operand by operand.
pub fn values(
    alloc: Global,
    t: &Target,
    f: &Func,
    e: Effect,
    i: &Instr,
) -> Result<Values, AllocError>
    ensures { IfOk result (λ made. made ≡ values t.now f.now e i.now) }
{
    let mut made = List::new(alloc);
    push_explicit(&mut made, alloc, t, f, e, i.operands.as_slice())?;
    push_implicit(&mut made, alloc, t, f, e, i)?;
    Ok(made)
}

/// The sources of values.
pub fn reads_of(alloc: Global, values: &[(Sources, Numbers)]) -> Result<Reads, AllocError>
    ensures { IfOk result (λ made. made ≡ map (λ v. v.0) values.now) }
{
    let mut made = List::new(alloc);
    for v in values {
        made.push(v.0.copied(alloc)?)?;
    }
    Ok(made)
}

/// The widths that an operation goes by: those of what it reads, but for a marker.
fn read_widths(
    alloc: Global,
    e: Effect,
    values: &[(Sources, Numbers)],
) -> Result<Widths, AllocError>
    ensures { IfOk result (λ made. made ≡ read_widths e values.now) }
{
    match e {
        Effect::Marker => Ok(List::new(alloc)),
        _ => widths_of(alloc, values),
    }
}

/// The widths of values.
fn widths_of(alloc: Global, values: &[(Sources, Numbers)]) -> Result<Widths, AllocError>
    ensures { IfOk result (λ made. made ≡ map (λ v. v.1) values.now) }
{
    let mut made = List::new(alloc);
    for v in values {
        made.push(v.1.copied(alloc)?)?;
    }
    Ok(made)
}

/// The symbol that a call names, or what an opaque instruction shows of itself; nothing for other
/// effects.
fn named_symbol(alloc: Global, t: &Target, e: Effect, i: &Instr) -> Result<Bytes, AllocError>
    ensures { IfOk result (λ made. made ≡ named_symbol t.now e i.now) }
{
    match e {
        Effect::Call => Bytes::from_slice(alloc, symbol_of(i.operands.as_slice())),
        Effect::Opaque(_) => event_name(alloc, t, i),
        _ => Ok(List::new(alloc)),
    }
}

/// Whether the value of an operand with this role has to be defined, where the operand is a use: at
/// an address it has.
fn needs_value(role: Option<Role>, o: &Operand) -> Option<bool>
    ensures { result ≡ needs_value (role, o.now) }
{
    match o {
        Operand::Reg(r) if !r.def => Some(is_address(role)),
        _ => None,
    }
}

/// Whether a role, if there is one, is that of an address.
fn is_address(role: Option<Role>) -> bool
    ensures { result ≡ passes is_address role }
{
    matches!(role, Some(Role::Address(_)))
}

/// Whether the value of the next operand has to be defined, where it is an explicit use, and the roles
/// that are left behind it.
#[tactic(auto, using(crate::proofs::Needed::needs_seen, crate::proofs::Needed::needs_passed))]
fn next_need<'a>(roles: &'a [Role], operand: &Operand) -> (Option<bool>, &'a [Role])
    ensures { (os : List Operand) → explicit_needs roles.now (operand.now ∷ os) ≡ cons_option result.0 (explicit_needs result.1.now os) }
{
    if is_implicit_operand(operand) {
        return (None, roles);
    }
    let (role, left) = next_role(roles);
    (needs_value(role, operand), left)
}

/// Of each explicit use among operands that take these roles whether it has to be defined.
fn explicit_needs(alloc: Global, roles: &[Role], operands: &[Operand]) -> Result<Flags, AllocError>
    ensures { IfOk result (λ made. made ≡ explicit_needs roles.now operands.now) }
{
    let mut made = List::new(alloc);
    let mut left = roles;
    for operand in operands {
        let (need, behind) = next_need(left, operand);
        if let Some(needed) = need {
            made.push(needed)?;
        }
        left = behind;
    }
    Ok(made)
}

/// Of each explicit use of an opaque instruction whether it has to be defined.
fn needed_of(alloc: Global, t: &Target, e: Effect, i: &Instr) -> Result<Flags, AllocError>
    ensures { IfOk result (λ made. made ≡ needed_of t.now e i.now) }
{
    match e {
        Effect::Opaque(_) => explicit_needs(alloc, roles_of(t, i), i.operands.as_slice()),
        _ => Ok(List::new(alloc)),
    }
}

/// All of a counted instruction that names no register. The values are those that it reads.
pub fn rest_of(
    alloc: Global,
    t: &Target,
    f: &Func,
    e: Effect,
    i: &Instr,
    read: &[(Sources, Numbers)],
) -> Result<Rest, AllocError>
    requires { read.now ≡ values t.now f.now e i.now }
    ensures { IfOk result (λ made. made ≡ rest_of t.now f.now e i.now) }
{
    let operands = i.operands.as_slice();
    let widths = read_widths(alloc, e, read)?;
    let result = result_widths(alloc, t, f, e, operands)?;
    let symbol = named_symbol(alloc, t, e, i)?;
    let needed = needed_of(alloc, t, e, i)?;
    let immediate = if computes_with_immediates(e) {
        0
    } else {
        immediate_of(operands)
    };
    Ok(Rest {
        effect: e,
        widths,
        result,
        immediate,
        symbol,
        needed,
    })
}
