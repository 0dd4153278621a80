//! The variables of a place: what needs a register of its class there.

ghost use Rattle.std.specs.Prelude.{◌≡◌, [], nat_eq, OnOk, IfOk, map, flat_map, option_map};
ghost use Rattle.std.specs.List.{list_any, filter_map};
ghost use Rattle.mir_func.specs.Binding.{does, operand_class, numbered, passes, ties_to};
ghost use Rattle.bound_operands.specs.Seen.{seen, seen_all};
ghost use Rattle.mir_meaning.specs.Registers.{operand_widths};
ghost use Rattle.mir_meaning.specs.Places as places;
ghost use Rattle.place_solve.specs.Choice.{use_of, need_of};
ghost use Rattle.place_solve.specs.Once as once;

use crate::widths::class_of_widths;
use bound_operands::{BoundOperand, bind};
use instr_effects::items::lanes::push_operand_widths;
use mir_func::opcodes::{effect_of, is_copy, is_early, is_tied, roles_of, tied_number};
use mir_func::operands::{is_virtual, same_index};
use mir_func::{Func, Instr, Loc, Operand, RegOp};
use std::alloc::{AllocError, Global};
use target_base::{Boxed, ClassId, Effect, IndexId, List, Role, Target};
use two_address::classes::class_asked;

/// How a variable is used at its place.
#[derive(Clone, Copy, PartialEq, Eq)]
pub enum VariableKind {
    /// It is read.
    Using,
    /// It stands for both sides of a copy.
    Copying,
    /// It is defined.
    Defining {
        /// Whether a use is tied to it.
        tied: bool,
        /// Whether it is an early-clobber definition.
        early: bool,
    },
}

impl VariableKind {
    ghost use Rattle.std.specs.Prelude.{◌≡◌};
    ghost use Rattle.mir_meaning.specs.Places.{is_defining, reaches_back, must_be_apart};
    ghost use Rattle.place_solve.specs.Choice.{use_of};

    /// Whether it is a definition.
    pub fn is_defining(self) -> bool
        ensures { result ≡ is_defining (use_of self) }
    {
        match self {
            VariableKind::Defining { .. } => true,
            _ => false,
        }
    }

    /// Whether it holds its register while uses are read.
    pub fn reaches_back(self) -> bool
        ensures { result ≡ reaches_back (use_of self) }
    {
        match self {
            VariableKind::Defining { tied, early } => tied || early,
            _ => true,
        }
    }

    /// Whether two variables of these kinds may not share a unit.
    pub fn must_be_apart(self, other: VariableKind) -> bool
        ensures { result ≡ must_be_apart (use_of self) (use_of other) }
    {
        self.is_defining() == other.is_defining() || (self.reaches_back() && other.reaches_back())
    }
}

/// What needs a register at a place.
#[derive(Clone, Copy)]
pub struct Variable {
    /// How it is used.
    pub kind: VariableKind,
    /// Its range; a copy's variable has none of its own, and 0 stands here.
    pub range: u32,
    /// The subregister index with which it is named.
    pub index: Option<IndexId>,
    /// Its class.
    pub class: Option<ClassId>,
}

/// Whether the classes are one, or both are absent.
fn same_class(a: Option<ClassId>, b: Option<ClassId>) -> bool
    ensures { result ≡ places.same_class a b }
{
    match a {
        None => match b {
            None => true,
            Some(_) => false,
        },
        Some(x) => match b {
            None => false,
            Some(y) => x.0 == y.0,
        },
    }
}

/// Whether the two are one use of one register, index and class.
fn is_same_use(v: Variable, w: Variable) -> bool
    ensures { result ≡ places.same_use (need_of v) (need_of w) }
{
    !(v.kind.is_defining() || w.kind.is_defining())
        && v.range == w.range
        && same_index(v.index, w.index)
        && same_class(v.class, w.class)
}

/// The variable of a copy between lanes of these operands' widths.
pub fn copy_variable(
    alloc: Global,
    target: &Target,
    f: &Func,
    o: RegOp,
) -> Result<Variable, AllocError>
    ensures { IfOk result (λ v. need_of v ≡ places.copy_variable target.now (operand_widths target.now f.now o)) }
{
    let mut widths = List::new(alloc);
    push_operand_widths(&mut widths, target, f, &o)?;
    Ok(Variable {
        kind: VariableKind::Copying,
        range: 0,
        index: None,
        class: class_of_widths(target, widths.as_slice()),
    })
}

/// The class that an operand's role asks of its register.
#[tactic(auto, using(crate::proofs::Operands::class_is))]
fn operand_class(target: &Target, f: &Func, role: Option<Role>, o: RegOp) -> Option<ClassId>
    ensures { result ≡ operand_class target.now f.now role o }
{
    class_asked(target, f.classes.as_slice(), role, o)
}

/// How an operand is used: as a definition or a use.
fn kind_of(tied: bool, role: Option<Role>, o: RegOp) -> VariableKind
    ensures { use_of result ≡ once.operand_use tied role o }
{
    if o.def {
        VariableKind::Defining {
            tied,
            early: is_early(role),
        }
    } else {
        VariableKind::Using
    }
}

/// Whether an operand has no variable, because it reads nothing or is tied.
fn is_left_out(role: Option<Role>, o: RegOp) -> bool
    ensures { result ≡ once.is_left_out role o }
{
    !o.def && (o.undef || is_tied(role))
}

/// The variable of a register operand: each virtual definition, and each virtual use that is neither
/// `undef` nor tied, has one.
#[tactic(auto, using(crate::proofs::Operands::register_is))]
fn register_variable(
    target: &Target,
    f: &Func,
    tied: bool,
    role: Option<Role>,
    o: RegOp,
) -> Option<Variable>
    ensures { option_map need_of result ≡ places.register_variable target.now f.now tied role o o.loc }
{
    let Loc::Virtual(v) = o.loc else {
        return None;
    };
    if is_left_out(role, o) {
        return None;
    }
    Some(Variable {
        kind: kind_of(tied, role, o),
        range: v,
        index: o.index,
        class: operand_class(target, f, role, o),
    })
}

/// Whether a use stands among these variables.
fn is_there(variables: &[Variable], v: Variable) -> bool
    ensures { result ≡ list_any (once.same_use_of v) variables.now }
{
    variables.iter().any(|w| is_same_use(v, *w))
}

/// Puts a variable behind the others, unless it is a use that stands there.
#[tactic(auto, using(crate::proofs::Once::added))]
fn add(variables: &mut Vec<Variable>, v: Variable) -> Result<(), AllocError>
    ensures { OnOk result (map need_of variables.new.items ≡ once.once_more (map need_of variables.old.items) (need_of v)) }
{
    if !is_there(variables.as_slice(), v) {
        variables.push(v)?;
    }
    Ok(())
}

/// Puts a variable behind the others, if there is one.
#[tactic(auto, using(crate::proofs::Once::added_if))]
fn add_if(variables: &mut Vec<Variable>, v: Option<Variable>) -> Result<(), AllocError>
    ensures { OnOk result (map need_of variables.new.items ≡ once.once_if (map need_of variables.old.items) (option_map need_of v)) }
{
    if let Some(v) = v {
        add(variables, v)?;
    }
    Ok(())
}

/// The numbers of the definitions to which uses among the operands are tied. An opcode has few, however
/// many operands an instruction has.
fn tied_numbers(alloc: Global, bound: &[BoundOperand]) -> Result<Vec<usize>, AllocError>
    ensures { IfOk result (λ made. made.items ≡ once.tied_numbers (seen_all bound.now)) }
{
    let mut numbers = Vec::new(alloc);
    'operands: for b in bound {
        if let Some(number) = tied_number(b.role) {
            numbers.push(number)?;
        }
    }
    Ok(numbers)
}

/// Whether a number is among these.
fn is_among(numbers: &[usize], number: usize) -> bool
    ensures { result ≡ list_any (nat_eq number) numbers.now }
{
    numbers.iter().any(|own| number == *own)
}

/// Whether one of the operands is tied to the definition of that number, where these are the numbers of
/// all to which some are.
fn has_tied_use(bound: &[BoundOperand], tied: &[usize], number: usize) -> bool
    requires { tied.now ≡ once.tied_numbers (seen_all bound.now) }
    ensures { result ≡ list_any (λ b. passes (ties_to number) b.0) (seen_all bound.now) }
{
    is_among(tied, number)
}

/// The variable of an operand with its role.
fn operand_variable(target: &Target, f: &Func, tied: bool, b: BoundOperand<'_>) -> Option<Variable>
    ensures { option_map need_of result ≡ places.operand_variable target.now f.now tied (seen b.entry) }
{
    match b.operand {
        Operand::Reg(r) => register_variable(target, f, tied, b.role, *r),
        _ => None,
    }
}

/// Puts the variables of operands with their roles behind the others.
#[tactic(auto, using(crate::proofs::Operands::bound_walk))]
fn add_bound(
    target: &Target,
    f: &Func,
    bound: &[BoundOperand],
    tied: &[usize],
    variables: &mut Vec<Variable>,
) -> Result<(), AllocError>
    requires { tied.now ≡ once.tied_numbers (seen_all bound.now) }
    ensures { OnOk result (map need_of variables.new.items ≡ once.all_once (map need_of variables.old.items) (filter_map (once.numbered_variable target.now f.now (seen_all bound.now)) (numbered 0 (seen_all bound.now)))) }
{
    'each: for k in 0..bound.len() {
        let is_tied = has_tied_use(bound, tied, k);
        add_if(variables, operand_variable(target, f, is_tied, bound[k]))?;
    }
    Ok(())
}

/// Puts the variables of an instruction's operands behind the others: those of the explicit operands
/// come first.
fn add_operands(
    alloc: Global,
    target: &Target,
    f: &Func,
    i: &Instr,
    variables: &mut Vec<Variable>,
) -> Result<(), AllocError>
    ensures { OnOk result (map need_of variables.new.items ≡ once.all_once (map need_of variables.old.items) (places.operand_variables target.now f.now i.now)) }
{
    let bound = bind(alloc, roles_of(target, i), i.operands.as_slice())?;
    let tied = tied_numbers(alloc, bound.as_slice())?;
    add_bound(target, f, bound.as_slice(), tied.as_slice(), variables)?;
    Ok(())
}

/// The definition of a copy, where both its sides are virtual.
fn two_sides(a: &Operand, b: &Operand) -> Option<RegOp>
    ensures { result ≡ once.two_sides a.now b.now }
{
    match a {
        Operand::Reg(d) => match b {
            Operand::Reg(s) => {
                if is_virtual(d.loc) && is_virtual(s.loc) {
                    Some(*d)
                } else {
                    None
                }
            }
            _ => None,
        },
        _ => None,
    }
}

/// The definition of a copy with these operands, where both its sides are virtual.
fn virtual_sides(operands: &[Operand]) -> Option<RegOp>
    ensures { result ≡ once.virtual_sides operands.now }
{
    match operands {
        [a, b, ..] => two_sides(a, b),
        _ => None,
    }
}

/// Puts the variable of a copy with these operands behind the others, where it has one.
#[tactic(auto, using(crate::proofs::Operands::copy_added))]
fn add_copy(
    alloc: Global,
    target: &Target,
    f: &Func,
    operands: &[Operand],
    variables: &mut Vec<Variable>,
) -> Result<(), AllocError>
    ensures { OnOk result (map need_of variables.new.items ≡ once.all_once (map need_of variables.old.items) (places.copy_variables target.now f.now operands.now)) }
{
    if let Some(d) = virtual_sides(operands) {
        let v = copy_variable(alloc, target, f, d)?;
        add(variables, v)?;
    }
    Ok(())
}

/// Whether it is an IMPLICIT_DEF, a store to a slot or a reload.
fn moves_alone(target: &Target, i: &Instr) -> bool
    ensures { result ≡ does places.moves_alone target.now i.now }
{
    match effect_of(target, i) {
        Some(Effect::ImplicitDef | Effect::Spill | Effect::Reload) => true,
        _ => false,
    }
}

/// Puts the variables of an instruction behind the others. A copy has one where both its sides are
/// virtual; IMPLICIT_DEF, stores to slots and reloads have none.
#[tactic(auto, using(crate::proofs::Operands::instr_added))]
pub fn add_variables(
    alloc: Global,
    target: &Target,
    f: &Func,
    i: &Instr,
    variables: &mut Vec<Variable>,
) -> Result<(), AllocError>
    ensures { OnOk result (map need_of variables.new.items ≡ once.all_once (map need_of variables.old.items) (places.instr_variables target.now f.now i.now)) }
{
    if is_copy(target, i) {
        add_copy(alloc, target, f, i.operands.as_slice(), variables)?;
        return Ok(());
    }
    if moves_alone(target, i) {
        return Ok(());
    }
    add_operands(alloc, target, f, i, variables)?;
    Ok(())
}

/// The variables of instructions that make one place: each once, where it is named first.
#[tactic(auto, using(crate::proofs::Once::instrs_walk))]
pub fn variables_of(
    alloc: Global,
    target: &Target,
    f: &Func,
    instrs: &[Boxed<Instr>],
) -> Result<Vec<Variable>, AllocError>
    ensures { IfOk result (λ made. map need_of made.items ≡ places.each_once [] (flat_map (places.instr_variables target.now f.now) instrs.now)) }
{
    let mut variables = Vec::new(alloc);
    'each: for i in instrs {
        let i = i.get();
        add_variables(alloc, target, f, i, &mut variables)?;
    }
    Ok(variables)
}
