//! The rules of an instruction, one by one and together.

ghost use Rattle.std.specs.Prelude.{◌≡◌, ◌&&◌, not, flat_map, Some, IfOk};
ghost use Rattle.mir_func.specs.Binding as binding;
ghost use Rattle.mir_meaning.specs.Rules as rules;
ghost use Rattle.mir_meaning.specs.Valid as valid;
ghost use Rattle.machine_verify.specs.Sets.{HoldsSlots};
ghost use Rattle.machine_verify.specs.InstrRules.{IsSortedInstr, phis_fit, terminators_fit, late_rules, other_rules, known_rule, instr_rule, after};

use crate::blocks::push_named;
use crate::classes::{classes_fit, have_classes, have_right_indexes};
use crate::numbers::{NumberSet, lists_once};
use crate::operands::operands_fit;
use crate::parts::registers;
use crate::ties::{all_early_fit, are_apart, slots_fit, ties_fit, undef_uses_fit, undefs_fit};
use crate::words::{is_opaque, spills_or_reloads};
use bound_operands::{BoundOperand, bind};
use mir_func::opcodes::{desc_of, effect_of, ends_block, is_lowered_away};
use mir_func::{Func, Instr, Operand, RegOp};
use mir_meaning::Form;
use std::alloc::{AllocError, Global};
use target_base::roles::is_phi;
use target_base::{OpcodeDesc, Target};

/// A function in a form, under a target.
#[derive(Clone, Copy)]
pub(crate) struct FuncInForm<'a> {
    pub alloc: Global,
    pub target: &'a Target,
    pub form: Form,
    pub f: &'a Func,
}

/// What stands before an instruction in its block.
#[derive(Clone, Copy)]
pub(crate) struct BlockPrefix {
    /// Whether phis alone do.
    pub only_phis: bool,
    /// Whether a terminator does.
    pub terminator: bool,
}

/// How control comes into the block of an instruction.
#[derive(Clone, Copy)]
pub(crate) struct BlockEntry<'a> {
    /// Whether the block is the entry.
    pub is_entry: bool,
    /// The blocks that come before it.
    pub preds: &'a [u32],
}

/// An instruction whose opcode the target has, with its operands sorted.
#[derive(Drop)]
pub(crate) struct SortedInstr<'a> {
    pub instr: &'a Instr,
    pub desc: &'a OpcodeDesc,
    pub named: Vec<RegOp>,
    pub bound: Vec<BoundOperand<'a>>,
}

/// Sorts the operands of an instruction.
#[tactic(auto, using(crate::proofs::Meant::bound_is))]
fn sort_operands<'a>(
    q: &FuncInForm,
    instr: &'a Instr,
    desc: &'a OpcodeDesc,
) -> Result<SortedInstr<'a>, AllocError>
    requires { binding.known_opcode q.now.target.now instr.now.op ≡ Some desc.now }
    ensures { IfOk result (λ a. IsSortedInstr q.now.target.now instr.now a) }
{
    let operands = instr.operands.as_slice();
    let named = registers(q.alloc, operands)?;
    let bound = bind(q.alloc, desc.roles.as_slice(), operands)?;
    Ok(SortedInstr {
        instr,
        desc,
        named,
        bound,
    })
}

/// V2: registers lie in their operand's class, and what is copied or put together has equal lane
/// widths.
#[tactic(auto, using(crate::proofs::Meant::v2_is))]
fn v2(q: &FuncInForm, a: &SortedInstr) -> Result<bool, AllocError>
    requires { IsSortedInstr q.now.target.now a.now.instr.now a.now }
    ensures { IfOk result (λ holds. holds ≡ rules.V2 q.now.target.now q.now.f.now a.now.instr.now) }
{
    classes_fit(
        q.alloc,
        q.target,
        q.f,
        a.desc.effect,
        a.instr.operands.as_slice(),
        a.bound.as_slice(),
    )
}

/// V3: each virtual register that is named has just one class.
#[tactic(auto, using(crate::proofs::Meant::v3_is))]
fn v3(q: &FuncInForm, a: &SortedInstr) -> bool
    requires { IsSortedInstr q.now.target.now a.now.instr.now a.now }
    ensures { result ≡ rules.V3 q.now.f.now a.now.instr.now }
{
    have_classes(q.f, a.named.as_slice())
}

/// V4: indexes fit the classes of their registers, and physical registers have none.
#[tactic(auto, using(crate::proofs::Meant::v4_is))]
fn v4(q: &FuncInForm, a: &SortedInstr) -> bool
    requires { IsSortedInstr q.now.target.now a.now.instr.now a.now }
    ensures { result ≡ rules.V4 q.now.target.now q.now.f.now a.now.instr.now }
{
    have_right_indexes(
        q.target,
        q.f,
        a.desc.effect,
        a.instr.operands.as_slice(),
        a.named.as_slice(),
    )
}

/// The blocks that operands name.
fn named_blocks(alloc: Global, operands: &[Operand]) -> Result<Vec<u32>, AllocError>
    ensures { IfOk result (λ made. made.items ≡ flat_map rules.block_of operands.now) }
{
    let mut made = Vec::new(alloc);
    push_named(&mut made, operands)?;
    Ok(made)
}

/// Whether a phi stands first in a block that isn't the entry, and names each predecessor once.
fn phi_stands(
    alloc: Global,
    is_entry: bool,
    only_phis: bool,
    preds: &[u32],
    operands: &[Operand],
) -> Result<bool, AllocError>
    ensures { IfOk result (λ holds. holds ≡ (only_phis && not is_entry && rules.lists_once (flat_map rules.block_of operands.now) preds.now)) }
{
    if !only_phis {
        return Ok(false);
    }
    if is_entry {
        return Ok(false);
    }
    let named = named_blocks(alloc, operands)?;
    lists_once(alloc, named.as_slice(), preds)
}

/// V7: phis stand first in a block that isn't the entry, and name each predecessor once. Allocated:
/// no phi, REG_SEQUENCE or INSERT_SUBREG is left.
fn v7(
    q: &FuncInForm,
    a: &SortedInstr,
    incoming: &BlockEntry,
    only_phis: bool,
) -> Result<bool, AllocError>
    ensures { IfOk result (λ holds. holds ≡ phis_fit q.now.form incoming.now.is_entry only_phis incoming.now.preds.now a.now.desc.now.effect a.now.instr.now) }
{
    let effect = a.desc.effect;
    match q.form {
        Form::Source => {
            if !is_phi(effect) {
                return Ok(true);
            }
            phi_stands(
                q.alloc,
                incoming.is_entry,
                only_phis,
                incoming.preds,
                a.instr.operands.as_slice(),
            )
        }
        Form::Allocated => Ok(!is_lowered_away(effect)),
    }
}

/// V8: behind a terminator stand terminators only.
fn v8(a: &SortedInstr, terminator: bool) -> bool
    ensures { result ≡ terminators_fit terminator a.now.desc.now.effect }
{
    ends_block(a.desc.effect) || !terminator
}

/// V11: written ties and early-clobber flags are the opcode's, and each tied pair fits.
#[tactic(auto, using(crate::proofs::Meant::v11_is))]
fn v11(q: &FuncInForm, a: &SortedInstr) -> Result<bool, AllocError>
    requires { IsSortedInstr q.now.target.now a.now.instr.now a.now }
    ensures { IfOk result (λ holds. holds ≡ rules.V11 q.now.target.now q.now.form q.now.f.now a.now.instr.now) }
{
    ties_fit(
        q.alloc,
        q.target,
        q.form,
        q.f,
        a.instr.operands.as_slice(),
        a.bound.as_slice(),
    )
}

/// V12: definitions are apart from each other and, where they are early, from uses.
#[tactic(auto, using(crate::proofs::Meant::v12_is))]
fn v12(q: &FuncInForm, a: &SortedInstr) -> Result<bool, AllocError>
    requires { IsSortedInstr q.now.target.now a.now.instr.now a.now }
    ensures { IfOk result (λ holds. holds ≡ rules.V12 q.now.target.now q.now.form q.now.f.now a.now.instr.now) }
{
    let (named, bound) = (a.named.as_slice(), a.bound.as_slice());
    let opaque = is_opaque(a.desc.effect);
    if !undefs_fit(q.form, named) {
        return Ok(false);
    }
    if !are_apart(q.alloc, q.target, q.f, opaque, named)? {
        return Ok(false);
    }
    if !all_early_fit(q.alloc, q.target, q.f, bound)? {
        return Ok(false);
    }
    Ok(undef_uses_fit(opaque, bound))
}

/// V15: the source has no store to a slot and no reload. Allocated: slots and spill slots go
/// together.
#[tactic(auto, using(crate::proofs::Meant::v15_source, crate::proofs::Meant::v15_allocated))]
fn v15(q: &FuncInForm, slots: &NumberSet, a: &SortedInstr) -> bool
    requires asked { IsSortedInstr q.now.target.now a.now.instr.now a.now }
    requires slots { HoldsSlots slots.now q.now.f.now }
    ensures { result ≡ rules.V15 q.now.target.now q.now.form q.now.f.now a.now.instr.now }
{
    match q.form {
        Form::Source => !spills_or_reloads(a.desc.effect),
        Form::Allocated => slots_fit(slots, a.bound.as_slice()),
    }
}

/// The least rule of those from V11 on that fails.
fn late_rule(q: &FuncInForm, slots: &NumberSet, a: &SortedInstr) -> Result<Option<u8>, AllocError>
    requires asked { IsSortedInstr q.now.target.now a.now.instr.now a.now }
    requires slots { HoldsSlots slots.now q.now.f.now }
    ensures { IfOk result (λ rule. rule ≡ valid.first_failing (late_rules q.now.target.now q.now.form q.now.f.now a.now.instr.now)) }
{
    if !v11(q, a)? {
        return Ok(Some(11));
    }
    if !v12(q, a)? {
        return Ok(Some(12));
    }
    if !v15(q, slots, a) {
        return Ok(Some(15));
    }
    Ok(None)
}

/// The least rule but V1 that fails for an instruction.
fn other_rule(
    q: &FuncInForm,
    slots: &NumberSet,
    a: &SortedInstr,
    incoming: &BlockEntry,
    before: BlockPrefix,
) -> Result<Option<u8>, AllocError>
    requires asked { IsSortedInstr q.now.target.now a.now.instr.now a.now }
    requires slots { HoldsSlots slots.now q.now.f.now }
    ensures { IfOk result (λ rule. rule ≡ valid.first_failing (other_rules q.now.target.now q.now.form q.now.f.now incoming.now.is_entry before incoming.now.preds.now a.now.desc.now.effect a.now.instr.now)) }
{
    if !v2(q, a)? {
        return Ok(Some(2));
    }
    if !v3(q, a) {
        return Ok(Some(3));
    }
    if !v4(q, a) {
        return Ok(Some(4));
    }
    if !v7(q, a, incoming, before.only_phis)? {
        return Ok(Some(7));
    }
    if !v8(a, before.terminator) {
        return Ok(Some(8));
    }
    late_rule(q, slots, a)
}

/// V1: operands fit the opcode's roles in number, kind and value.
#[tactic(auto, using(crate::proofs::Meant::v1_is))]
fn v1(q: &FuncInForm, instr: &Instr, desc: &OpcodeDesc) -> Result<bool, AllocError>
    requires { binding.known_opcode q.now.target.now instr.now.op ≡ Some desc.now }
    ensures { IfOk result (λ holds. holds ≡ rules.V1 q.now.target.now q.now.f.now instr.now) }
{
    operands_fit(q.alloc, q.target, q.f, desc, instr.operands.as_slice())
}

/// The least rule that fails for an instruction of an opcode that the target has.
fn known_rule(
    q: &FuncInForm,
    slots: &NumberSet,
    instr: &Instr,
    desc: &OpcodeDesc,
    incoming: &BlockEntry,
    before: BlockPrefix,
) -> Result<Option<u8>, AllocError>
    requires known { binding.known_opcode q.now.target.now instr.now.op ≡ Some desc.now }
    requires slots { HoldsSlots slots.now q.now.f.now }
    ensures { IfOk result (λ rule. rule ≡ known_rule q.now.target.now q.now.form q.now.f.now incoming.now.is_entry before incoming.now.preds.now instr.now desc.now) }
{
    if !v1(q, instr, desc)? {
        return Ok(Some(1));
    }
    let a = sort_operands(q, instr, desc)?;
    other_rule(q, slots, &a, incoming, before)
}

/// The least rule that fails for an instruction, of which is told how control comes into its block
/// and what stands before it there. An excluded opcode breaks V16 and is asked nothing else.
pub(crate) fn instr_rule(
    q: &FuncInForm,
    slots: &NumberSet,
    instr: &Instr,
    incoming: &BlockEntry,
    before: BlockPrefix,
) -> Result<Option<u8>, AllocError>
    requires { HoldsSlots slots.now q.now.f.now }
    ensures { IfOk result (λ rule. rule ≡ instr_rule q.now.target.now q.now.form q.now.f.now incoming.now.is_entry before incoming.now.preds.now instr.now) }
{
    match desc_of(q.target, &instr.op) {
        None => Ok(Some(16)),
        Some(desc) => known_rule(q, slots, instr, desc, incoming, before),
    }
}

/// What stands before the next instruction.
pub(crate) fn after(target: &Target, before: BlockPrefix, i: &Instr) -> BlockPrefix
    ensures { result ≡ after target.now before i.now }
{
    match effect_of(target, i) {
        None => BlockPrefix {
            only_phis: false,
            terminator: before.terminator,
        },
        Some(e) => BlockPrefix {
            only_phis: before.only_phis && is_phi(e),
            terminator: before.terminator || ends_block(e),
        },
    }
}
