//! V5, V6, V9, V10 and V16: rules on a block.

ghost use Rattle.std.specs.Prelude.{◌≡◌, ◌<◌, ◌++◌, ◌&&◌, not, map, flat_map, length, drop, suc, option_to_list, IfOk, OnOk};
ghost use Rattle.std.specs.List.{list_all, list_any};
ghost use Rattle.mir_func.specs.Binding as binding;
ghost use Rattle.mir_meaning.specs.Codes as layout;
ghost use Rattle.mir_meaning.specs.Registers.{has_number};
ghost use Rattle.mir_meaning.specs.Rules as rules;
ghost use Rattle.machine_verify.specs.Sets.{has};

use crate::numbers::{NumberSet, lists_once};
use crate::operands::operands_fit;
use instr_effects::items::ways::{fallen_into, falls_through};
use mir_func::opcodes::{desc_of, effect_of, is_branch};
use mir_func::{Block, Edge, Func, Instr, Operand};
use mir_meaning::ends::is_open;
use std::alloc::{AllocError, Global};
use target_base::{Boxed, Target};

/// Whether the blocks that operands name are among these numbers.
fn operands_are_there(numbers: &NumberSet, operands: &[Operand]) -> bool
    ensures { result ≡ list_all (has numbers.now) (flat_map rules.block_of operands.now) }
{
    for o in operands {
        if let Operand::Block(n) = o {
            if !numbers.has(*n) {
                return false;
            }
        }
    }
    true
}

/// Whether the blocks that instructions name are among these numbers.
#[tactic(auto, using(crate::proofs::Listed::list_all_joined))]
fn named_are_there(numbers: &NumberSet, instrs: &[Boxed<Instr>]) -> bool
    ensures { result ≡ list_all (has numbers.now) (flat_map rules.named_blocks instrs.now) }
{
    for i in instrs {
        let i = i.get();
        if !operands_are_there(numbers, i.operands.as_slice()) {
            return false;
        }
    }
    true
}

fn lead_there(numbers: &NumberSet, edges: &[Edge]) -> bool
    ensures { result ≡ list_all (λ e. has numbers.now e.block) edges.now }
{
    edges.iter().all(|e| numbers.has(e.block))
}

/// Whether the successors are among these numbers.
fn successors_are_there(numbers: &NumberSet, edges: &[Edge]) -> bool
    ensures { result ≡ list_all (has numbers.now) (map (λ e. e.block) edges.now) }
{
    lead_there(numbers, edges)
}

/// Whether the blocks that a block names are among these numbers.
#[tactic(auto, using(crate::proofs::Listed::list_all_joined))]
pub(crate) fn names_are_there(numbers: &NumberSet, b: &Block) -> bool
    ensures { result ≡ list_all (has numbers.now) (rules.successors_of b.now ++ flat_map rules.named_blocks b.now.instrs) }
{
    successors_are_there(numbers, b.successors.as_slice())
        && named_are_there(numbers, b.instrs.as_slice())
}

/// Whether one of these edges leads to the block of that number.
pub fn has_successor(edges: &[Edge], n: u32) -> bool
    ensures { result ≡ has_number (map (λ e. e.block) edges.now) n }
{
    for e in edges {
        if n == e.block {
            return true;
        }
    }
    false
}

/// The numbers of the blocks that have block `n` as a successor.
pub(crate) fn predecessors(alloc: Global, f: &Func, n: u32) -> Result<Vec<u32>, AllocError>
    ensures { IfOk result (λ made. made.items ≡ rules.predecessors f.now n) }
{
    let mut made = Vec::new(alloc);
    for b in f.blocks.as_slice() {
        if has_successor(b.successors.as_slice(), n) {
            made.push(b.number)?;
        }
    }
    Ok(made)
}

/// The numbers of a block's successors.
fn successors_of(alloc: Global, edges: &[Edge]) -> Result<Vec<u32>, AllocError>
    ensures { IfOk result (λ made. made.items ≡ map (λ e. e.block) edges.now) }
{
    let mut made = Vec::new(alloc);
    for e in edges {
        made.push(e.block)?;
    }
    Ok(made)
}

/// Puts the blocks that operands name at the end.
pub(crate) fn push_named(out: &mut Vec<u32>, operands: &[Operand]) -> Result<(), AllocError>
    ensures { OnOk result (out.new.items ≡ out.old.items ++ flat_map rules.block_of operands.now) }
{
    for o in operands {
        if let Operand::Block(n) = o {
            out.push(*n)?;
        }
    }
    Ok(())
}

fn is_branch_at(target: &Target, i: &Instr) -> bool
    ensures { result ≡ binding.does binding.is_branch target.now i.now }
{
    match effect_of(target, i) {
        None => false,
        Some(e) => is_branch(e),
    }
}

/// The blocks that branches name.
fn branch_targets(
    alloc: Global,
    target: &Target,
    instrs: &[Boxed<Instr>],
) -> Result<Vec<u32>, AllocError>
    ensures { IfOk result (λ made. made.items ≡ rules.branch_targets target.now instrs.now) }
{
    let mut made = Vec::new(alloc);
    for i in instrs {
        let i = i.get();
        if is_branch_at(target, i) {
            push_named(&mut made, i.operands.as_slice())?;
        }
    }
    Ok(made)
}

/// Whether the instruction is a branch whose operands don't fit its roles.
#[tactic(auto, unfolding(mir_meaning::specs::Rules::V1))]
fn is_wrong_branch(alloc: Global, target: &Target, f: &Func, i: &Instr) -> Result<bool, AllocError>
    ensures { IfOk result (λ is_wrong. is_wrong ≡ (binding.does binding.is_branch target.now i.now && not (rules.V1 target.now f.now i.now))) }
{
    match desc_of(target, &i.op) {
        None => Ok(false),
        Some(d) => {
            if !is_branch(d.effect) {
                return Ok(false);
            }
            let is_right = operands_fit(alloc, target, f, d, i.operands.as_slice())?;
            Ok(!is_right)
        }
    }
}

/// Whether some branch's operands don't fit its roles.
fn some_branch_is_wrong(
    alloc: Global,
    target: &Target,
    f: &Func,
    instrs: &[Boxed<Instr>],
) -> Result<bool, AllocError>
    ensures { IfOk result (λ is_wrong. is_wrong ≡ list_any (λ i. binding.does binding.is_branch target.now i && not (rules.V1 target.now f.now i)) instrs.now) }
{
    for i in instrs {
        let i = i.get();
        if is_wrong_branch(alloc, target, f, i)? {
            return Ok(true);
        }
    }
    Ok(false)
}

/// Puts a number at the end, if there is one.
fn push_some(out: &mut Vec<u32>, n: Option<u32>) -> Result<(), AllocError>
    ensures { OnOk result (out.new.items ≡ out.old.items ++ option_to_list n) }
{
    if let Some(n) = n {
        out.push(n)?;
    }
    Ok(())
}

/// Whether the successors are the branch targets and the block that is fallen into, each once.
fn successors_fit(
    alloc: Global,
    target: &Target,
    b: &Block,
    after: &[Block],
) -> Result<bool, AllocError>
    ensures { IfOk result (λ is_right. is_right ≡ rules.lists_once (rules.successors_of b.now) (rules.branch_targets target.now b.now.instrs ++ option_to_list (layout.fallen_into target.now b.now after.now))) }
{
    let listed = successors_of(alloc, b.successors.as_slice())?;
    let mut wanted = branch_targets(alloc, target, b.instrs.as_slice())?;
    push_some(&mut wanted, fallen_into(target, b, after))?;
    lists_once(alloc, listed.as_slice(), wanted.as_slice())
}

/// The blocks behind the k-th.
fn blocks_after(f: &Func, k: usize) -> &[Block]
    requires { k < length f.now.blocks }
    ensures { result.now ≡ drop (suc k) f.now.blocks }
{
    let blocks = f.blocks.as_slice();
    &blocks[k + 1..]
}

/// V9: the successors are the branch targets and the block that is fallen into, each once; not
/// asked where a branch fails V1, nor of an open block.
#[tactic(auto, unfolding(mir_meaning::specs::Rules::V9))]
pub(crate) fn v9(
    alloc: Global,
    target: &Target,
    f: &Func,
    k: usize,
    b: &Block,
) -> Result<bool, AllocError>
    requires { k < length f.now.blocks }
    ensures { IfOk result (λ is_right. is_right ≡ rules.V9 target.now f.now k b.now) }
{
    if some_branch_is_wrong(alloc, target, f, b.instrs.as_slice())? {
        return Ok(true);
    }
    if is_open(target, b) {
        return Ok(true);
    }
    successors_fit(alloc, target, b, blocks_after(f, k))
}

/// V10: the last block in layout ends with a jump or a return, or is open.
#[tactic(auto, unfolding(mir_meaning::specs::Rules::V10))]
pub(crate) fn v10(target: &Target, f: &Func, k: usize, b: &Block) -> bool
    requires { k < length f.now.blocks }
    ensures { result ≡ rules.V10 target.now f.now k b.now }
{
    let count = f.blocks.len();
    k + 1 < count || !falls_through(target, b.instrs.as_slice()) || is_open(target, b)
}

/// Whether the word stands somewhere in the text.
fn contains(text: &[u8], word: &[u8]) -> bool
    ensures { result ≡ rules.contains text.now word.now }
{
    let mut rest = text;
    'text: while let [_, more @ ..] = rest {
        if rest.starts_with(word) {
            return true;
        }
        rest = more;
    }
    false
}

/// V16: the block is no landing pad and no entry of an exception handler.
#[tactic(auto, unfolding(mir_meaning::specs::Rules::V16))]
pub(crate) fn v16(b: &Block) -> bool
    ensures { result ≡ rules.V16 b.now }
{
    let text = b.attributes.as_slice();
    !contains(text, b"landing-pad") && !contains(text, b"ehfunclet-entry")
}
