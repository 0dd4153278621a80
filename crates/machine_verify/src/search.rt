//! The first place in layout at which a rule other than V13 and V14 fails, with the least rule there.

ghost use Rattle.std.specs.Prelude.{◌≡◌, ◌<◌, ◌^◌, take, drop, length, option_map, IfOk};
ghost use Rattle.mir_meaning.specs.Rules as rules;
ghost use Rattle.mir_meaning.specs.Valid as valid;
ghost use Rattle.machine_verify.specs.Sets.{Holds, HoldsSlots};
ghost use Rattle.machine_verify.specs.InstrRules.{before_at};
ghost use Rattle.machine_verify.specs.Faults.{fault_of};

use crate::blocks::{names_are_there, predecessors, v9, v10, v16};
use crate::instr_rules::{BlockEntry, BlockPrefix, FuncInForm, after, instr_rule};
use crate::numbers::NumberSet;
use crate::stop::Invalid;
use crate::ties::{spill_slots, v15_frame};
use mir_func::{Block, Place};
use std::alloc::{AllocError, Global};

/// The numbers of all blocks, those of the blocks so far, and the spill slots.
#[derive(Drop)]
struct BodyNumbers {
    numbers: NumberSet,
    seen: NumberSet,
    slots: NumberSet,
}

/// The numbers of blocks.
fn numbers_of(alloc: Global, blocks: &[Block]) -> Result<NumberSet, AllocError>
    ensures { IfOk result (λ set. Holds set (rules.block_numbers blocks.now)) }
{
    let mut set = NumberSet::new(alloc);
    for b in blocks {
        let _is_new = set.add(b.number)?;
    }
    Ok(set)
}

/// V5: a block's number differs from those before it, and the blocks that it names are there.
#[tactic(auto, using(crate::proofs::Meant::v5_is))]
fn v5(q: &FuncInForm, known: &BodyNumbers, k: usize, b: &Block) -> bool
    requires numbers { Holds known.now.numbers (rules.block_numbers q.now.f.now.blocks) }
    requires seen { Holds known.now.seen (rules.block_numbers (take k q.now.f.now.blocks)) }
    ensures { result ≡ rules.V5 q.now.f.now k b.now }
{
    !known.seen.has(b.number) && names_are_there(&known.numbers, b)
}

/// V6: the entry block has no predecessor.
#[tactic(auto, unfolding(mir_meaning::specs::Rules::V6))]
fn v6(q: &FuncInForm, k: usize, b: &Block, preds: &[u32]) -> bool
    requires { preds.now ≡ rules.predecessors q.now.f.now b.now.number }
    ensures { result ≡ rules.V6 q.now.f.now k b.now }
{
    k != 0 || preds.is_empty()
}

/// The least rule that fails for a block; V15 of the frame counts at the entry block.
#[tactic(auto, unfolding(mir_meaning::specs::Valid::block_fault))]
fn block_fault(
    q: &FuncInForm,
    known: &BodyNumbers,
    k: usize,
    b: &Block,
    preds: &[u32],
) -> Result<Option<u8>, AllocError>
    requires within { k < length q.now.f.now.blocks }
    requires numbers { Holds known.now.numbers (rules.block_numbers q.now.f.now.blocks) }
    requires seen { Holds known.now.seen (rules.block_numbers (take k q.now.f.now.blocks)) }
    requires preds { preds.now ≡ rules.predecessors q.now.f.now b.now.number }
    ensures { IfOk result (λ rule. rule ≡ valid.block_fault q.now.target.now q.now.form q.now.f.now k b.now) }
{
    if !v5(q, known, k, b) {
        return Ok(Some(5));
    }
    if !v6(q, k, b, preds) {
        return Ok(Some(6));
    }
    if !v9(q.alloc, q.target, q.f, k, b)? {
        return Ok(Some(9));
    }
    if !v10(q.target, q.f, k, b) {
        return Ok(Some(10));
    }
    if k == 0 && !v15_frame(q.form, q.f) {
        return Ok(Some(15));
    }
    if !v16(b) {
        return Ok(Some(16));
    }
    Ok(None)
}

/// The lesser of two rules that fail, if any does.
fn least(a: Option<u8>, b: Option<u8>) -> Option<u8>
    ensures { result ≡ valid.least a b }
{
    match a {
        None => b,
        Some(q) => match b {
            None => Some(q),
            Some(r) => { if r < q { Some(r) } else { Some(q) } }
        },
    }
}

/// A fault at a place of a block.
pub(crate) fn fault_at(b: &Block, at: u32, rule: u8) -> Invalid
    ensures { fault_of result ≡ valid.fault_at b.now at rule }
{
    Invalid {
        place: Place {
            block: b.number,
            at,
        },
        rule,
    }
}

/// The rule as a fault at the block's first place, if there is one.
fn first_fault_at(b: &Block, rule: Option<u8>) -> Option<Invalid>
    ensures { option_map fault_of result ≡ option_map (valid.fault_at b.now 0) rule }
{
    match rule {
        None => None,
        Some(r) => Some(fault_at(b, 0, r)),
    }
}

/// The first fault among the instructions of block `k` behind its first one.
#[tactic(auto, using(crate::proofs::Searched::rule_is, crate::proofs::Searched::instrs_step, crate::proofs::Searched::before_step))]
fn later_fault(
    q: &FuncInForm,
    known: &BodyNumbers,
    k: usize,
    b: &Block,
    preds: &[u32],
    first: BlockPrefix,
) -> Result<Option<Invalid>, AllocError>
    requires few { length b.now.instrs < 2 ^ 32 }
    requires slots { HoldsSlots known.now.slots q.now.f.now }
    requires preds { preds.now ≡ rules.predecessors q.now.f.now b.now.number }
    requires first { first ≡ before_at q.now.target.now b.now.instrs 1 }
    ensures { IfOk result (λ fault. option_map fault_of fault ≡ valid.instrs_fault q.now.target.now q.now.form q.now.f.now k b.now 1 (drop 1 b.now.instrs)) }
{
    let instrs = b.instrs.as_slice();
    let incoming = BlockEntry {
        is_entry: k == 0,
        preds,
    };
    let mut before = first;
    'instrs: for j in 1..instrs.len() {
        let i = instrs[j].get();
        if let Some(rule) = instr_rule(q, &known.slots, i, &incoming, before)? {
            return Ok(Some(fault_at(b, j as u32, rule)));
        }
        before = after(q.target, before, i);
    }
    Ok(None)
}

/// The first fault in block `k`, whose own rules count at its first place.
#[tactic(auto, using(crate::proofs::Searched::rule_is, crate::proofs::Searched::first_before, crate::proofs::Searched::before_step))]
fn fault_in(
    q: &FuncInForm,
    known: &BodyNumbers,
    k: usize,
    b: &Block,
) -> Result<Option<Invalid>, AllocError>
    requires within { k < length q.now.f.now.blocks }
    requires few { length b.now.instrs < 2 ^ 32 }
    requires numbers { Holds known.now.numbers (rules.block_numbers q.now.f.now.blocks) }
    requires seen { Holds known.now.seen (rules.block_numbers (take k q.now.f.now.blocks)) }
    requires slots { HoldsSlots known.now.slots q.now.f.now }
    ensures { IfOk result (λ fault. option_map fault_of fault ≡ valid.fault_in q.now.target.now q.now.form q.now.f.now k b.now b.now.instrs) }
{
    let preds = predecessors(q.alloc, q.f, b.number)?;
    let own = block_fault(q, known, k, b, preds.as_slice())?;
    let [i, ..] = b.instrs.as_slice() else {
        return Ok(first_fault_at(b, own));
    };
    let i = i.get();
    let start = BlockPrefix {
        only_phis: true,
        terminator: false,
    };
    let incoming = BlockEntry {
        is_entry: k == 0,
        preds: preds.as_slice(),
    };
    let rule = instr_rule(q, &known.slots, i, &incoming, start)?;
    if let Some(r) = least(own, rule) {
        return Ok(Some(fault_at(b, 0, r)));
    }
    let later = later_fault(q, known, k, b, preds.as_slice(), after(q.target, start, i))?;
    Ok(later)
}

/// The first place in layout at which a rule other than V13 and V14 fails, with the least rule
/// there.
#[tactic(auto, using(crate::proofs::Searched::blocks_step, live_laws::proofs::Few::few_instrs))]
pub(crate) fn shape_fault(q: &FuncInForm) -> Result<Option<Invalid>, AllocError>
    ensures { IfOk result (λ fault. option_map fault_of fault ≡ valid.shape_fault q.now.target.now q.now.form q.now.f.now) }
{
    let f = q.f;
    let _last = f.next_id;
    let blocks = f.blocks.as_slice();
    let mut known = BodyNumbers {
        numbers: numbers_of(q.alloc, blocks)?,
        seen: NumberSet::new(q.alloc),
        slots: spill_slots(q.alloc, q.f)?,
    };
    'search: for k in 0..blocks.len() {
        let b = &blocks[k];
        if let Some(fault) = fault_in(q, &known, k, b)? {
            return Ok(Some(fault));
        }
        let _is_new = known.seen.add(b.number)?;
    }
    Ok(None)
}
