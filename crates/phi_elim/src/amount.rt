//! How much a function holds.

ghost use Rattle.std.specs.Prelude.{◌≡◌, ◌<◌, ◌+◌, ◌-◌, ◌^◌, length, min};
ghost use Rattle.std.specs.List.{sum_by};
ghost use Rattle.phi_elim.specs.Bulk.{bulk, operand_count};

use mir_func::{Block, Func, Instr};
use target_base::Boxed;

/// The bulk of a function, by which the numbers are bounded that lowering makes: the next id and the
/// numbers of its ranges, operands and frame objects together; at most 2^64 - 1.
pub fn bulk_of(f: &Func) -> u64
    ensures { result ≡ min (bulk f.now) (2 ^ 64 - 1) }
{
    let lists = (f.next_id as u64)
        .saturating_add(f.classes.len() as u64)
        .saturating_add(f.frames.len() as u64);
    add_blocks(lists, f.blocks.as_slice())
}

#[tactic(auto, using(crate::proofs::Bulks::bulks))]
fn add_blocks(before: u64, blocks: &[Block]) -> u64
    ensures { result ≡ min (before + sum_by (λ b. operand_count b.instrs) blocks.now) (2 ^ 64 - 1) }
{
    let mut sum = before;
    'layout: for b in blocks {
        sum = add_instrs(sum, b.instrs.as_slice());
    }
    sum
}

#[tactic(auto, using(crate::proofs::Bulks::bulks))]
fn add_instrs(before: u64, instrs: &[Boxed<Instr>]) -> u64
    ensures { result ≡ min (before + operand_count instrs.now) (2 ^ 64 - 1) }
{
    let mut sum = before;
    'each: for i in instrs {
        let i = i.get();
        sum = sum.saturating_add(i.operands.len() as u64);
    }
    sum
}
