//! Spill weights.

ghost use Rattle.std.specs.Prelude.{◌≡◌, ◌<◌, ◌+◌, ◌-◌, ◌*◌, ◌^◌, min};
ghost use Rattle.std.specs.List.{sum_by};
ghost use Rattle.mir_meaning.specs.Points.{is_range, counts};
ghost use Rattle.block_freq.specs.Weights.{names, naming, block_uses, use_sum, weight_of};

use crate::freqs::Freqs;
use mir_func::{Block, Func, Instr, Loc, Operand, RegOp};
use target_base::Boxed;

/// The spill weight of range `v`, which has so many points: 1,024 times the frequencies of its uses
/// and definitions, divided by 8 more than its points (LLVM's `VirtRegAuxInfo` plays this part). It
/// takes no memory. Where the product needs more than 128 bits, nothing is said of the answer.
#[tactic(auto, using(crate::proofs::Sums::sums))]
pub fn weight(f: &Func, freqs: &Freqs, v: u32, points: u64) -> u128
    ensures { 1024 * use_sum f.now.blocks freqs.now v < 2 ^ 128 → result ≡ weight_of f.now.blocks freqs.now v points }
{
    let uses = all_uses(freqs.as_slice(), f.blocks.as_slice(), v);
    1024u128.saturating_mul(uses) / (points as u128 + 8)
}

/// The uses and definitions of a range over all blocks, each as often as its block is entered; at
/// most 2^128 - 1.
#[tactic(auto, using(crate::proofs::Sums::sums))]
fn all_uses(freqs: &[u64], blocks: &[Block], v: u32) -> u128
    ensures { result ≡ min (use_sum blocks.now freqs.now v) (2 ^ 128 - 1) }
{
    let mut sum = 0;
    'layout: for k in 0..freqs.len().min(blocks.len()) {
        sum = add_uses(sum, freqs[k], blocks[k].instrs.as_slice(), v);
    }
    sum
}

/// Adds those of one block.
#[tactic(auto, using(crate::proofs::Sums::sums))]
fn add_uses(before: u128, freq: u64, instrs: &[Boxed<Instr>], v: u32) -> u128
    ensures { result ≡ min (before + sum_by (λ i. freq * naming v i) instrs.now) (2 ^ 128 - 1) }
{
    let mut sum = before;
    'instrs: for i in instrs {
        let i = i.get();
        sum = sum.saturating_add(freq as u128 * operand_count(i, v) as u128);
    }
    sum
}

/// The number of operands of an instruction that name a range, `undef` uses aside.
pub fn operand_count(instr: &Instr, v: u32) -> u64
    ensures { result ≡ naming v instr.now }
{
    let operands = instr.operands.as_slice();
    operands.iter().filter(|operand| names(operand, v)).count() as u64
}

/// Whether an operand names a range and isn't an `undef` use.
fn names(operand: &Operand, v: u32) -> bool
    ensures { result ≡ names v operand.now }
{
    match operand {
        Operand::Reg(op) => is_range(op, v) && counts(*op),
        _ => false,
    }
}

/// Whether an operand is a range.
pub fn is_range(op: &RegOp, v: u32) -> bool
    ensures { result ≡ is_range v op.now.loc }
{
    match op.loc {
        Loc::Virtual(w) => v == w,
        Loc::Fixed(_) => false,
    }
}

/// Whether an operand is a definition or a use that isn't `undef`.
fn counts(o: RegOp) -> bool
    ensures { result ≡ counts o }
{
    o.def || !o.undef
}
