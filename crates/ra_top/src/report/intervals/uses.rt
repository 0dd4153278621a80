//! How often the ranges of a function are used.

ghost use Rattle.std.specs.Prelude.{◌≡◌, ◌*◌, ◌+◌, ◌/◌, ℕ, true, cond, min, length, slice_get, option_map, replicate, vec_len, IfOk};
ghost use Rattle.mir_meaning.specs.Points.{counts};
ghost use Rattle.ra_top.specs.Report.Intervals.Told.{most, unused, with_register, with_operand, with_operands, with_instrs, with_blocks, AreUses};

use mir_func::{Block, Func, Instr, Loc, Operand, RegOp};
use std::alloc::{AllocError, Global};
use target_base::Boxed;

/// How often a range is used.
#[derive(Clone, Copy)]
pub struct Use {
    /// Whether an operand names the range.
    pub is_named: bool,
    /// The sum over its uses and definitions, `undef` uses aside, of the frequencies of their blocks; at
    /// most 2^128 - 1.
    pub sum: u128,
}

/// No uses.
const NONE: Use = Use {
    is_named: false,
    sum: 0,
};

/// A use that is one more, of this frequency where it counts.
fn one_more(own: Use, freq: u64, counts: bool) -> Use
    ensures { result ≡ (record { is_named = true; sum = cond counts (min (own.sum + freq) most) own.sum }) }
{
    Use {
        is_named: true,
        sum: if counts {
            own.sum.saturating_add(freq as u128)
        } else {
            own.sum
        },
    }
}

/// Whether an operand is a definition or a use that isn't `undef`.
fn counts(op: RegOp) -> bool
    ensures { result ≡ counts op }
{
    op.def || !op.undef
}

/// Adds a register operand in a block of this frequency.
fn add_register(uses: &mut [Use], freq: u64, op: RegOp)
    ensures count { length uses.new ≡ length uses.old }
    ensures each { (v : ℕ) → slice_get uses.new v ≡ option_map (with_register freq v op) (slice_get uses.old v) }
{
    let Loc::Virtual(v) = op.loc else { return };
    let place = v as usize;
    if place < uses.len() {
        uses[place] = one_more(uses[place], freq, counts(op));
    }
}

/// Adds an operand in a block of this frequency.
fn add_operand(uses: &mut [Use], freq: u64, operand: &Operand)
    ensures count { length uses.new ≡ length uses.old }
    ensures each { (v : ℕ) → slice_get uses.new v ≡ option_map (with_operand freq v operand.now) (slice_get uses.old v) }
{
    if let Operand::Reg(op) = operand {
        add_register(uses, freq, *op);
    }
}

/// Adds the operands of an instruction in a block of this frequency.
fn add_operands(uses: &mut [Use], freq: u64, operands: &[Operand])
    ensures count { length uses.new ≡ length uses.old }
    ensures each { (v : ℕ) → slice_get uses.new v ≡ option_map (with_operands freq v operands.now) (slice_get uses.old v) }
{
    'list: for operand in operands {
        add_operand(uses, freq, operand);
    }
}

/// Adds the instructions of a block of this frequency.
fn add_instrs(uses: &mut [Use], freq: u64, instrs: &[Boxed<Instr>])
    ensures count { length uses.new ≡ length uses.old }
    ensures each { (v : ℕ) → slice_get uses.new v ≡ option_map (with_instrs freq v instrs.now) (slice_get uses.old v) }
{
    'list: for instr in instrs {
        let instr = instr.get();
        add_operands(uses, freq, instr.operands.as_slice());
    }
}

/// Adds blocks of these frequencies.
fn add_blocks(uses: &mut [Use], freqs: &[u64], blocks: &[Block])
    ensures count { length uses.new ≡ length uses.old }
    ensures each { (v : ℕ) → slice_get uses.new v ≡ option_map (with_blocks freqs.now v blocks.now) (slice_get uses.old v) }
{
    'layout: for k in 0..blocks.len() {
        let freq = freqs.get(k).copied().unwrap_or(0);
        add_instrs(uses, freq, blocks[k].instrs.as_slice());
    }
}

/// So many ranges without uses.
fn no_uses(alloc: Global, count: usize) -> Result<Vec<Use>, AllocError>
    ensures items { IfOk result (λ made. made.items ≡ replicate count unused) }
    ensures len { IfOk result (λ made. vec_len made ≡ count) }
{
    vec![in alloc; NONE; count]
}

/// How often each range is used, where these are the frequencies of the blocks.
pub(crate) fn uses_of(alloc: Global, f: &Func, freqs: &[u64]) -> Result<Vec<Use>, AllocError>
    ensures all { IfOk result (λ uses. length uses.items ≡ length f.now.classes) }
    ensures right { IfOk result (λ uses. AreUses freqs.now f.now.blocks uses.items) }
{
    let mut uses = no_uses(alloc, f.classes.len())?;
    add_blocks(uses.as_mut_slice(), freqs, f.blocks.as_slice());
    Ok(uses)
}

/// The weight of a range that is used so often and has so many points.
pub(crate) fn weight_of(sum: u128, points: u64) -> u128
    ensures { result ≡ min (sum * 1024) most / (points + 8) }
{
    sum.saturating_mul(1024) / (points as u128 + 8)
}
