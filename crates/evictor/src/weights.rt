//! Spill weights: how often a range is used, for the points that it has.

ghost use Rattle.std.specs.Prelude.{◌≡◌, ◌<◌, ◌≤◌, ◌*◌, ◌-◌, ◌^◌, ℕ, List, min, slice_index, IfOk, IfSome};
ghost use Rattle.mir_func.specs.declared.func.Instr.{Instr as Instruction};
ghost use Rattle.block_freq.specs.Weights.{use_sum, weight_of};
ghost use Rattle.live_lanes.specs.Held.{range_held};
ghost use Rattle.live_lanes.specs.Looks.{InOrder};
ghost use Rattle.live_lanes.specs.Touching.{FindsInstrs};
ghost use Rattle.live_lanes.specs.Tells.{TellsInstrs};
ghost use Rattle.evictor.specs.Spots.{IsSpot, uses_at, IsUseSum, points_of, points_in};

use block_freq::{Freqs, operand_count};
use live_lanes::LiveFunc;
use mir_func::Block;
use std::alloc::{AllocError, Global};

/// The frequency of the block at a position.
pub fn frequency_at(freqs: &Freqs, position: u32) -> u64
    ensures { result ≡ slice_index freqs.now position }
{
    freqs
        .as_slice()
        .get(position as usize)
        .copied()
        .unwrap_or(0)
}

/// The operands of an instruction that name a range, each as often as its block is entered.
fn uses_at(live: &LiveFunc, id: u32, v: u32, freqs: &Freqs) -> u128
    ensures { FindsInstrs live.now.table live.now.func.blocks → (s : ℕ × Instruction) → IsSpot live.now.func.blocks s → s.1.id ≡ id → result ≡ uses_at freqs.now v s }
{
    match live.instr(id) {
        None => 0,
        Some(instr) => {
            frequency_at(freqs, live.position_of(id)) as u128 * operand_count(instr, v) as u128
        }
    }
}

/// The sum, over the instructions that touch a range, of the block's frequency times the number of
/// operands that name it.
pub fn use_sum(alloc: Global, live: &LiveFunc, v: u32, freqs: &Freqs) -> Result<u128, AllocError>
    ensures { IfOk result (λ sum. TellsInstrs live.now.func live.now.table
        → sum ≡ min (use_sum live.now.func.blocks freqs.now v) (2 ^ 128 - 1)) }
{
    let touched = live.touched(alloc, v)?;
    let mut sum = 0u128;
    'touched: for id in touched.as_slice() {
        sum = sum.saturating_add(uses_at(live, *id, v, freqs));
    }
    Ok(sum)
}

/// The spill weight of a range of this use sum: 1024 times the sum, divided by 8 more than its points.
fn weight_for(live: &LiveFunc, v: u32, uses: u128) -> u128
    ensures { (freqs : List ℕ) → InOrder live.now.table → TellsInstrs live.now.func live.now.table → IsUseSum live.now.func.blocks freqs v uses
        → range_held live.now.table live.now.func.blocks v < 2 ^ 64 → 1024 * use_sum live.now.func.blocks freqs v < 2 ^ 128
        → result ≡ weight_of live.now.func.blocks freqs v (range_held live.now.table live.now.func.blocks v) }
{
    let points = live.points(v) as u128;
    uses.saturating_mul(1024) / (points + 8)
}

/// The spill weight of a range whose use sum may be known.
pub fn weight_by(
    alloc: Global,
    live: &LiveFunc,
    v: u32,
    freqs: &Freqs,
    known: Option<u128>,
) -> Result<u128, AllocError>
    ensures { IfOk result (λ weight. InOrder live.now.table → TellsInstrs live.now.func live.now.table → IfSome known (IsUseSum live.now.func.blocks freqs.now v)
        → range_held live.now.table live.now.func.blocks v < 2 ^ 64 → 1024 * use_sum live.now.func.blocks freqs.now v < 2 ^ 128
        → weight ≡ weight_of live.now.func.blocks freqs.now v (range_held live.now.table live.now.func.blocks v)) }
{
    match known {
        Some(uses) => Ok(weight_for(live, v, uses)),
        None => {
            let uses = use_sum(alloc, live, v, freqs)?;
            Ok(weight_for(live, v, uses))
        }
    }
}

/// The points of a block, or 2^64 - 1 where these are fewer.
fn block_points(b: &Block) -> u64
    ensures { result ≡ min (points_of b.now) (2 ^ 64 - 1) }
{
    (b.instrs.len() as u64).saturating_mul(2).saturating_add(1)
}

/// The same of several blocks.
#[tactic(auto, using(crate::proofs::Points::counts))]
fn all_points(blocks: &[Block]) -> u64
    ensures { result ≡ min (points_in blocks.now) (2 ^ 64 - 1) }
{
    let mut points = 0u64;
    'layout: for b in blocks {
        points = points.saturating_add(block_points(b));
    }
    points
}

/// A weight that a range of this use sum has at least.
pub fn least_weight(live: &LiveFunc, uses: u128) -> u128
    ensures { (v : ℕ) (freqs : List ℕ) → IsUseSum live.now.func.blocks freqs v uses
        → range_held live.now.table live.now.func.blocks v < 2 ^ 64 → 1024 * use_sum live.now.func.blocks freqs v < 2 ^ 128
        → result ≤ weight_of live.now.func.blocks freqs v (range_held live.now.table live.now.func.blocks v) }
{
    // (no range has more points than its function)
    let most = all_points(live.func().blocks.as_slice()) as u128;
    uses.saturating_mul(1024) / (most + 8)
}

/// The spill weight of a range: 1024 times its use sum, divided by 8 more than its points.
pub fn weight(alloc: Global, live: &LiveFunc, v: u32, freqs: &Freqs) -> Result<u128, AllocError>
    ensures { IfOk result (λ weight. InOrder live.now.table → TellsInstrs live.now.func live.now.table
        → range_held live.now.table live.now.func.blocks v < 2 ^ 64 → 1024 * use_sum live.now.func.blocks freqs.now v < 2 ^ 128
        → weight ≡ weight_of live.now.func.blocks freqs.now v (range_held live.now.table live.now.func.blocks v)) }
{
    let own = weight_by(alloc, live, v, freqs, None)?;
    Ok(own)
}
