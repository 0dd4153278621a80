//! Block frequencies (LLVM's `MachineBlockFrequencyInfo`).

ghost use Rattle.std.specs.Prelude.{◌≡◌, ◌<◌, ◌≤◌, ◌+◌, ◌^◌, ◌==◌, ℕ, cond, min, IfOk, length, slice_index, replicate, vec_len};
ghost use Rattle.std.specs.List.{All};
ghost use Rattle.block_freq.specs.Frequencies.{entry_frequency, share, round, rounds, frequencies_of};

use crate::edges::{BlockEdge, edges_of};
use mir_func::Func;
use std::alloc::{AllocError, Global};
use std::mem;
use target_base::List;

/// The frequency of each block, in layout order.
pub type Freqs = List<u64>;

/// The greatest frequency.
const CAP: u128 = 1_099_511_627_776;

/// The frequency of the entry block by itself.
const ENTRY: u64 = 16384;

/// How often each block is entered, relative to 16,384 for the entry block: 64 rounds from 0, in
/// each of which all blocks at once take what their edges carry from the last one. Each is at most
/// 2^40. It takes its memory at its start.
#[tactic(auto, using(crate::proofs::Rounds::round_steps))]
pub fn frequencies(alloc: Global, f: &Func) -> Result<Freqs, AllocError>
    ensures value { IfOk result (λ fs. fs ≡ frequencies_of f.now.blocks) }
    ensures count { IfOk result (λ fs. length fs ≡ length f.now.blocks) }
    ensures capped { IfOk result (λ fs. All (λ x. x ≤ 2 ^ 40) fs) }
{
    let blocks = f.blocks.as_slice();
    let edges = edges_of(alloc, blocks)?;
    let mut last = zeros(alloc, blocks.len())?;
    let mut next = zeros(alloc, blocks.len())?;
    run_rounds(edges.as_slice(), last.as_mut_slice(), next.as_mut_slice());
    Ok(List::from_vec(last))
}

/// So many zeros.
fn zeros(alloc: Global, count: usize) -> Result<Vec<u64>, AllocError>
    ensures items { IfOk result (λ made. made.items ≡ replicate count 0) }
    ensures len { IfOk result (λ made. vec_len made ≡ count) }
{
    vec![in alloc; 0; count]
}

/// All 64 rounds; `next` is room for one of them.
#[tactic(auto, using(crate::proofs::Rounds::round_steps))]
fn run_rounds(edges: &[BlockEdge], last: &mut [u64], next: &mut [u64])
    requires { length next.old ≡ length last.old }
    ensures value { last.new ≡ rounds edges.now 64 last.old }
    ensures capped { All (λ x. x ≤ 2 ^ 40) last.new }
{
    'rounds: for k in 0..64usize {
        take_round(edges, last, next);
        if *last == *next {
            // (so all later rounds give the same)
            return;
        }
        last.copy_from_slice(next);
    }
}

/// One round: what all blocks take at once.
#[tactic(auto, using(crate::proofs::Rounds::round_steps))]
fn take_round(edges: &[BlockEdge], last: &[u64], next: &mut [u64])
    requires { length next.old ≡ length last.now }
    ensures { next.new ≡ round edges.now last.now }
{
    begin_round(next);
    'edges: for e in edges {
        carry(*e, last, next);
    }
}

/// What blocks have before their edges carry anything.
fn begin_round(next: &mut [u64])
    ensures { (b : ℕ) → b < length next.old → slice_index next.new b ≡ entry_frequency b }
{
    'layout: for (b, x) in next.iter_mut().enumerate() {
        *x = if b == 0 { ENTRY } else { 0 };
    }
}

/// Adds what an edge carries to the block that it leads to, up to the cap.
fn carry(e: BlockEdge, last: &[u64], next: &mut [u64])
    ensures { (b : ℕ) → b < length next.old → slice_index next.new b ≡ cond (e.to == b) (min (slice_index next.old b + share last.now e) (2 ^ 40)) (slice_index next.old b) }
{
    if e.to < next.len() {
        let sum = (next[e.to] as u128).saturating_add(share_of(e, last));
        next[e.to] = sum.min(CAP) as u64;
    }
}

/// What an edge carries of the frequency of the block that it leaves.
fn share_of(e: BlockEdge, last: &[u64]) -> u128
    ensures { result ≡ share last.now e }
{
    let from = last.get(e.from).copied().unwrap_or(0);
    from as u128 * e.prob as u128 / (1 << 31)
}
