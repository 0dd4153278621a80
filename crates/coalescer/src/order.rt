//! The copies between ranges, in the order in which they are tried.

ghost use Rattle.std.specs.Prelude.{◌≡◌, ◌++◌, OnOk, IfOk, flat_map, map, zip};
ghost use Rattle.join_laws.specs.Joined.{block_copies, copies_in_order};

use crate::sides::copies_ranges;
use live_lanes::LiveFunc;
use mir_func::Block;
use std::alloc::{AllocError, Global};
use target_base::Target;

/// Puts the copies of a block behind others, by their ids, each with the block's frequency.
fn push_copies(
    copies: &mut Vec<(u64, u32)>,
    target: &Target,
    freq: u64,
    block: &Block,
) -> Result<(), AllocError>
    ensures { OnOk result (copies.new.items ≡ copies.old.items ++ block_copies target.now (freq, block.now)) }
{
    'instrs: for instr in block.instrs.as_slice() {
        let instr = instr.get();
        if copies_ranges(target, instr) {
            copies.push((freq, instr.id))?;
        }
    }
    Ok(())
}

/// The copies of blocks in layout, by their ids, each with its block's frequency.
fn copies_of(
    alloc: Global,
    target: &Target,
    freqs: &[u64],
    blocks: &[Block],
) -> Result<Vec<(u64, u32)>, AllocError>
    ensures { IfOk result (λ made. made.items ≡ flat_map (block_copies target.now) (zip freqs.now blocks.now)) }
{
    let mut copies = Vec::new(alloc);
    'layout: for k in 0..freqs.len().min(blocks.len()) {
        push_copies(&mut copies, target, freqs[k], &blocks[k])?;
    }
    Ok(copies)
}

/// The copies of a function, by their frequencies and ids, in the order in which they are tried: the
/// most frequent first, and then by layout.
pub(crate) fn copies_in_order(
    alloc: Global,
    target: &Target,
    freqs: &[u64],
    live: &LiveFunc,
) -> Result<Vec<(u64, u32)>, AllocError>
    ensures { IfOk result (λ made. map (λ c. c.1) made.items ≡ copies_in_order target.now freqs.now live.now.func.blocks) }
{
    let blocks = live.func().blocks.as_slice();
    let mut copies = copies_of(alloc, target, freqs, blocks)?;
    copies.sort_by_key(|copy| u64::MAX - copy.0)?;
    Ok(copies)
}
