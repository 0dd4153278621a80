//! The numbers of blocks' starts and of instructions: the list of each block's start and its
//! instructions, in layout, counts 0, 16, 32 and on.

ghost use Rattle.std.specs.Prelude.{◌≡◌, ◌<◌, ◌+◌, ◌*◌, ◌^◌, IfOk, slice_index};
ghost use Rattle.ra_top.specs.Report.Intervals.Told.{start_numbers, AreShort};

use mir_func::Block;
use std::alloc::{AllocError, Global};

/// How far apart two numbers that follow each other are.
const STEP: u128 = 16;

/// The number that stands so many behind another.
pub(crate) fn number_behind(start: u128, count: u128) -> u128
    ensures { start + 16 * count < 2 ^ 128 → result ≡ start + 16 * count }
{
    count.saturating_mul(STEP).saturating_add(start)
}

/// The number of each block's start, in layout, and the one behind the last instruction.
pub(crate) fn starts_of(alloc: Global, blocks: &[Block]) -> Result<Vec<u128>, AllocError>
    requires { AreShort blocks.now }
    ensures { IfOk result (λ starts. starts.items ≡ start_numbers 0 blocks.now) }
{
    let mut starts = Vec::new(alloc);
    let mut next = 0u128;
    'layout: for block in blocks {
        starts.push(next)?;
        next = number_behind(next, block.instrs.len() as u128 + 1);
    }
    starts.push(next)?;
    Ok(starts)
}

/// The number at a place.
pub(crate) fn number_in(starts: &[u128], place: usize) -> u128
    ensures { result ≡ slice_index starts.now place }
{
    starts.get(place).copied().unwrap_or(0)
}
