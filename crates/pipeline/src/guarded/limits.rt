//! The limits of one function.

ghost use Rattle.std.specs.Prelude.{◌≡◌, ◌+◌, ◌≤◌, length};
ghost use Rattle.std.specs.List.{sum_by};
ghost use Rattle.pipeline.specs.Guarded.Limits.{instr_count, passes_instrs, passed_limit};

use crate::guarded::stop::LimitName;
use mir_func::{Block, Func};

/// The most blocks of a function.
const MOST_BLOCKS: usize = 1_024;

/// The most instructions of a function, and the most virtual registers.
const MOST_ITEMS: usize = 16_384;

/// Whether the blocks have more than so many instructions.
#[tactic(auto, using(std::proofs::lemmas::List::Sums::sum_by_more, std::proofs::lemmas::List::Sums::sum_by_more_le))]
fn passes_instrs(blocks: &[Block]) -> bool
    ensures { result ≡ passes_instrs blocks.now }
{
    let mut left = MOST_ITEMS;
    'blocks: for b in blocks {
        if b.instrs.len() > left {
            return true;
        }
        left -= b.instrs.len();
    }
    false
}

/// The first limit that a function passes: Blocks, Instructions, then Registers.
pub fn passed_limit(f: &Func) -> Option<LimitName>
    ensures { result ≡ passed_limit f.now }
{
    if f.blocks.len() > MOST_BLOCKS {
        return Some(LimitName::Blocks);
    }
    if passes_instrs(f.blocks.as_slice()) {
        return Some(LimitName::Instructions);
    }
    if f.classes.len() > MOST_ITEMS {
        return Some(LimitName::Registers);
    }
    None
}
