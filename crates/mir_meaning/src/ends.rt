//! Where control leaves blocks.

ghost use Rattle.std.specs.Prelude.{◌≡◌};
ghost use Rattle.mir_meaning.specs.Codes.{ends_without_terminator, is_open};

use mir_func::opcodes::is_terminator;
use mir_func::{Block, Instr};
use target_base::{Boxed, Target};

/// Whether there is no instruction, or the last is no terminator.
fn ends_without_terminator(target: &Target, instrs: &[Boxed<Instr>]) -> bool
    ensures { result ≡ ends_without_terminator target.now instrs.now }
{
    let mut rest = instrs;
    while let [i, more @ ..] = rest {
        if more.is_empty() {
            return !is_terminator(target, i.get());
        }
        rest = more;
    }
    true
}

/// Whether a block is open: the target's text has such blocks, it has no successors, and its last
/// instruction, if there is one, is no terminator. Control doesn't reach its end.
pub fn is_open(target: &Target, b: &Block) -> bool
    ensures { result ≡ is_open target.now b.now }
{
    target.options.open_blocks
        && b.successors.len() == 0
        && ends_without_terminator(target, b.instrs.as_slice())
}
