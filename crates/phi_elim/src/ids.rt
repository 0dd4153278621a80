//! Ids given anew, in layout order.

ghost use Rattle.std.specs.Prelude.{◌≡◌, ◌+◌, ◌<◌, ◌^◌, length};
ghost use Rattle.phi_elim.specs.Numbered.{numbered, blocks_numbered, instr_count};

use mir_func::{Block, Blocks, Instr, Instrs};

/// Gives the instructions the ids from 0 on, in layout order, and answers their number.
#[tactic(auto, using(crate::proofs::Numbering::numbering))]
pub fn number_blocks(blocks: &mut Blocks) -> u32
    requires { instr_count blocks.old < 2 ^ 32 }
    ensures blocks { blocks.new ≡ blocks_numbered 0 blocks.old }
    ensures count { result ≡ instr_count blocks.old }
{
    let mut next = 0;
    'layout: for k in 0..blocks.len() {
        next = number_block(blocks.get_mut(k), next);
    }
    next
}

fn number_block(block: &mut Block, first: u32) -> u32
    requires { first + length block.old.instrs < 2 ^ 32 }
    ensures block { block.new ≡ record block.old { instrs = numbered first block.old.instrs } }
    ensures next { result ≡ first + length block.old.instrs }
{
    number_instrs(&mut block.instrs, first)
}

/// Gives instructions the ids from `first` on, and answers the next one.
#[tactic(auto, using(crate::proofs::Numbering::numbering))]
fn number_instrs(instrs: &mut Instrs, first: u32) -> u32
    requires { first + length instrs.old < 2 ^ 32 }
    ensures instrs { instrs.new ≡ numbered first instrs.old }
    ensures next { result ≡ first + length instrs.old }
{
    let mut next = first;
    'each: for k in 0..instrs.len() {
        number_instr(instrs.get_mut(k), next);
        next += 1;
    }
    next
}

fn number_instr(i: &mut Instr, id: u32)
    ensures { i.new ≡ record i.old { id = id } }
{
    i.id = id;
}
