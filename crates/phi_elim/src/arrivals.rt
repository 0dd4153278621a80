//! The copies that phis need in the blocks that lead to theirs.

ghost use Rattle.std.specs.Prelude.{◌≡◌, ◌<◌, ◌+◌, ◌^◌, ◌++◌, OnOk, IfOk, length};
ghost use Rattle.phi_elim.specs.Phis.{arrival, arrivals_of, arrivals_in, instr_arrivals, phi_number, phi_count, all_instrs};
ghost use Rattle.phi_elim.specs.Numbered.{instr_count};

use mir_func::func::block_at;
use mir_func::opcodes::is_phi;
use mir_func::{Block, Instr, Operand, RegOp};
use std::alloc::{AllocError, Global};
use target_base::{Boxed, Target};

/// A copy that a phi needs in a block that leads to its own.
#[derive(Clone, Copy)]
pub struct Arrival {
    /// The place of that block in layout.
    pub block: usize,
    /// The incoming register.
    pub to: u32,
    /// The phi's operand.
    pub from: RegOp,
}

/// Puts the arrival of one pair of a phi, an operand and the block that it comes from, behind the
/// others.
fn push_pair(
    arrivals: &mut Vec<Arrival>,
    blocks: &[Block],
    to: u32,
    operand: &Operand,
    block: &Operand,
) -> Result<(), AllocError>
    ensures { OnOk result (arrivals.new.items ≡ arrivals.old.items ++ arrival blocks.now to operand.now block.now) }
{
    if let Operand::Reg(from) = operand {
        if let Operand::Block(number) = block {
            let at = block_at(blocks, *number);
            arrivals.push(Arrival {
                block: at,
                to,
                from: *from,
            })?;
        }
    }
    Ok(())
}

/// Puts the arrivals of the phi with these inputs, whose incoming register is `to`, behind the others.
#[tactic(auto, using(crate::proofs::Arriving::arriving))]
fn push_inputs(
    arrivals: &mut Vec<Arrival>,
    blocks: &[Block],
    to: u32,
    inputs: &[Operand],
) -> Result<(), AllocError>
    ensures { OnOk result (arrivals.new.items ≡ arrivals.old.items ++ arrivals_of blocks.now to inputs.now) }
{
    'pairs: for k in 0..inputs.len() / 2 {
        push_pair(arrivals, blocks, to, &inputs[2 * k], &inputs[2 * k + 1])?;
    }
    Ok(())
}

/// Puts the arrivals of an instruction, if it is a phi, behind the others, and answers the number of
/// the next incoming register.
fn push_instr(
    arrivals: &mut Vec<Arrival>,
    target: &Target,
    blocks: &[Block],
    to: u32,
    i: &Instr,
) -> Result<u32, AllocError>
    requires { to + 1 < 2 ^ 32 }
    ensures arrivals { OnOk result (arrivals.new.items ≡ arrivals.old.items ++ instr_arrivals target.now blocks.now to i.now) }
    ensures next { IfOk result (λ n. n ≡ to + phi_number target.now i.now) }
{
    if !is_phi(target, i) {
        return Ok(to);
    }
    let operands = i.operands.as_slice();
    push_inputs(arrivals, blocks, to, &operands[operands.len().min(1)..])?;
    Ok(to + 1)
}

/// Puts the arrivals of the phis among these instructions, whose incoming registers are numbered from
/// `first` on, behind the others, and answers the number of the next incoming register.
#[tactic(auto, using(crate::proofs::Arriving::arriving))]
fn push_instrs(
    arrivals: &mut Vec<Arrival>,
    target: &Target,
    blocks: &[Block],
    first: u32,
    instrs: &[Boxed<Instr>],
) -> Result<u32, AllocError>
    requires { first + length instrs.now < 2 ^ 32 }
    ensures arrivals { OnOk result (arrivals.new.items ≡ arrivals.old.items ++ arrivals_in target.now blocks.now first instrs.now) }
    ensures next { IfOk result (λ n. n ≡ first + phi_count target.now instrs.now) }
{
    let mut to = first;
    'each: for i in instrs {
        let i = i.get();
        to = push_instr(arrivals, target, blocks, to, i)?;
    }
    Ok(to)
}

/// The arrivals of all phis in layout order, whose incoming registers are numbered from `first` on.
#[tactic(auto, using(crate::proofs::Arriving::arriving))]
pub fn all_arrivals(
    alloc: Global,
    target: &Target,
    blocks: &[Block],
    first: u32,
) -> Result<Vec<Arrival>, AllocError>
    requires { first + instr_count blocks.now < 2 ^ 32 }
    ensures { IfOk result (λ made. made.items ≡ arrivals_in target.now blocks.now first (all_instrs blocks.now)) }
{
    let mut arrivals = Vec::new(alloc);
    let mut to = first;
    'layout: for b in blocks {
        to = push_instrs(&mut arrivals, target, blocks, to, b.instrs.as_slice())?;
    }
    Ok(arrivals)
}
