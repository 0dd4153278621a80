//! A block without phis, with the copies for the phis of the blocks that follow it.

ghost use Rattle.std.specs.Prelude.{◌≡◌, ◌<◌, ◌≤◌, ◌+◌, ◌-◌, ◌^◌, ◌++◌, ◌==◌, cond, OnOk, IfOk, length, take, drop, insert};
ghost use Rattle.phi_elim.specs.Phis.{from_incoming, in_place, all_in_place, phi_number, phi_count, arriving, arriving_at, before_terminators, lowered_block};

use crate::arrivals::Arrival;
use crate::moves::{COPY, move_of, whole_definition, whole_use};
use mir_func::opcodes::{first_terminator, is_phi};
use mir_func::{Block, Instr, Instrs, Op, Operand, Operands};
use std::alloc::{AllocError, Global};
use target_base::{Copied, Target};

/// The operands of the copy that takes the place of a phi with these operands.
fn from_incoming(alloc: Global, c: u32, operands: &[Operand]) -> Result<Operands, AllocError>
    ensures { IfOk result (λ made. made ≡ from_incoming c operands.now) }
{
    let mut made = Operands::new(alloc);
    if let Some(d) = operands.first() {
        made.push(d.copied(alloc)?)?;
    }
    made.push(Operand::Reg(whole_use(c)))?;
    Ok(made)
}

/// Makes an instruction, if it is a phi, the copy from its incoming register `c`, and answers the
/// number of the next incoming register.
fn put_in_place(alloc: Global, target: &Target, c: u32, i: &mut Instr) -> Result<u32, AllocError>
    requires { c + 1 < 2 ^ 32 }
    ensures instr { OnOk result (i.new ≡ in_place target.now c i.old) }
    ensures next { IfOk result (λ n. n ≡ c + phi_number target.now i.old) }
{
    if !is_phi(target, i) {
        return Ok(c);
    }
    i.operands = from_incoming(alloc, c, i.operands.as_slice())?;
    i.op = Op::Known(COPY);
    Ok(c + 1)
}

/// Makes the phis among these instructions copies, and answers the number of the next incoming register.
#[tactic(auto, using(crate::proofs::Placing::placing))]
fn put_all_in_place(
    alloc: Global,
    target: &Target,
    first: u32,
    instrs: &mut Instrs,
) -> Result<u32, AllocError>
    requires { first + length instrs.old < 2 ^ 32 }
    ensures instrs { OnOk result (instrs.new ≡ all_in_place target.now first instrs.old) }
    ensures next { IfOk result (λ n. n ≡ first + phi_count target.now instrs.old) }
{
    let mut c = first;
    'each: for k in 0..instrs.len() {
        c = put_in_place(alloc, target, c, instrs.get_mut(k))?;
    }
    Ok(c)
}

/// Puts an arrival's copy before the last `behind` instructions, if it is for the block at place `k`.
fn put_arrival(
    alloc: Global,
    a: Arrival,
    k: usize,
    behind: usize,
    instrs: &mut Instrs,
) -> Result<(), AllocError>
    requires { behind ≤ length instrs.old }
    ensures { OnOk result (instrs.new ≡ cond (a.block == k) (insert instrs.old (length instrs.old - behind) (arriving a)) instrs.old) }
{
    if a.block == k {
        let copy = move_of(alloc, whole_definition(a.to), a.from)?;
        instrs.insert(instrs.len() - behind, copy)?;
    }
    Ok(())
}

/// Puts the copies for the block at place `k` before the instruction at `at`.
#[tactic(auto, using(crate::proofs::Placing::placing))]
fn put_arriving(
    alloc: Global,
    arrivals: &[Arrival],
    k: usize,
    at: usize,
    instrs: &mut Instrs,
) -> Result<(), AllocError>
    requires { at ≤ length instrs.old }
    ensures { OnOk result (instrs.new ≡ take at instrs.old ++ (arriving_at arrivals.now k ++ drop at instrs.old)) }
{
    let behind = instrs.len() - at;
    'each: for a in arrivals {
        put_arrival(alloc, *a, k, behind, instrs)?;
    }
    Ok(())
}

/// Makes the block at place `k` one without phis, whose phis have incoming registers from `first` on,
/// and answers the number of the next one.
pub fn lower_block(
    alloc: Global,
    target: &Target,
    arrivals: &[Arrival],
    k: usize,
    first: u32,
    block: &mut Block,
) -> Result<u32, AllocError>
    requires { first + length block.old.instrs < 2 ^ 32 }
    ensures block { OnOk result (block.new ≡ lowered_block target.now arrivals.now k first block.old) }
    ensures next { IfOk result (λ n. n ≡ first + phi_count target.now block.old.instrs) }
{
    let next = put_all_in_place(alloc, target, first, &mut block.instrs)?;
    let at = first_terminator(target, block.instrs.as_slice());
    put_arriving(alloc, arrivals, k, at, &mut block.instrs)?;
    Ok(next)
}
