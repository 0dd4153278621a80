//! The pass over a function.

ghost use Rattle.std.specs.Prelude.{◌≡◌, ◌<◌, ◌≤◌, ◌+◌, ◌^◌, ◌++◌, ◌*◌, OnOk, IfOk, length, flat_map};
ghost use Rattle.phi_elim.specs.Bulk.{bulk};
ghost use Rattle.phi_elim.specs.Numbered.{instr_count};
ghost use Rattle.phi_elim.specs.Phis.{lowered_blocks, incoming_class, result_class, located_class, all_instrs, phis_lowered};

use crate::amount::bulk_of;
use crate::arrivals::{Arrival, all_arrivals};
use crate::blocks::lower_block;
use crate::ids::number_blocks;
use mir_func::opcodes::is_phi;
use mir_func::{Block, Blocks, Classes, Func, Instr, Loc, NoPhi, Operand, Valid};
use std::alloc::{AllocError, Global};
use target_base::{Boxed, ClassId, Target};

/// The greatest bulk of a function of which something is promised.
const MOST: u64 = 1 << 24;

/// The function without phis (LLVM's `PHIElimination`). Each phi gets an incoming register of its
/// result's class, the phis being numbered in layout order. In the block of each of its operands a
/// copy of the operand into it stands before the first terminator, in the order of the phis; for an
/// `undef` operand an IMPLICIT_DEF. A copy from it takes the phi's place, with its flags and tail. Ids
/// are given anew.
///
/// The answer has at most 8 times the bulk. A function whose bulk is more than 2^24 is answered as it is.
#[tactic(auto, using(crate::proofs::Sizes::sizes))]
pub fn lower_phis(alloc: Global, target: &Target, f: Valid) -> Result<NoPhi, AllocError>
    ensures value { bulk f.func ≤ 2 ^ 24 → IfOk result (λ g. g.func ≡ phis_lowered target.now f.func) }
    ensures bulk { IfOk result (λ g. bulk g.func ≤ 8 * bulk f.func) }
{
    let f = f.func;
    if bulk_of(&f) > MOST {
        return Ok(NoPhi { func: f });
    }
    Ok(NoPhi {
        func: without_phis(alloc, target, f)?,
    })
}

/// The function without phis, where its bulk is at most 2^24.
fn without_phis(alloc: Global, target: &Target, f: Func) -> Result<Func, AllocError>
    requires { bulk f ≤ 2 ^ 24 }
    ensures { IfOk result (λ g. g ≡ phis_lowered target.now f) }
{
    let Func {
        name,
        head,
        mut classes,
        frames,
        mut blocks,
        ..
    } = f;
    let first = classes.len() as u32;
    let arrivals = all_arrivals(alloc, target, blocks.as_slice(), first)?;
    let incoming = incoming_classes(alloc, target, classes.as_slice(), blocks.as_slice())?;
    classes.extend(incoming.as_slice())?;
    lower_blocks(alloc, target, arrivals.as_slice(), first, &mut blocks)?;
    let next_id = number_blocks(&mut blocks);
    Ok(Func {
        name,
        head,
        classes,
        frames,
        blocks,
        next_id,
    })
}

/// Makes all blocks ones without phis, whose incoming registers are numbered from `first` on.
#[tactic(auto, using(crate::proofs::Placing::placing))]
fn lower_blocks(
    alloc: Global,
    target: &Target,
    arrivals: &[Arrival],
    first: u32,
    blocks: &mut Blocks,
) -> Result<(), AllocError>
    requires { first + instr_count blocks.old < 2 ^ 32 }
    ensures { OnOk result (blocks.new ≡ lowered_blocks target.now arrivals.now 0 first blocks.old) }
{
    let mut c = first;
    'layout: for k in 0..blocks.len() {
        c = lower_block(alloc, target, arrivals, k, c, blocks.get_mut(k))?;
    }
    Ok(())
}

/// The classes of the incoming registers of all phis, in layout order.
#[tactic(auto, using(crate::proofs::Arriving::arriving))]
fn incoming_classes(
    alloc: Global,
    target: &Target,
    classes: &[Option<ClassId>],
    blocks: &[Block],
) -> Result<Vec<Option<ClassId>>, AllocError>
    ensures { IfOk result (λ made. made.items ≡ flat_map (incoming_class target.now classes.now) (all_instrs blocks.now)) }
{
    let mut made = Vec::new(alloc);
    'layout: for b in blocks {
        push_classes(&mut made, target, classes, b.instrs.as_slice())?;
    }
    Ok(made)
}

/// Puts the classes of the incoming registers of the phis among these instructions behind the others.
#[tactic(auto, using(crate::proofs::Arriving::arriving))]
fn push_classes(
    made: &mut Vec<Option<ClassId>>,
    target: &Target,
    classes: &[Option<ClassId>],
    instrs: &[Boxed<Instr>],
) -> Result<(), AllocError>
    ensures { OnOk result (made.new.items ≡ made.old.items ++ flat_map (incoming_class target.now classes.now) instrs.now) }
{
    'each: for i in instrs {
        let i = i.get();
        push_class(made, target, classes, i)?;
    }
    Ok(())
}

/// Puts the class of the incoming register of an instruction, if it is a phi, behind the others.
fn push_class(
    made: &mut Vec<Option<ClassId>>,
    target: &Target,
    classes: &[Option<ClassId>],
    i: &Instr,
) -> Result<(), AllocError>
    ensures { OnOk result (made.new.items ≡ made.old.items ++ incoming_class target.now classes.now i.now) }
{
    if is_phi(target, i) {
        made.push(result_class(classes, i.operands.as_slice()))?;
    }
    Ok(())
}

/// The class of the register that the first operand names, where it is virtual.
fn result_class(classes: &[Option<ClassId>], operands: &[Operand]) -> Option<ClassId>
    ensures { result ≡ result_class classes.now operands.now }
{
    match operands.first() {
        Some(Operand::Reg(d)) => located_class(classes, d.loc),
        _ => None,
    }
}

/// The class of a virtual register.
pub fn located_class(classes: &[Option<ClassId>], loc: Loc) -> Option<ClassId>
    ensures { result ≡ located_class classes.now loc }
{
    match loc {
        Loc::Virtual(v) => match classes.get(v as usize) {
            None => None,
            Some(c) => *c,
        },
        Loc::Fixed(_) => None,
    }
}
