//! Ways into blocks, and what phis write on them.

ghost use Rattle.std.specs.Prelude.{◌≡◌, ◌++◌, OnOk, not};
ghost use Rattle.mir_func.specs.Binding.{does, ends_control};
ghost use Rattle.mir_meaning.specs.Codes.{phi_pair, phi_operands, phi_writes, phis_written, instrs_of, way, target_of, falls_through, fallen_into};

use crate::definitions::LATE;
use crate::items::lanes::use_sources;
use crate::items::writes::push_defined;
use meaning::Writes;
use mir_func::opcodes::{effect_of, ends_control};
use mir_func::operands::register_at;
use mir_func::{Block, Func, Instr, Operand, RegOp};
use mir_meaning::ends::is_open;
use std::alloc::{AllocError, Global};
use target_base::{Boxed, Effect, Target};

/// A phi.
#[derive(Clone, Copy)]
struct Phi<'a> {
    /// The register that it defines.
    result: RegOp,
    /// Pairs of a register and of the block from which the phi takes it.
    incoming: &'a [Operand],
}

/// Appends what a phi writes where its block is entered from block n.
fn push_phi_pair(
    out: &mut Writes,
    alloc: Global,
    t: &Target,
    f: &Func,
    n: u32,
    phi: &Phi,
) -> Result<(), AllocError>
    ensures { OnOk result (out.new ≡ out.old ++ phi_pair t.now f.now n phi.now.result phi.now.incoming.now) }
{
    let mut rest = phi.incoming;
    while let [Operand::Reg(s), Operand::Block(m), more @ ..] = rest {
        if *m == n {
            let sources = use_sources(alloc, t, f, s)?;
            return push_defined(out, alloc, t, f, (LATE, phi.result), sources.as_slice());
        }
        rest = more;
    }
    Ok(())
}

/// Appends a phi's writing, by its operands.
#[tactic(auto, using(crate::proofs::Pairs::phi_behind, crate::proofs::Pairs::phi_nothing, crate::proofs::Pairs::behind_long))]
fn push_phi_operands(
    out: &mut Writes,
    alloc: Global,
    t: &Target,
    f: &Func,
    n: u32,
    operands: &[Operand],
) -> Result<(), AllocError>
    ensures { OnOk result (out.new ≡ out.old ++ phi_operands t.now f.now n operands.now) }
{
    let Some(result) = register_at(operands, 0) else {
        return Ok(());
    };
    let phi = Phi {
        result,
        incoming: &operands[1..],
    };
    push_phi_pair(out, alloc, t, f, n, &phi)
}

/// Appends what an instruction of a block writes on the way in from block n: phis alone do.
fn push_phi_writes(
    out: &mut Writes,
    alloc: Global,
    t: &Target,
    f: &Func,
    n: u32,
    i: &Instr,
) -> Result<(), AllocError>
    ensures { OnOk result (out.new ≡ out.old ++ phi_writes t.now f.now n i.now) }
{
    match effect_of(t, i) {
        Some(Effect::Phi) => push_phi_operands(out, alloc, t, f, n, i.operands.as_slice()),
        _ => Ok(()),
    }
}

/// The instructions of the first block of that number.
pub fn instrs_of(blocks: &[Block], m: u32) -> &[Boxed<Instr>]
    ensures { result.now ≡ instrs_of blocks.now m }
{
    for b in blocks {
        if b.number == m {
            return b.instrs.as_slice();
        }
    }
    &[]
}

/// Appends what the phis among these instructions write. The last ones come first, since the later of
/// two that define one register counts.
fn push_all_phis(
    out: &mut Writes,
    alloc: Global,
    t: &Target,
    f: &Func,
    n: u32,
    instrs: &[Boxed<Instr>],
) -> Result<(), AllocError>
    ensures { OnOk result (out.new ≡ out.old ++ phis_written t.now f.now n instrs.now) }
{
    for k in (0..instrs.len()).rev() {
        push_phi_writes(out, alloc, t, f, n, instrs[k].get())?;
    }
    Ok(())
}

/// Appends all that the phis of block m write, at once, on the way in from block n.
pub fn push_phis(
    out: &mut Writes,
    alloc: Global,
    t: &Target,
    f: &Func,
    n: u32,
    m: u32,
) -> Result<(), AllocError>
    ensures { OnOk result (out.new ≡ out.old ++ (way t.now f.now n m).phis) }
{
    push_all_phis(out, alloc, t, f, n, instrs_of(f.blocks.as_slice(), m))
}

/// The block that the operands name first.
pub fn target_of(operands: &[Operand]) -> Option<u32>
    ensures { result ≡ target_of operands.now }
{
    for o in operands {
        if let Operand::Block(n) = o {
            return Some(*n);
        }
    }
    None
}

/// Whether control goes on behind an instruction.
fn goes_on(t: &Target, i: &Instr) -> bool
    ensures { result ≡ not (does ends_control t.now i.now) }
{
    match effect_of(t, i) {
        None => true,
        Some(e) => !ends_control(e),
    }
}

/// Whether control goes on behind the last of these instructions.
pub fn falls_through(t: &Target, instrs: &[Boxed<Instr>]) -> bool
    ensures { result ≡ falls_through t.now instrs.now }
{
    let mut rest = instrs;
    while let [i, more @ ..] = rest {
        if more.is_empty() {
            return goes_on(t, i.get());
        }
        rest = more;
    }
    true
}

/// The number of the block that a block falls into, where it falls into one: the next in layout. The
/// blocks are those behind it.
pub fn fallen_into(t: &Target, b: &Block, after: &[Block]) -> Option<u32>
    ensures { result ≡ fallen_into t.now b.now after.now }
{
    if !falls_through(t, b.instrs.as_slice()) || is_open(t, b) {
        return None;
    }
    match after {
        [] => None,
        [next, ..] => Some(next.number),
    }
}
