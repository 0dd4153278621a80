//! A function as a list of steps, decoded once before it runs.

ghost use Rattle.std.specs.Prelude.{◌≡◌, ◌++◌, ◌∷◌, [], true, false, ◌+◌, ◌<◌, ℕ, List, OnOk, IfOk, map, drop, option_map, length, unwrap_or, nat_eq};
ghost use Rattle.std.specs.HashMap.{get};
ghost use Rattle.meaning.specs.Code.{found, BlockStart};
ghost use Rattle.mir_func.specs.declared.func.Block.{Block};
ghost use Rattle.target_base.specs.Roles.{is_silent};
ghost use Rattle.mir_meaning.specs.Codes.{way, item_of, effect_item, block_end, code_of, target_of};
ghost use Rattle.mir_interp.specs.Decoded.{edge_of, item_of_step, code_of_steps, bare, noted};

use instr_effects::items::counted::{reads_of, rest_of, values};
use instr_effects::items::results::counted_writes;
use instr_effects::items::silent::push_silent_writes;
use instr_effects::items::ways::{fallen_into, push_phis, target_of};
use meaning::{Reads, Rest, Writes};
use mir_func::opcodes::effect_of;
use mir_func::{Block, Func, Instr};
use std::alloc::{AllocError, Global};
use std::collections::HashMap;
use target_base::roles::is_silent;
use target_base::{Boxed, Effect, List, Target};

/// A way into a block, with what its phis write at once.
#[derive(Drop)]
pub struct PhiEdge {
    /// The number of the block.
    pub block: u32,
    /// What the phis write.
    pub phis: Writes,
}

/// A step of a function in layout.
#[derive(Drop)]
pub enum DecodedStep {
    /// The start of a block, by its number.
    Start(u32),
    /// The end of a block: what the phis write of the block that it falls into, if it does.
    End(Option<Writes>),
    /// A silent instruction: what it writes.
    Silent(Writes),
    /// A counted instruction: all that names no register, what it reads, what it writes, and the
    /// way to its branch target.
    Counted(Rest, Reads, Writes, Option<PhiEdge>),
}

/// The steps of a function in layout.
pub type DecodedSteps = List<DecodedStep>;

/// The way from block n into block m.
fn way_into(alloc: Global, t: &Target, f: &Func, n: u32, m: u32) -> Result<PhiEdge, AllocError>
    ensures { IfOk result (λ made. edge_of made ≡ way t.now f.now n m) }
{
    let mut phis = List::new(alloc);
    push_phis(&mut phis, alloc, t, f, n, m)?;
    Ok(PhiEdge { block: m, phis })
}

/// A silent instruction.
fn silent_step(
    alloc: Global,
    t: &Target,
    f: &Func,
    i: &Instr,
    e: Effect,
) -> Result<DecodedStep, AllocError>
    requires { is_silent e ≡ true }
    ensures { IfOk result (λ made. (b : Block) → item_of_step made ≡ bare (effect_item t.now f.now b i.now e)) }
{
    let mut writes = List::new(alloc);
    push_silent_writes(&mut writes, alloc, t, f, e, i)?;
    Ok(DecodedStep::Silent(writes))
}

/// The way to the branch target of an instruction of block n.
fn target_way(
    alloc: Global,
    t: &Target,
    f: &Func,
    n: u32,
    i: &Instr,
) -> Result<Option<PhiEdge>, AllocError>
    ensures { IfOk result (λ made. option_map edge_of made ≡ option_map (way t.now f.now n) (target_of i.now.operands)) }
{
    match target_of(i.operands.as_slice()) {
        None => Ok(None),
        Some(m) => Ok(Some(way_into(alloc, t, f, n, m)?)),
    }
}

/// A counted instruction of block n.
fn counted_step(
    alloc: Global,
    t: &Target,
    f: &Func,
    n: u32,
    i: &Instr,
    e: Effect,
) -> Result<DecodedStep, AllocError>
    requires { is_silent e ≡ false }
    ensures { IfOk result (λ made. (b : Block) → b.number ≡ n → item_of_step made ≡ bare (effect_item t.now f.now b i.now e)) }
{
    let read = values(alloc, t, f, e, i)?;
    let rest = rest_of(alloc, t, f, e, i, read.as_slice())?;
    let reads = reads_of(alloc, read.as_slice())?;
    let writes = counted_writes(alloc, t, f, e, i)?;
    let target = target_way(alloc, t, f, n, i)?;
    Ok(DecodedStep::Counted(rest, reads, writes, target))
}

/// An instruction of block n; an excluded opcode does nothing.
fn step_of(
    alloc: Global,
    t: &Target,
    f: &Func,
    n: u32,
    i: &Instr,
) -> Result<DecodedStep, AllocError>
    ensures { IfOk result (λ made. (b : Block) → b.number ≡ n → item_of_step made ≡ bare (item_of t.now f.now b i.now)) }
{
    match effect_of(t, i) {
        None => {
            let nothing = List::new(alloc);
            Ok(DecodedStep::Silent(nothing))
        }
        Some(e) => {
            if is_silent(e) {
                let step = silent_step(alloc, t, f, i, e)?;
                Ok(step)
            } else {
                let step = counted_step(alloc, t, f, n, i, e)?;
                Ok(step)
            }
        }
    }
}

/// The end of a block that other blocks come after.
fn block_end(
    alloc: Global,
    t: &Target,
    f: &Func,
    b: &Block,
    after: &[Block],
) -> Result<DecodedStep, AllocError>
    ensures { IfOk result (λ made. item_of_step made ≡ bare (block_end t.now f.now b.now after.now)) }
{
    match fallen_into(t, b, after) {
        None => Ok(DecodedStep::End(None)),
        Some(next) => {
            let way = way_into(alloc, t, f, b.number, next)?;
            Ok(DecodedStep::End(Some(way.phis)))
        }
    }
}

/// Appends the instructions of block n.
fn push_instrs(
    out: &mut DecodedSteps,
    alloc: Global,
    t: &Target,
    f: &Func,
    n: u32,
    instrs: &[Boxed<Instr>],
) -> Result<(), AllocError>
    ensures { OnOk result ((b : Block) → b.number ≡ n → code_of_steps out.new ≡ code_of_steps out.old ++ map bare (map (item_of t.now f.now b) instrs.now)) }
{
    for i in instrs {
        let i = i.get();
        let step = step_of(alloc, t, f, n, i)?;
        out.push(step)?;
    }
    Ok(())
}

/// Appends a block that other blocks come after.
fn push_block(
    out: &mut DecodedSteps,
    alloc: Global,
    t: &Target,
    f: &Func,
    b: &Block,
    after: &[Block],
) -> Result<(), AllocError>
    ensures { OnOk result (code_of_steps out.new ≡ code_of_steps out.old ++ map bare (BlockStart b.now.number ∷ (map (item_of t.now f.now b.now) b.now.instrs ++ (block_end t.now f.now b.now after.now ∷ [])))) }
{
    out.push(DecodedStep::Start(b.number))?;
    push_instrs(out, alloc, t, f, b.number, b.instrs.as_slice())?;
    let end = block_end(alloc, t, f, b, after)?;
    out.push(end)?;
    Ok(())
}

/// The steps of a function.
pub fn steps_of(alloc: Global, t: &Target, f: &Func) -> Result<DecodedSteps, AllocError>
    ensures { IfOk result (λ made. code_of_steps made ≡ map bare (code_of t.now f.now)) }
{
    let mut out = List::new(alloc);
    let blocks = f.blocks.as_slice();
    for k in 0..blocks.len() {
        let after = &blocks[k + 1..];
        push_block(&mut out, alloc, t, f, &blocks[k], after)?;
    }
    Ok(out)
}

/// Notes the place behind a step where it is the start of a block.
fn note_place(
    places: &mut HashMap<u32, usize>,
    step: &DecodedStep,
    behind: usize,
) -> Result<(), AllocError>
    ensures { OnOk result ((n : ℕ) → get nat_eq places.new n ≡ noted (item_of_step step.now) behind n (get nat_eq places.old n)) }
{
    match step {
        DecodedStep::Start(n) => {
            places.insert(*n, behind)?;
            Ok(())
        }
        DecodedStep::End(_) => Ok(()),
        DecodedStep::Silent(_) => Ok(()),
        DecodedStep::Counted(_, _, _, _) => Ok(()),
    }
}

/// The place behind the start of each block, by its number; of two blocks of one number the first
/// counts.
pub fn places_of(alloc: Global, steps: &[DecodedStep]) -> Result<HashMap<u32, usize>, AllocError>
    ensures { IfOk result (λ made. (n : ℕ) → found n (code_of_steps steps.now) ≡ drop (unwrap_or (get nat_eq made n) (length steps.now)) (code_of_steps steps.now)) }
{
    let mut places = HashMap::new(alloc);
    for k in 0..steps.len() {
        let at = steps.len() - 1 - k;
        note_place(&mut places, &steps[at], at + 1)?;
    }
    Ok(places)
}
