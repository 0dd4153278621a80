//! A function in the registers that its ranges are assigned.

ghost use Rattle.std.specs.Prelude.{◌≡◌, ◌≤◌, ◌++◌, OnOk, IfOk, map};
ghost use Rattle.phi_elim.specs.Numbered.{blocks_numbered, instr_count};
ghost use Rattle.rewriter.specs.Physical.{physical_block, with_liveins, slot_frame, HasLiveins, IsPhysical, IsPhysicalBut, physical_liveins, with_covers, without_ranges, physical_form};
ghost use Rattle.rewriter.specs.LiveUnits.{live_into};

use crate::cover::all_liveins;
use crate::head::with_slots;
use crate::live_units::LiveUnits;
use crate::operands::physical_instrs;
use mir_func::{Block, Blocks, Frames, Func};
use phi_elim::ids::number_blocks;
use std::alloc::{AllocError, Global};
use target_base::{BoxedList, ClassId, Copied, List, Reg, Regs, Target};

/// The frame objects with the slots, which are spill slots.
#[tactic(auto, using(crate::proofs::Physicals::physicals))]
fn with_frames(frames: Frames, slots: &[(u32, ClassId)]) -> Result<Frames, AllocError>
    ensures { IfOk result (λ made. made ≡ frames ++ map slot_frame slots.now) }
{
    let mut made = frames;
    'each: for k in 0..slots.len() {
        made.push((slots[k].0, true))?;
    }
    Ok(made)
}

/// Puts a block in physical form.
fn put_block(
    alloc: Global,
    target: &Target,
    registers: &[Option<Reg>],
    block: &mut Block,
) -> Result<(), AllocError>
    ensures { OnOk result (block.new ≡ physical_block target.now registers.now block.old) }
{
    let instrs = physical_instrs(alloc, target, registers, block.instrs.as_slice())?;
    block.instrs = BoxedList::from_vec(instrs);
    Ok(())
}

/// Puts all blocks in physical form.
fn put_blocks(
    alloc: Global,
    target: &Target,
    registers: &[Option<Reg>],
    blocks: &mut Blocks,
) -> Result<(), AllocError>
    ensures { OnOk result (blocks.new ≡ map (physical_block target.now registers.now) blocks.old) }
{
    'layout: for k in 0..blocks.len() {
        put_block(alloc, target, registers, blocks.get_mut(k))?;
    }
    Ok(())
}

/// Gives a block its live-ins.
fn put_liveins(block: &mut Block, liveins: Regs)
    ensures { block.new ≡ record block.old { liveins = liveins } }
{
    block.liveins = liveins;
}

/// Gives each block its live-ins.
fn put_all_liveins(alloc: Global, liveins: &[Regs], blocks: &mut Blocks) -> Result<(), AllocError>
    ensures { OnOk result (blocks.new ≡ with_liveins liveins.now blocks.old) }
{
    'layout: for k in 0..blocks.len().min(liveins.len()) {
        let regs = liveins[k].copied(alloc)?;
        put_liveins(blocks.get_mut(k), regs);
    }
    Ok(())
}

/// The live-ins of each block of a function, in layout order.
fn liveins_of(
    alloc: Global,
    target: &Target,
    live: &LiveUnits,
    f: &Func,
) -> Result<Vec<Regs>, AllocError>
    ensures { IfOk result (λ made. made.items ≡ physical_liveins target.now (live_into live.now) f.now.blocks) }
{
    all_liveins(alloc, target, live, f.blocks.as_slice())
}

/// The function with its live-ins: each block behind the first lists the registers that stand for the
/// units which are live at its start.
fn with_covers(
    alloc: Global,
    target: &Target,
    live: &LiveUnits,
    f: Func,
) -> Result<Func, AllocError>
    ensures liveins { IfOk result (HasLiveins f) }
    ensures exact { IfOk result (λ made. made ≡ with_covers target.now (live_into live.now) f) }
{
    let liveins = liveins_of(alloc, target, live, &f)?;
    let Func {
        name,
        head,
        classes,
        frames,
        mut blocks,
        next_id,
    } = f;
    put_all_liveins(alloc, liveins.as_slice(), &mut blocks)?;
    Ok(Func {
        name,
        head,
        classes,
        frames,
        blocks,
        next_id,
    })
}

/// The function with each range in the register that it is assigned, and with its slots: operands
/// become physical and `renamable`, a COPY of a register to itself goes, the slots are declared, each
/// block behind the first lists the registers that stand for the units which are live at its start,
/// and ids are given anew. Which units are live there is told; `LiveUnits::of` finds it for these
/// registers.
pub fn rewrite_assigned(
    alloc: Global,
    target: &Target,
    f: Func,
    live: &LiveUnits,
    registers: &[Option<Reg>],
    slots: &[(u32, ClassId)],
) -> Result<Func, AllocError>
    ensures physical { IfOk result (IsPhysical target.now registers.now slots.now f) }
    ensures exact { IfOk result (λ made. made ≡ physical_form target.now registers.now slots.now (live_into live.now) f) }
{
    let but = without_ranges(alloc, target, f, registers, slots)?;
    with_covers(alloc, target, live, but)
}

/// Gives new ids to instructions, of which there are at most so many, and answers their number.
fn number_at_most(blocks: &mut Blocks, most: u32) -> u32
    requires { instr_count blocks.old ≤ most }
    ensures blocks { blocks.new ≡ blocks_numbered 0 blocks.old }
    ensures count { result ≡ instr_count blocks.old }
{
    number_blocks(blocks)
}

/// The function in physical form, with its slots, but with the live-ins that it had.
fn without_ranges(
    alloc: Global,
    target: &Target,
    f: Func,
    registers: &[Option<Reg>],
    slots: &[(u32, ClassId)],
) -> Result<Func, AllocError>
    ensures physical { IfOk result (IsPhysicalBut target.now registers.now slots.now f) }
    ensures exact { IfOk result (λ made. made ≡ without_ranges target.now registers.now slots.now f) }
{
    let Func {
        name,
        head,
        frames,
        mut blocks,
        next_id: last,
        ..
    } = f;
    let head = with_slots(alloc, target, head, slots)?;
    let frames = with_frames(frames, slots)?;
    put_blocks(alloc, target, registers, &mut blocks)?;
    let next_id = number_at_most(&mut blocks, last);
    Ok(Func {
        name,
        head,
        classes: List::new(alloc),
        frames,
        blocks,
        next_id,
    })
}
