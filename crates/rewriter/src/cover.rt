//! The live-ins of blocks: the registers that stand for the units which are live at a block's start.

ghost use Rattle.std.specs.Prelude.{◌≡◌, ◌<◌, ℕ, true, filter, find, length, map, take, IfOk};
ghost use Rattle.mir_meaning.specs.Registers.{numbers};
ghost use Rattle.mir_meaning.specs.Valid as valid;
ghost use Rattle.machine_verify.specs.Liveins.{is_set};
ghost use Rattle.rewriter.specs.Holders.{AreHolders, first_whole, chosen_among, chosen_for, with_flag, is_chosen};
ghost use Rattle.rewriter.specs.LiveUnits.{live_into};
ghost use Rattle.rewriter.specs.Physical.{physical_liveins};

use crate::holders::all_holders;
use crate::live_units::{LiveUnits, no_flags, set_flag};
use machine_verify::{is_set, is_whole, unreserved_registers};
use mir_func::Block;
use std::alloc::{AllocError, Global};
use target_base::{Copied, List, Reg, Regs, Target};

/// The first of these registers whose units are all live.
fn first_whole(target: &Target, live: &[bool], rs: &[Reg]) -> Option<Reg>
    ensures { result ≡ first_whole target.now (is_set live.now) rs.now }
{
    for r in rs {
        if is_whole(target, live, *r) {
            return Some(*r);
        }
    }
    None
}

/// The first of these registers.
fn first_of(rs: &[Reg]) -> Option<Reg>
    ensures { result ≡ find (λ r. true) rs.now }
{
    match rs {
        [] => None,
        [r, ..] => Some(*r),
    }
}

/// Of the registers that hold a live unit the one that stands for it: the first that is live as a
/// whole, or else the first.
fn chosen_among(target: &Target, live: &[bool], rs: &[Reg]) -> Option<Reg>
    ensures { result ≡ chosen_among target.now (is_set live.now) rs.now }
{
    match first_whole(target, live, rs) {
        Some(r) => Some(r),
        None => first_of(rs),
    }
}

/// The register that stands for a unit, where it is live.
fn chosen_for(target: &Target, live: &[bool], holders: &[Regs], u: usize) -> Option<Reg>
    requires holders { AreHolders target.now (valid.unreserved_registers target.now) holders.now }
    requires unit { u < length target.now.units }
    ensures { result ≡ chosen_for target.now (is_set live.now) u }
{
    if !is_set(live, u) {
        return None;
    }
    chosen_among(target, live, holders[u].as_slice())
}

/// Sets the flag of a register, if there is one.
fn set_chosen(flags: &mut List<bool>, r: Option<Reg>)
    ensures { flags.new ≡ with_flag flags.old r }
{
    match r {
        None => {}
        Some(r) => set_flag(flags, r.0 as usize),
    }
}

/// Whether each register stands for a live unit.
fn cover_flags(
    alloc: Global,
    target: &Target,
    live: &[bool],
    holders: &[Regs],
) -> Result<List<bool>, AllocError>
    requires { AreHolders target.now (valid.unreserved_registers target.now) holders.now }
    ensures { IfOk result (λ made. (r : ℕ) → r < length target.now.regs → is_set made r ≡ is_chosen target.now (is_set live.now) (numbers 0 (length target.now.units)) r) }
{
    let mut flags = no_flags(alloc, target.regs.len())?;
    'units: for u in 0..target.units.len() {
        set_chosen(&mut flags, chosen_for(target, live, holders, u));
    }
    Ok(flags)
}

/// Those of the registers whose flags are set.
fn flagged_registers(alloc: Global, flags: &[bool], rs: &[Reg]) -> Result<Regs, AllocError>
    ensures { IfOk result (λ made. made ≡ filter (λ r. is_set flags.now r.0) rs.now) }
{
    let mut made = List::new(alloc);
    'regs: for r in rs {
        if is_set(flags, r.0 as usize) {
            made.push(*r)?;
        }
    }
    Ok(made)
}

/// The registers that stand for the units which are live, of all unreserved ones, in target order.
fn cover(
    alloc: Global,
    target: &Target,
    rs: &[Reg],
    holders: &[Regs],
    live: &[bool],
) -> Result<Regs, AllocError>
    requires registers { rs.now ≡ valid.unreserved_registers target.now }
    requires holders { AreHolders target.now rs.now holders.now }
    ensures { IfOk result (λ made. made ≡ valid.cover target.now (is_set live.now)) }
{
    let flags = cover_flags(alloc, target, live, holders)?;
    flagged_registers(alloc, flags.as_slice(), rs)
}

/// The live-ins of the first block, if there is one.
fn first_liveins(alloc: Global, blocks: &[Block]) -> Result<Vec<Regs>, AllocError>
    ensures { IfOk result (λ made. made.items ≡ map (λ b. b.liveins) (take 1 blocks.now)) }
{
    let mut made = Vec::new(alloc);
    if let Some(b) = blocks.first() {
        made.push(b.liveins.copied(alloc)?)?;
    }
    Ok(made)
}

/// The live-ins of each block, in layout order: those of the first stay, and another one lists the
/// registers that stand for the units which are live at its start.
pub fn all_liveins(
    alloc: Global,
    target: &Target,
    live: &LiveUnits,
    blocks: &[Block],
) -> Result<Vec<Regs>, AllocError>
    ensures { IfOk result (λ made. made.items ≡ physical_liveins target.now (live_into live.now) blocks.now) }
{
    let rs = unreserved_registers(alloc, target)?;
    let holders = all_holders(alloc, target, rs.as_slice())?;
    let mut made = first_liveins(alloc, blocks)?;
    'layout: for k in 1..blocks.len() {
        let regs = cover(alloc, target, rs.as_slice(), holders.as_slice(), live.at(k))?;
        made.push(regs)?;
    }
    Ok(made)
}
