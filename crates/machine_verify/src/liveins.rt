//! V13 and V14: whether a block's live-ins are those of its live units, and whether a virtual
//! register is live at the start, or named in an allocated function.

ghost use Rattle.std.specs.Prelude.{◌≡◌, ◌||◌, ◌++◌, ◌∷◌, [], true, not, map, filter, find, flat_map, length, nat_eq, IfOk, OnOk};
ghost use Rattle.std.specs.List.{list_all, list_any};
ghost use Rattle.target_base.specs.Registers.{units_of, is_reserved_unit};
ghost use Rattle.target_base.specs.Storage.{is_unreserved, same_numbers};
ghost use Rattle.mir_meaning.specs.Registers.{has_number, numbers};
ghost use Rattle.mir_func.specs.Binding.{registers, is_virtual};
ghost use Rattle.mir_meaning.specs.Valid as valid;
ghost use Rattle.machine_verify.specs.Liveins.{is_set, wanted, wanted_at, chosen_of, standing, register_numbers};

use mir_func::operands::is_virtual;
use mir_func::{Block, Func, Instr, Operand};
use mir_meaning::Form;
use std::alloc::{AllocError, Global};
use target_base::{Boxed, Reg, Target, Unit};

/// Whether the unit of that number is set among these flags.
pub fn is_set(flags: &[bool], u: usize) -> bool
    ensures { result ≡ is_set flags.now u }
{
    match flags.get(u) {
        None => false,
        Some(flag) => *flag,
    }
}

/// Puts the numbers of units at the end.
fn push_units(out: &mut Vec<u32>, us: &[Unit]) -> Result<(), AllocError>
    ensures { OnOk result (out.new.items ≡ out.old.items ++ map (λ u. u.0) us.now) }
{
    for u in us {
        out.push(u.0 as u32)?;
    }
    Ok(())
}

/// The units of a block's live-ins.
#[tactic(auto, using(crate::proofs::Lived::numbers_joined))]
fn listed_units(alloc: Global, target: &Target, liveins: &[Reg]) -> Result<Vec<u32>, AllocError>
    ensures { IfOk result (λ made. made.items ≡ map (λ u. u.0) (flat_map (units_of target.now) liveins.now)) }
{
    let mut made = Vec::new(alloc);
    for r in liveins {
        push_units(&mut made, target.units_at(*r))?;
    }
    Ok(made)
}

/// Whether the unit of that number is listed.
fn is_listed(listed: &[u32], u: usize) -> bool
    ensures { result ≡ has_number listed.now u }
{
    listed.iter().any(|m| u == *m as usize)
}

/// Whether each live unit is listed.
#[tactic(auto, using(crate::proofs::Lived::numbers_step, crate::proofs::Lived::numbers_end))]
fn are_listed(count: usize, live: &[bool], listed: &[u32]) -> bool
    ensures { result ≡ list_all (λ u. not (is_set live.now u) || has_number listed.now u) (numbers 0 count) }
{
    'units: for u in 0..count {
        if is_set(live, u) && !is_listed(listed, u) {
            return false;
        }
    }
    true
}

fn lists_reserved(target: &Target, listed: &[u32]) -> bool
    ensures { result ≡ list_any (is_reserved_unit target.now) listed.now }
{
    listed.iter().any(|u| target.is_reserved_unit(*u))
}

/// Whether the block may have live-ins: in version 1 only the first may.
fn may_list(target: &Target, k: usize, b: &Block) -> bool
    ensures { result ≡ valid.may_list target.now k b.now }
{
    k == 0 || target.version == 2 || b.liveins.len() == 0
}

/// Whether live units are listed, and no reserved one is.
fn listing_fits(
    alloc: Global,
    target: &Target,
    k: usize,
    b: &Block,
    live: &[bool],
) -> Result<bool, AllocError>
    ensures { IfOk result (λ is_right. is_right ≡ valid.listing_fits target.now k b.now (is_set live.now)) }
{
    let listed = listed_units(alloc, target, b.liveins.as_slice())?;
    if !are_listed(target.units.len(), live, listed.as_slice()) {
        return Ok(false);
    }
    if lists_reserved(target, listed.as_slice()) {
        return Ok(false);
    }
    Ok(may_list(target, k, b))
}

/// Puts a register at the end, unless one of its units is reserved.
fn push_unreserved(out: &mut Vec<Reg>, target: &Target, r: Reg) -> Result<(), AllocError>
    ensures { OnOk result (out.new.items ≡ out.old.items ++ filter (is_unreserved target.now.reserved target.now.regs) (r ∷ [])) }
{
    if target.is_unreserved(r) {
        out.push(r)?;
    }
    Ok(())
}

/// The target's unreserved registers in order.
#[tactic(auto, using(crate::proofs::Lived::few_regs))]
pub fn unreserved_registers(alloc: Global, target: &Target) -> Result<Vec<Reg>, AllocError>
    ensures { IfOk result (λ made. made.items ≡ valid.unreserved_registers target.now) }
{
    let mut made = Vec::new(alloc);
    'regs: for k in 0..target.regs.len() {
        push_unreserved(&mut made, target, Reg(k as u16))?;
    }
    Ok(made)
}

/// Whether a register holds the unit of that number.
fn holds_unit(target: &Target, u: usize, r: Reg) -> bool
    ensures { result ≡ valid.holds_unit target.now u r }
{
    target.units_at(r).iter().any(|v| v.0 as usize == u)
}

/// Whether all of a register's units are live.
pub fn is_whole(target: &Target, live: &[bool], r: Reg) -> bool
    ensures { result ≡ list_all (λ w. is_set live.now w.0) (units_of target.now r) }
{
    target
        .units_at(r)
        .iter()
        .all(|w| is_set(live, w.0 as usize))
}

/// The first of these registers that holds the unit and whose units are all live.
fn first_whole(target: &Target, live: &[bool], u: usize, rs: &[Reg]) -> Option<Reg>
    ensures { result ≡ find (λ r. list_all (λ w. is_set live.now w.0) (units_of target.now r)) (filter (valid.holds_unit target.now u) rs.now) }
{
    for r in rs {
        if holds_unit(target, u, *r) && is_whole(target, live, *r) {
            return Some(*r);
        }
    }
    None
}

/// The first of these registers that holds the unit.
fn first_holding(target: &Target, u: usize, rs: &[Reg]) -> Option<Reg>
    ensures { result ≡ find (λ r. true) (filter (valid.holds_unit target.now u) rs.now) }
{
    for r in rs {
        if holds_unit(target, u, *r) {
            return Some(*r);
        }
    }
    None
}

/// The register that stands for a live unit, among the unreserved ones.
fn cover_register(target: &Target, live: &[bool], u: usize, rs: &[Reg]) -> Option<Reg>
    ensures { result ≡ chosen_of target.now rs.now (is_set live.now) u }
{
    match first_whole(target, live, u, rs) {
        Some(r) => Some(r),
        None => first_holding(target, u, rs),
    }
}

/// Puts the register that stands for a unit at the end, where the unit is live.
fn push_wanted(
    out: &mut Vec<Reg>,
    target: &Target,
    live: &[bool],
    rs: &[Reg],
    u: usize,
) -> Result<(), AllocError>
    ensures { OnOk result (out.new.items ≡ out.old.items ++ wanted_at target.now rs.now (is_set live.now) u) }
{
    if !is_set(live, u) {
        return Ok(());
    }
    if let Some(r) = cover_register(target, live, u, rs) {
        out.push(r)?;
    }
    Ok(())
}

/// The registers that stand for live units, unit by unit.
fn cover_registers(
    alloc: Global,
    target: &Target,
    live: &[bool],
    rs: &[Reg],
) -> Result<Vec<Reg>, AllocError>
    ensures { IfOk result (λ made. made.items ≡ wanted target.now rs.now (is_set live.now) (numbers 0 (length target.now.units))) }
{
    let mut made = Vec::new(alloc);
    'units: for u in 0..target.units.len() {
        push_wanted(&mut made, target, live, rs, u)?;
    }
    Ok(made)
}

fn stands_in(rs: &[Reg], r: Reg) -> bool
    ensures { result ≡ list_any (λ q. nat_eq r.0 q.0) rs.now }
{
    rs.iter().any(|q| r.0 == q.0)
}

/// Whether the live-ins are those of these registers that stand for live units, in order.
fn lists_cover(liveins: &[Reg], rs: &[Reg], wanted: &[Reg]) -> bool
    ensures { result ≡ same_numbers (register_numbers liveins.now) (register_numbers (standing wanted.now rs.now)) }
{
    let mut rest = liveins;
    for r in rs {
        if stands_in(wanted, *r) {
            match rest {
                [] => return false,
                [q, more @ ..] => {
                    if q.0 != r.0 {
                        return false;
                    }
                    rest = more;
                }
            }
        }
    }
    rest.len() == 0
}

/// Whether the live-ins of a block are the cover of its live units.
#[tactic(auto, using(crate::proofs::Lived::cover_is))]
fn cover_fits(alloc: Global, target: &Target, b: &Block, live: &[bool]) -> Result<bool, AllocError>
    ensures { IfOk result (λ is_right. is_right ≡ same_numbers (map (λ r. r.0) b.now.liveins) (map (λ r. r.0) (valid.cover target.now (is_set live.now)))) }
{
    let rs = unreserved_registers(alloc, target)?;
    let stands = cover_registers(alloc, target, live, rs.as_slice())?;
    Ok(lists_cover(b.liveins.as_slice(), rs.as_slice(), stands.as_slice()))
}

/// The test of V13 of block `k`, whose live units are told.
pub(crate) fn liveins_fit(
    alloc: Global,
    target: &Target,
    form: Form,
    k: usize,
    b: &Block,
    live: &[bool],
) -> Result<bool, AllocError>
    ensures { IfOk result (λ is_right. is_right ≡ valid.liveins_fit target.now form k b.now (is_set live.now)) }
{
    match form {
        Form::Source => listing_fits(alloc, target, k, b, live),
        Form::Allocated => {
            if k == 0 {
                listing_fits(alloc, target, k, b, live)
            } else {
                cover_fits(alloc, target, b, live)
            }
        }
    }
}

/// Whether some operand is a virtual register.
fn operands_name_virtual(operands: &[Operand]) -> bool
    ensures { result ≡ list_any (λ o. is_virtual o.loc) (registers operands.now) }
{
    for o in operands {
        if let Operand::Reg(r) = o {
            if is_virtual(r.loc) {
                return true;
            }
        }
    }
    false
}

fn instrs_name_virtual(instrs: &[Boxed<Instr>]) -> bool
    ensures { result ≡ list_any (λ i. list_any (λ o. is_virtual o.loc) (registers i.operands)) instrs.now }
{
    for i in instrs {
        let i = i.get();
        if operands_name_virtual(i.operands.as_slice()) {
            return true;
        }
    }
    false
}

/// Whether some instruction of the function names a virtual register.
pub fn names_virtual(f: &Func) -> bool
    ensures { result ≡ list_any valid.names_virtual f.now.blocks }
{
    for b in f.blocks.as_slice() {
        if instrs_name_virtual(b.instrs.as_slice()) {
            return true;
        }
    }
    false
}
