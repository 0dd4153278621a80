//! Units that are fewer than the variables that must hold one of them: then no choice keeps those
//! apart. So a search needn't try which variable lacks one.

ghost use Rattle.std.specs.Prelude.{◌≡◌, ◌≤◌, [], IfOk, cond, length, map, true};
ghost use Rattle.std.specs.List.{list_all};
ghost use Rattle.target_base.specs.Registers.{units_of};
ghost use Rattle.target_base.specs.Storage.{is_among};
ghost use Rattle.place_solve.specs.Choice.{need_of, holds_one, must_hold, holders, choices_apart};

use crate::variables::Variable;
use std::alloc::{AllocError, Global};
use target_base::registers::has_unit;
use target_base::{Reg, Regs, Target, Unit};

/// Whether a register holds a unit.
fn holds(target: &Target, r: Reg, u: Unit) -> bool
    ensures { result ≡ is_among (units_of target.now r) u }
{
    has_unit(target.units_at(r), u)
}

/// Whether a register holds one of these units.
#[tactic(auto, using(crate::proofs::Units::anys))]
fn holds_one(target: &Target, units: &[Unit], r: Reg) -> bool
    ensures { result ≡ holds_one target.now units.now r }
{
    'each: for u in units {
        if holds(target, r, *u) {
            return true;
        }
    }
    false
}

/// Whether each of these registers does.
#[tactic(auto, using(crate::proofs::Units::alls))]
fn each_holds_one(target: &Target, units: &[Unit], regs: &[Reg]) -> bool
    ensures { result ≡ list_all (holds_one target.now units.now) regs.now }
{
    'each: for r in regs {
        if !holds_one(target, units, *r) {
            return false;
        }
    }
    true
}

/// Whether a variable holds its register while uses are read, and can't but hold one of these units.
fn must_hold(target: &Target, units: &[Unit], v: Variable, regs: &[Reg]) -> bool
    ensures { result ≡ must_hold target.now units.now (need_of v) regs.now }
{
    v.kind.reaches_back() && each_holds_one(target, units, regs)
}

/// One for a variable that does, nothing for another one.
fn one_if(must: bool) -> usize
    ensures value { result ≡ cond must 1 0 }
    ensures bound { result ≤ 1 }
{
    if must { 1 } else { 0 }
}

/// How many of these variables do.
fn holders(target: &Target, units: &[Unit], behind: &[Variable], left: &[Regs]) -> usize
    requires { length left.now ≤ length behind.now }
    ensures { result ≡ holders target.now units.now (map need_of behind.now) left.now }
{
    let mut count = 0;
    'each: for k in 0..left.len() {
        let here = left[k].as_slice();
        count += one_if(must_hold(target, units, behind[k], here));
    }
    count
}

/// The first of these registers that holds none of the units.
fn first_without(target: &Target, units: &[Unit], regs: &[Reg]) -> Option<Reg> {
    'each: for r in regs {
        if !holds_one(target, units, *r) {
            return Some(*r);
        }
    }
    None
}

/// Of the lists with a register that holds none of the units, the place of the first of the shortest;
/// or how many lists there are.
fn shortest_without(target: &Target, units: &[Unit], left: &[Regs]) -> usize {
    let mut found = left.len();
    let mut fewest = usize::MAX;
    'each: for k in 0..left.len() {
        let here = left[k].as_slice();
        if here.len() < fewest && first_without(target, units, here).is_some() {
            found = k;
            fewest = here.len();
        }
    }
    found
}

/// How many of these registers hold the unit.
fn count_with(target: &Target, regs: &[Reg], u: Unit) -> usize {
    let mut count = 0usize;
    'each: for r in regs {
        if holds(target, *r, u) {
            count = count.saturating_add(1);
        }
    }
    count
}

/// The unit of a register that most of these registers hold.
fn most_held(target: &Target, regs: &[Reg], r: Reg) -> Option<Unit> {
    let mut most = 0usize;
    let mut found = None;
    'each: for u in target.units_at(r) {
        let count = count_with(target, regs, *u);
        if count > most {
            most = count;
            found = Some(*u);
        }
    }
    found
}

/// A unit to be taken to these: of the first register that holds none of them, in the shortest list
/// with one, the unit that most of this list hold.
fn next_unit(target: &Target, units: &[Unit], left: &[Regs]) -> Option<Unit> {
    let k = shortest_without(target, units, left);
    if k >= left.len() {
        return None;
    }
    let regs = left[k].as_slice();
    match first_without(target, units, regs) {
        None => None,
        Some(r) => most_held(target, regs, r),
    }
}

/// Whether units are found that are too few for the variables that must hold one of them. True only
/// where no choice keeps the variables apart.
pub(crate) fn are_short(
    alloc: Global,
    target: &Target,
    behind: &[Variable],
    left: &[Regs],
) -> Result<bool, AllocError>
    requires { length left.now ≡ length behind.now }
    ensures { IfOk result (λ short. short ≡ true → choices_apart target.now (map need_of behind.now) left.now ≡ []) }
{
    let mut units = Vec::new(alloc);
    'each: for _ in 1..left.len() {
        match next_unit(target, units.as_slice(), left) {
            None => return Ok(false),
            Some(u) => units.push(u)?,
        }
        if holders(target, units.as_slice(), behind, left) > units.len() {
            return Ok(true);
        }
    }
    Ok(false)
}
