//! The first choice of registers that serves.

ghost use Rattle.std.specs.Prelude.{◌≡◌, ◌≤◌, ◌&&◌, ◌++◌, ◌∷◌, [], IfOk, IfSome, OnOk, Some, filter, map, option_map, true, length};
ghost use Rattle.mir_meaning.specs.Places.{is_defining, reaches_back, solutions};
ghost use Rattle.live_lanes.specs.Looks.{InOrder};
ghost use Rattle.place_solve.specs.Positions.{at_entry, at_exit, entry_of, exit_of};
ghost use Rattle.place_solve.specs.Choice.{use_of, need_of, seats, fits, choices_apart, needs_left, IsNogood, AreNogoods, is_free, may_lie, options_in, first, first_apart};

use crate::cover::are_short;
use crate::domains::{clashes, has_none, prune};
use crate::nogoods::Nogoods;
use crate::position::{PlacePosition, is_at_entry, is_at_exit};
use crate::variables::{Variable, VariableKind};
use live_lanes::LiveFunc;
use std::alloc::{AllocError, Global};
use target_base::classes::regs_at;
use target_base::registers::has_unit;
use target_base::{List, Reg, Regs, Target, Unit};

/// Whether a variable of this kind may not lie in a unit before or at the place.
fn clashes_before(live: &LiveFunc, around: PlacePosition<'_>, kind: VariableKind, u: Unit) -> bool
    ensures { InOrder live.now.table → result ≡ (reaches_back (use_of kind) && at_entry live.now.target live.now.table around.entry u) }
{
    kind.reaches_back() && is_at_entry(live, around, u)
}

/// Whether a variable of this kind may not lie in a unit behind the place.
fn clashes_behind(live: &LiveFunc, around: PlacePosition<'_>, kind: VariableKind, u: Unit) -> bool
    ensures { InOrder live.now.table → result ≡ (is_defining (use_of kind) && at_exit live.now.target live.now.table around.entry u) }
{
    kind.is_defining() && is_at_exit(live, around, u)
}

/// Whether a variable of this kind may lie in a unit: it is unreserved, and not in use around the place
/// where the variable needs it.
fn is_free(live: &LiveFunc, around: PlacePosition<'_>, kind: VariableKind, u: Unit) -> bool
    ensures { InOrder live.now.table → result ≡ is_free live.now.target live.now.table around.entry (use_of kind) u }
{
    !has_unit(live.target().reserved.as_slice(), u)
        && !clashes_before(live, around, kind, u)
        && !clashes_behind(live, around, kind, u)
}

/// Whether a variable of this kind may lie in a register: in each of its units.
#[tactic(auto, using(crate::proofs::Units::alls))]
fn avoids(live: &LiveFunc, around: PlacePosition<'_>, kind: VariableKind, r: Reg) -> bool
    ensures { InOrder live.now.table → result ≡ may_lie live.now.target live.now.table around.entry (use_of kind) r }
{
    'each: for u in live.target().units_at(r) {
        if !is_free(live, around, kind, *u) {
            return false;
        }
    }
    true
}

/// Puts a register behind the options of a variable of this kind, if it may lie there.
fn push_option(
    options: &mut Regs,
    live: &LiveFunc,
    around: PlacePosition<'_>,
    kind: VariableKind,
    r: Reg,
) -> Result<(), AllocError>
    ensures { OnOk result (InOrder live.now.table → options.new ≡ options.old ++ filter (may_lie live.now.target live.now.table around.entry (use_of kind)) (r ∷ [])) }
{
    if avoids(live, around, kind, r) {
        options.push(r)?;
    }
    Ok(())
}

/// The registers of a variable's class that it may lie in, in allocation order.
#[tactic(auto, using(crate::proofs::Units::filters))]
fn options_of(
    alloc: Global,
    live: &LiveFunc,
    around: PlacePosition<'_>,
    v: Variable,
) -> Result<Regs, AllocError>
    ensures { IfOk result (λ made. InOrder live.now.table → made ≡ options_in live.now.target live.now.table around.entry v) }
{
    let mut options = List::new(alloc);
    'each: for r in regs_at(live.target().classes.as_slice(), v.class) {
        push_option(&mut options, live, around, v.kind, *r)?;
    }
    Ok(options)
}

/// Whether a variable of this kind may lie in a register beside those that are chosen for the variables
/// before it.
fn fits(target: &Target, variables: &[Variable], chosen: &[Reg], kind: VariableKind, r: Reg) -> bool
    requires { length chosen.now ≤ length variables.now }
    ensures { result ≡ fits target.now (seats variables.now chosen.now) (use_of kind) r }
{
    'each: for k in 0..chosen.len() {
        if clashes(target, variables[k], chosen[k], kind, r) {
            return false;
        }
    }
    true
}

/// Whether lists for the last variables are seen to leave no choice. True only where there is none.
fn is_nogood(
    alloc: Global,
    target: &Target,
    variables: &[Variable],
    left: &[Regs],
    nogoods: &Nogoods,
) -> Result<bool, AllocError>
    requires few { length left.now ≤ length variables.now }
    requires known { AreNogoods target.now variables.now nogoods.now.lists }
    ensures { IfOk result (λ seen. seen ≡ true → IsNogood target.now variables.now left.now) }
{
    if has_none(left) {
        return Ok(true);
    }
    if nogoods.has(left) {
        return Ok(true);
    }
    let k = variables.len() - left.len();
    let short = are_short(alloc, target, &variables[k..], left)?;
    Ok(short)
}

/// A register, and the others behind it.
fn put_first(r: Reg, others: Vec<Reg>) -> Result<Vec<Reg>, AllocError>
    ensures { IfOk result (λ all. all.items ≡ r ∷ others.items) }
{
    let mut all = others;
    all.insert(0, r)?;
    Ok(all)
}

/// The first choice for the last variables, of the registers that are left for them, that keeps apart
/// what must be apart. Lists from which there is none are remembered, so that they are searched once.
fn choose(
    alloc: Global,
    target: &Target,
    variables: &[Variable],
    left: &[Regs],
    nogoods: &mut Nogoods,
) -> Result<Option<Vec<Reg>>, AllocError>
    requires few { length left.now ≤ length variables.now }
    requires known { AreNogoods target.now variables.now nogoods.old.lists }
    ensures first { IfOk result (λ q. option_map (λ v. v.items) q ≡ first (choices_apart target.now (needs_left variables.now left.now) left.now)) }
    ensures known { OnOk result (AreNogoods target.now variables.now nogoods.new.lists) }
{
    if left.is_empty() {
        return Ok(Some(Vec::new(alloc)));
    }
    let k = variables.len() - left.len();
    let v = variables[k];
    let here = left[0].as_slice();
    'each: for r in here {
        let behind = prune(alloc, target, v, *r, &variables[k + 1..], &left[1..])?;
        let seen = is_nogood(alloc, target, variables, behind.as_slice(), nogoods)?;
        if seen {
            continue;
        }
        let found = choose(alloc, target, variables, behind.as_slice(), nogoods)?;
        match found {
            Some(others) => return Ok(Some(put_first(*r, others)?)),
            None => nogoods.add(behind)?,
        }
    }
    Ok(None)
}

/// The options of each variable.
fn all_options(
    alloc: Global,
    live: &LiveFunc,
    around: PlacePosition<'_>,
    variables: &[Variable],
) -> Result<Vec<Regs>, AllocError>
    ensures long { IfOk result (λ made. length made.items ≡ length variables.now) }
    ensures value { IfOk result (λ made. InOrder live.now.table → made.items ≡ map (options_in live.now.target live.now.table around.entry) variables.now) }
{
    let mut options = Vec::new(alloc);
    'each: for v in variables {
        options.push(options_of(alloc, live, around, *v)?)?;
    }
    Ok(options)
}

/// Whether a variable of this kind may lie in a register, also beside those that are chosen for the
/// variables before it. The chosen ones are asked first: that takes less.
fn serves_beside(
    live: &LiveFunc,
    around: PlacePosition<'_>,
    variables: &[Variable],
    chosen: &[Reg],
    kind: VariableKind,
    r: Reg,
) -> bool
    requires { length chosen.now ≤ length variables.now }
    ensures { InOrder live.now.table → result ≡ (fits live.now.target (seats variables.now chosen.now) (use_of kind) r && may_lie live.now.target live.now.table around.entry (use_of kind) r) }
{
    fits(live.target(), variables, chosen, kind, r) && avoids(live, around, kind, r)
}

/// The first register of a variable's class that it may lie in beside those that are chosen.
#[tactic(auto, using(crate::proofs::Firsts::firsts))]
fn first_beside(
    live: &LiveFunc,
    around: PlacePosition<'_>,
    variables: &[Variable],
    chosen: &[Reg],
    v: Variable,
) -> Option<Reg>
    requires { length chosen.now ≤ length variables.now }
    ensures { InOrder live.now.table → result ≡ first (filter (fits live.now.target (seats variables.now chosen.now) (use_of v.kind)) (options_in live.now.target live.now.table around.entry v)) }
{
    'each: for r in regs_at(live.target().classes.as_slice(), v.class) {
        if serves_beside(live, around, variables, chosen, v.kind, *r) {
            return Some(*r);
        }
    }
    None
}

/// Gives each variable in turn the first register that it may lie in beside those before it, and never
/// takes one back. None where a variable has no such register left: another choice may serve yet.
fn choice_in_turn(
    alloc: Global,
    live: &LiveFunc,
    around: PlacePosition<'_>,
    variables: &[Variable],
) -> Result<Option<Vec<Reg>>, AllocError>
    ensures { IfOk result (λ q. InOrder live.now.table → IfSome q (λ v. first_apart live.now.target live.now.table around.entry variables.now ≡ Some v.items)) }
{
    let mut chosen = Vec::new(alloc);
    'each: for v in variables {
        match first_beside(live, around, variables, chosen.as_slice(), *v) {
            None => return Ok(None),
            Some(r) => chosen.push(r)?,
        }
    }
    Ok(Some(chosen))
}

/// The first choice that serves, of all options of each variable: the search goes back where a variable
/// has no register left.
fn choice_of_all(
    alloc: Global,
    live: &LiveFunc,
    around: PlacePosition<'_>,
    variables: &[Variable],
) -> Result<Option<Vec<Reg>>, AllocError>
    ensures { IfOk result (λ q. InOrder live.now.table → option_map (λ v. v.items) q ≡ first_apart live.now.target live.now.table around.entry variables.now) }
{
    let options = all_options(alloc, live, around, variables)?;
    let mut nogoods = Nogoods::new(alloc)?;
    let found = choose(
        alloc,
        live.target(),
        variables,
        options.as_slice(),
        &mut nogoods,
    )?;
    Ok(found)
}

/// The first choice of registers for the variables, in their order and in allocation order, that
/// serves at the place. None where no choice does.
///
/// Mostly each variable's first register serves, so those are asked for first, one by one. If that
/// gives each variable one, it is the first choice; else all options are listed and searched.
#[tactic(auto, using(crate::proofs::Solved::solved))]
pub fn first_choice(
    alloc: Global,
    live: &LiveFunc,
    around: PlacePosition<'_>,
    variables: &[Variable],
) -> Result<Option<Vec<Reg>>, AllocError>
    ensures { IfOk result (λ q. InOrder live.now.table → option_map (λ v. v.items) q ≡ first (solutions live.now.target (entry_of live.now.target live.now.table around.entry) (exit_of live.now.target live.now.table around.entry) (map need_of variables.now))) }
{
    if let Some(chosen) = choice_in_turn(alloc, live, around, variables)? {
        return Ok(Some(chosen));
    }
    choice_of_all(alloc, live, around, variables)
}
