//! Whether every place of a source admits a choice of registers.

ghost use Rattle.std.specs.Prelude.{◌≡◌, ◌<◌, ◌^◌, length, IfOk, OnOk, IfErr, true};
ghost use Rattle.std.specs.List.{list_any};
ghost use Rattle.mir_func.specs.Binding.{does, is_terminator, is_lowered_away};
ghost use Rattle.mir_meaning.specs.Places.{Admits, FirstPlace, PlacesServe, TooMany};
ghost use Rattle.mir_meaning.specs.declared.Form.TheVariants as forms;
ghost use Rattle.mir_meaning.specs.Valid.{IsValid};
ghost use Rattle.live_laws.specs.Effects.Shaped.{AreClasses};
ghost use Rattle.live_lanes.specs.Doing.{IsComputed};
ghost use Rattle.live_lanes.specs.Looks.{InOrder};
ghost use Rattle.place_solve.specs.Own as own;
ghost use Rattle.place_solve.specs.Told as told;

use crate::copies::copies_admit;
use crate::position::PlacePosition;
use crate::search::first_choice;
use crate::variables::variables_of;
use live_lanes::LiveFunc;
use mir_func::opcodes::{effect_of, is_terminator};
use mir_func::{Block, Func, Instr, Place, Valid, opcodes};
use std::alloc::{AllocError, Global};
use target_base::{Boxed, Effect, Target};
use thiserror::Error;

/// The most variables of a place.
const MOST: usize = 6;

/// Why a source isn't allocated.
#[derive(Debug, Drop, Error)]
pub enum PlaceStop {
    /// A place admits no choice of registers.
    #[error("no assignment")]
    Unassignable(Place),
    /// A place has more than 6 variables.
    #[error("too many variables")]
    Variables(Place),
    /// Want of memory.
    #[error("out of memory")]
    Memory(AllocError),
}

impl From<AllocError> for PlaceStop {
    ghost use Rattle.std.specs.Prelude.{◌≡◌};
    ghost use Rattle.place_solve.specs.declared.check.PlaceStop.TheVariants.{Memory};

    ghost from_gives = { λ x e. e ≡ Memory x };

    fn from(e: AllocError) -> PlaceStop {
        PlaceStop::Memory(e)
    }
}

/// Whether the instruction is a PHI, REG_SEQUENCE or INSERT_SUBREG.
fn is_lowered_away(target: &Target, i: &Instr) -> bool
    ensures { result ≡ does is_lowered_away target.now i.now }
{
    match effect_of(target, i) {
        Some(e) => opcodes::is_lowered_away(e),
        None => false,
    }
}

/// Whether the last of these instructions is a terminator.
#[tactic(auto, using(crate::proofs::Crowds::last_is_there))]
fn ends_in_terminator(target: &Target, before: &[Boxed<Instr>]) -> bool
    ensures { result ≡ true → list_any (does is_terminator target.now) before.now ≡ true }
{
    if before.is_empty() {
        return false;
    }
    is_terminator(target, before[before.len() - 1].get())
}

/// Whether one of these instructions is a terminator.
fn has_terminator(target: &Target, before: &[Boxed<Instr>]) -> bool
    ensures { result ≡ list_any (does is_terminator target.now) before.now }
{
    ends_in_terminator(target, before) || before.iter().any(|i| is_terminator(target, i.get()))
}

/// The instructions that make the own place of the one at `j`: the terminators are one place at the
/// first of them, and PHI, REG_SEQUENCE and INSERT_SUBREG have none.
#[tactic(auto, using(crate::proofs::Crowds::own_is))]
fn own_place<'a>(target: &Target, instrs: &'a [Boxed<Instr>], j: usize) -> &'a [Boxed<Instr>]
    ensures { result.now ≡ own.own_instrs target.now instrs.now j }
{
    if j >= instrs.len() {
        return &[];
    }
    let i = instrs[j].get();
    if is_terminator(target, i) {
        if has_terminator(target, &instrs[..j]) {
            return &[];
        }
        return &instrs[j..];
    }
    if is_lowered_away(target, i) {
        return &[];
    }
    &instrs[j..j + 1]
}

/// Where the own place of these instructions stands: a copy counts by the point before it.
fn own_around<'a>(target: &Target, instrs: &'a [Boxed<Instr>]) -> PlacePosition<'a>
    ensures { result ≡ told.around_at target.now instrs.entry instrs.now }
{
    match instrs.first() {
        None => PlacePosition::Instrs(instrs),
        Some(i) => match effect_of(target, i.get()) {
            Some(Effect::Copy) => PlacePosition::Before(i.get().id),
            _ => PlacePosition::Instrs(instrs),
        },
    }
}

/// Whether the own place of the instruction at `j` has too many variables.
#[tactic(auto, using(crate::proofs::Crowds::counted))]
fn is_crowded(
    alloc: Global,
    target: &Target,
    f: &Func,
    instrs: &[Boxed<Instr>],
    j: usize,
) -> Result<bool, AllocError>
    ensures { IfOk result (λ b. b ≡ own.is_crowded target.now f.now instrs.now j) }
{
    let place = own_place(target, instrs, j);
    let variables = variables_of(alloc, target, f, place)?;
    Ok(variables.as_slice().len() > MOST)
}

/// The first instruction of a block whose place has too many variables.
fn crowded_instr(
    alloc: Global,
    target: &Target,
    f: &Func,
    instrs: &[Boxed<Instr>],
) -> Result<Option<usize>, AllocError>
    ensures { IfOk result (own.IsFirst (own.is_crowded target.now f.now instrs.now) (length instrs.now)) }
{
    'each: for j in 0..instrs.len() {
        if is_crowded(alloc, target, f, instrs, j)? {
            return Ok(Some(j));
        }
    }
    Ok(None)
}

/// The first place in layout that has too many variables.
fn first_crowded(alloc: Global, target: &Target, f: &Func) -> Result<Option<Place>, AllocError>
    ensures { IfOk result (own.IsCrowded target.now f.now) }
{
    let _last = f.next_id;
    let blocks = f.blocks.as_slice();
    'counted: for k in 0..blocks.len() {
        let block = &blocks[k];
        if let Some(at) = crowded_instr(alloc, target, f, block.instrs.as_slice())? {
            return Ok(Some(place_of(block, at)));
        }
    }
    Ok(None)
}

/// Whether the own place of an instruction admits registers.
fn own_admits(
    alloc: Global,
    live: &LiveFunc,
    instrs: &[Boxed<Instr>],
    j: usize,
) -> Result<bool, AllocError>
    ensures { IfOk result (λ yes. InOrder live.now.table → told.OwnTold live.now.target live.now.func live.now.table instrs.now j yes) }
{
    let (target, f) = (live.target(), live.func());
    let place = own_place(target, instrs, j);
    let variables = variables_of(alloc, target, f, place)?;
    let around = own_around(target, place);
    Ok(first_choice(alloc, live, around, variables.as_slice())?.is_some())
}

/// Whether the own place of an instruction, and the copies that lowering makes of it, admit registers.
fn admits(
    alloc: Global,
    live: &LiveFunc,
    instrs: &[Boxed<Instr>],
    j: usize,
) -> Result<bool, AllocError>
    ensures { IfOk result (λ yes. InOrder live.now.table → told.PlacesTold live.now.target live.now.func live.now.table instrs.now j yes) }
{
    if j >= instrs.len() {
        return Ok(true);
    }
    if !own_admits(alloc, live, instrs, j)? {
        return Ok(false);
    }
    copies_admit(alloc, live, instrs[j].get())
}

/// The first instruction of a block one of whose places admits nothing.
fn unassignable(alloc: Global, live: &LiveFunc, block: &Block) -> Result<Option<usize>, AllocError>
    ensures { IfOk result (λ q. InOrder live.now.table → told.IsFirstLost live.now.target live.now.func live.now.table block.now.instrs q) }
{
    let instrs = block.instrs.as_slice();
    'each: for j in 0..instrs.len() {
        if !admits(alloc, live, instrs, j)? {
            return Ok(Some(j));
        }
    }
    Ok(None)
}

/// The name of the instruction at a place of a block.
fn place_of(block: &Block, at: usize) -> Place
    ensures block { result.block ≡ block.now.number }
    ensures at { at < 2 ^ 32 → result.at ≡ at }
{
    Place {
        block: block.number,
        at: at.min(0xffff_ffff) as u32,
    }
}

/// The first instruction of a function one of whose places admits nothing, by the lanes that are live in it.
fn first_unassignable(alloc: Global, live: &LiveFunc, f: &Func) -> Result<Option<Place>, AllocError>
    ensures { IfOk result (λ q. InOrder live.now.table → told.IsLost live.now.target live.now.func live.now.table f.now.blocks q) }
{
    let _last = f.next_id;
    let blocks = f.blocks.as_slice();
    'tested: for k in 0..blocks.len() {
        let block = &blocks[k];
        if let Some(at) = unassignable(alloc, live, block)? {
            return Ok(Some(place_of(block, at)));
        }
    }
    Ok(None)
}

/// The first instruction of a function one of whose places admits nothing.
fn first_refused(alloc: Global, live: &LiveFunc) -> Result<Option<Place>, AllocError>
    requires { IsComputed live.now.target live.now.func live.now.table }
    ensures { IfOk result (λ q. AreClasses live.now.target live.now.func → IsValid live.now.target forms.Source live.now.func → told.IsRefused live.now.target live.now.func q) }
{
    let f = live.func();
    let _last = f.next_id;
    first_unassignable(alloc, live, f)
}

/// Tests every place of a valid source with what is live in it: its instructions, the terminators of
/// each block together, and the copies that lowering will make. Variables comes where a place has more
/// than 6 variables, with the first such place in layout, and before any search. Unassignable comes
/// where no choice of registers serves at a place, with the first such place.
pub fn check_live_places(alloc: Global, live: &LiveFunc) -> Result<(), PlaceStop>
    requires { IsComputed live.now.target live.now.func live.now.table }
    ensures variables { IfErr result (own.IfVariables (FirstPlace live.now.target live.now.func TooMany)) }
    ensures few_at_ok { OnOk result (own.HasFew live.now.target live.now.func) }
    ensures own_at_ok { OnOk result (AreClasses live.now.target live.now.func → IsValid live.now.target forms.Source live.now.func → told.OwnPlacesServe live.now.target live.now.func) }
    ensures few_at_unassignable { IfErr result (own.IfUnassignable (λ _. own.HasFew live.now.target live.now.func)) }
    ensures serve_at_ok { OnOk result (AreClasses live.now.target live.now.func → IsValid live.now.target forms.Source live.now.func → PlacesServe live.now.target live.now.func) }
    ensures unassignable { IfErr result (own.IfUnassignable (λ p. AreClasses live.now.target live.now.func → IsValid live.now.target forms.Source live.now.func → FirstPlace live.now.target live.now.func (λ q. Admits live.now.target live.now.func q → ⊥) p)) }
{
    if let Some(place) = first_crowded(alloc, live.target(), live.func())? {
        return Err(PlaceStop::Variables(place));
    }
    match first_refused(alloc, live)? {
        Some(place) => Err(PlaceStop::Unassignable(place)),
        None => Ok(()),
    }
}

/// Tests every place of a valid source, as `check_live_places` does, of which a copy is made to find
/// what is live in it.
pub fn check_places(alloc: Global, target: &Target, f: &Valid) -> Result<(), PlaceStop>
    ensures variables { IfErr result (own.IfVariables (FirstPlace target.now f.now.func TooMany)) }
    ensures few_at_ok { OnOk result (own.HasFew target.now f.now.func) }
    ensures own_at_ok { OnOk result (AreClasses target.now f.now.func → IsValid target.now forms.Source f.now.func → told.OwnPlacesServe target.now f.now.func) }
    ensures few_at_unassignable { IfErr result (own.IfUnassignable (λ _. own.HasFew target.now f.now.func)) }
    ensures serve_at_ok { OnOk result (AreClasses target.now f.now.func → IsValid target.now forms.Source f.now.func → PlacesServe target.now f.now.func) }
    ensures unassignable { IfErr result (own.IfUnassignable (λ p. AreClasses target.now f.now.func → IsValid target.now forms.Source f.now.func → FirstPlace target.now f.now.func (λ q. Admits target.now f.now.func q → ⊥) p)) }
{
    let copy = f.func.copy(alloc)?;
    let live = LiveFunc::compute(alloc, target, copy)?;
    check_live_places(alloc, &live)
}
