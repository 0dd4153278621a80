//! Registers for the tinies of a place, all at once.

ghost use Rattle.std.specs.Prelude.{◌≡◌, ℕ, ◌++◌, ◌∷◌, [], None, Some, IfOk, OnOk, option_copied, drop, filter, map, slice_get};
ghost use Rattle.live_lanes.specs.Looks.{InOrder};
ghost use Rattle.live_lanes.specs.Touching.{FindsInstrs};
ghost use Rattle.place_solve.specs.Choice.{need_of};
ghost use Rattle.place_solve.specs.Tinies as tiny;

use crate::position::PlacePosition;
use crate::search::first_choice;
use crate::variables::{Variable, VariableKind, variables_of};
use interference::{Matrix, Tinies, Tiny};
use live_lanes::LiveFunc;
use mir_func::opcodes::{effect_of, is_terminator};
use mir_func::operands::class_of;
use mir_func::{Block, Func, Instr};
use std::alloc::{AllocError, Global};
use target_base::{Boxed, Effect, List, Reg, Target};

/// Ranges with the registers that are chosen for them.
pub type Choices = List<(u32, Reg)>;

/// The first of these instructions, which make the rest of a block, or all where it is a terminator:
/// the terminators of a block are one place.
fn place_among<'a>(target: &Target, rest: &'a [Boxed<Instr>]) -> &'a [Boxed<Instr>]
    ensures { result.now ≡ tiny.place_among target.now rest.now }
{
    match rest.first() {
        None => rest,
        Some(i) => {
            if is_terminator(target, i.get()) {
                rest
            } else {
                &rest[..1]
            }
        }
    }
}

/// The block at a position.
fn block_at(live: &LiveFunc, position: usize) -> Option<&Block>
    ensures { option_copied result ≡ slice_get live.now.func.blocks position }
{
    live.func().blocks.as_slice().get(position)
}

/// The instructions of the place that begins with the one of that id, in its block.
fn place_in<'a>(live: &LiveFunc, block: &'a Block, at: u32) -> &'a [Boxed<Instr>]
    ensures { FindsInstrs live.now.table live.now.func.blocks → (p j : ℕ) (i : Instr) → slice_get live.now.func.blocks p ≡ Some block.now
        → slice_get block.now.instrs j ≡ Some i → i.id ≡ at → result.now ≡ tiny.place_among live.now.target (drop j block.now.instrs) }
{
    let k = live.place_of(at);
    if k >= block.instrs.len() {
        return &[];
    }
    place_among(live.target(), &block.instrs.as_slice()[k..])
}

/// The same, wherever its block is.
fn place_at(live: &LiveFunc, at: u32) -> &[Boxed<Instr>]
    ensures { FindsInstrs live.now.table live.now.func.blocks → (p j : ℕ) (b : Block) (i : Instr) → slice_get live.now.func.blocks p ≡ Some b
        → slice_get b.instrs j ≡ Some i → i.id ≡ at → result.now ≡ tiny.place_among live.now.target (drop j b.instrs) }
{
    match block_at(live, live.position_of(at) as usize) {
        None => &[],
        Some(block) => place_in(live, block, at),
    }
}

/// Whether a range is one of the tinies.
#[tactic(auto, using(crate::proofs::Units::anys))]
fn is_tiny(tinies: &Tinies, v: u32) -> bool
    ensures { result ≡ tiny.is_tiny tinies.now v }
{
    let all = tinies.as_slice();
    'each: for t in all {
        if t.range == v {
            return true;
        }
    }
    false
}

/// Puts a variable behind the others, if it stands for a tiny.
fn push_tiny(made: &mut Vec<Variable>, tinies: &Tinies, v: Variable) -> Result<(), AllocError>
    ensures { OnOk result (made.new.items ≡ made.old.items ++ filter (tiny.stands_for_tiny tinies.now) (v ∷ [])) }
{
    if is_tiny(tinies, v.range) {
        made.push(v)?;
    }
    Ok(())
}

/// The variables that stand for tinies, in their order.
#[tactic(auto, using(crate::proofs::Units::filters))]
fn tinies_among(
    alloc: Global,
    variables: &[Variable],
    tinies: &Tinies,
) -> Result<Vec<Variable>, AllocError>
    ensures { IfOk result (λ made. made.items ≡ filter (tiny.stands_for_tiny tinies.now) variables.now) }
{
    let mut made = Vec::new(alloc);
    'each: for v in variables {
        push_tiny(&mut made, tinies, *v)?;
    }
    Ok(made)
}

/// The variables of a place that stand for tinies, in operand order. A reload into a tiny and a store
/// of it, which is the place then, stand for one copy and have one variable.
#[tactic(auto, using(crate::proofs::Pairing::tinies_made))]
fn tiny_variables(
    alloc: Global,
    target: &Target,
    f: &Func,
    place: &[Boxed<Instr>],
    tinies: &Tinies,
) -> Result<Vec<Variable>, AllocError>
    ensures { IfOk result (λ made. map need_of made.items ≡ tiny.tiny_needs target.now f.now tinies.now place.now) }
{
    let variables = variables_of(alloc, target, f, place)?;
    let made = tinies_among(alloc, variables.as_slice(), tinies)?;
    Ok(made)
}

/// The variable of the copy for which a store of this tiny stands.
fn stored_variable(f: &Func, range: u32) -> Variable
    ensures { need_of result ≡ tiny.stored_need f.now range }
{
    Variable {
        kind: VariableKind::Copying,
        range,
        index: None,
        class: class_of(f, range),
    }
}

/// Whether the place is a store to a slot.
fn is_store(target: &Target, place: &[Boxed<Instr>]) -> bool
    ensures { result ≡ tiny.is_store target.now place.now }
{
    match place.first() {
        None => false,
        Some(i) => match effect_of(target, i.get()) {
            Some(Effect::Spill) => true,
            _ => false,
        },
    }
}

/// The variables with the registers chosen for them.
fn pair_choices(
    alloc: Global,
    variables: &[Variable],
    chosen: &[Reg],
) -> Result<Choices, AllocError>
    ensures { IfOk result (λ made. made ≡ tiny.paired (map need_of variables.now) chosen.now) }
{
    let mut made = List::new(alloc);
    'each: for k in 0..variables.len() {
        if k >= chosen.len() {
            return Ok(made);
        }
        made.push((variables[k].range, chosen[k]))?;
    }
    Ok(made)
}

/// The first choice of registers for these variables, in their order and in allocation order, that
/// serves there. None where no choice does.
fn choose_at(
    alloc: Global,
    live: &LiveFunc,
    around: PlacePosition<'_>,
    variables: &[Variable],
) -> Result<Option<Choices>, AllocError>
    ensures { IfOk result (λ q. InOrder live.now.table → q ≡ tiny.choice_at live.now.target live.now.table around.entry (map need_of variables.now)) }
{
    match first_choice(alloc, live, around, variables)? {
        None => Ok(None),
        Some(chosen) => Ok(Some(pair_choices(alloc, variables, chosen.as_slice())?)),
    }
}

/// The first choice of registers for tinies, of which `first` is one, at these instructions, which
/// make their place: the variables in operand order and the registers in allocation order, that serves
/// among them and against the units in use there. None where no choice does.
pub fn solve_at(
    alloc: Global,
    live: &LiveFunc,
    place: &[Boxed<Instr>],
    first: Tiny,
    tinies: &Tinies,
) -> Result<Option<Choices>, AllocError>
    ensures { IfOk result (λ q. InOrder live.now.table → q ≡ tiny.tiny_choice live.now.target live.now.func live.now.table tinies.now first place.now) }
{
    let (target, f) = (live.target(), live.func());
    if is_store(target, place) {
        let one = [stored_variable(f, first.range)];
        return choose_at(alloc, live, PlacePosition::Before(first.at), &one);
    }
    let variables = tiny_variables(alloc, target, f, place, tinies)?;
    choose_at(
        alloc,
        live,
        PlacePosition::Instrs(place),
        variables.as_slice(),
    )
}

/// The same at the place of the first of the tinies, over a table in which instructions are found.
fn solve_from(
    alloc: Global,
    live: &LiveFunc,
    first: Tiny,
    tinies: &Tinies,
) -> Result<Option<Choices>, AllocError>
    ensures { IfOk result (λ q. InOrder live.now.table → FindsInstrs live.now.table live.now.func.blocks
        → (p j : ℕ) (b : Block) (i : Instr) → slice_get live.now.func.blocks p ≡ Some b → slice_get b.instrs j ≡ Some i → i.id ≡ first.at
        → q ≡ tiny.tiny_choice live.now.target live.now.func live.now.table tinies.now first (tiny.place_among live.now.target (drop j b.instrs))) }
{
    solve_at(alloc, live, place_at(live, first.at), first, tinies)
}

/// The same, wherever the tinies are. None too where there is no tiny.
pub fn solve(alloc: Global, m: &Matrix, tinies: &Tinies) -> Result<Option<Choices>, AllocError>
    ensures none { tinies.now ≡ [] → IfOk result (λ q. q ≡ None) }
    ensures exact { (first : Tiny) (others : List Tiny) → tinies.now ≡ first ∷ others → IfOk result (λ q. InOrder m.now.live.table → FindsInstrs m.now.live.table m.now.live.func.blocks
        → (p j : ℕ) (b : Block) (i : Instr) → slice_get m.now.live.func.blocks p ≡ Some b → slice_get b.instrs j ≡ Some i → i.id ≡ first.at
        → q ≡ tiny.tiny_choice m.now.live.target m.now.live.func m.now.live.table tinies.now first (tiny.place_among m.now.live.target (drop j b.instrs))) }
{
    match tinies.as_slice().first() {
        None => Ok(None),
        Some(first) => solve_from(alloc, m.live(), *first, tinies),
    }
}
