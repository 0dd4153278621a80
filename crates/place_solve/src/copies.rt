//! The places of the copies that lowering makes of an instruction.

ghost use Rattle.std.specs.Prelude.{◌≡◌, ◌++◌, ◌∷◌, [], IfOk, flat_map};
ghost use Rattle.std.specs.List.{list_all, list_any};
ghost use Rattle.target_base.specs.Rules.{is_reg_sequence, is_insert_subreg};
ghost use Rattle.instr_effects.specs.Ends.{pairs_of};
ghost use Rattle.mir_func.specs.declared.func.Operand.TheVariants as operands;
ghost use Rattle.mir_func.specs.Binding.{registers, tied_pairs};
ghost use Rattle.bound_operands.specs.Seen.{seen, seen_all, seen_pair};
ghost use Rattle.mir_meaning.specs.Points.{Start, Entry};
ghost use Rattle.mir_meaning.specs.Places.{before_terminators, copied_at, effect_copies, input_copies, phi_copies, phi_point, tied_copies};
ghost use Rattle.live_lanes.specs.Looks.{InOrder};
ghost use Rattle.place_solve.specs.Copies as copies;
ghost use Rattle.place_solve.specs.Told.{around_of, copy_solved, copies_solved};

use crate::position::PlacePosition;
use crate::search::first_choice;
use crate::variables::copy_variable;
use bound_operands::{BoundOperand, TiedPair, bind, tied_pair};
use instr_effects::effects::first_pair;
use instr_effects::items::ways::instrs_of;
use live_lanes::LiveFunc;
use mir_func::opcodes::{effect_of, is_terminator, roles_of, ties_to};
use mir_func::operands::{is_virtual, register_at, same_index, same_loc};
use mir_func::{Func, Instr, Loc, Operand, RegOp};
use std::alloc::{AllocError, Global};
use target_base::roles::is_phi;
use target_base::{Boxed, Effect, Target};

/// Whether a copy of lanes of this operand's widths admits a register at a place.
fn admits(
    alloc: Global,
    live: &LiveFunc,
    around: PlacePosition<'_>,
    o: RegOp,
) -> Result<bool, AllocError>
    ensures { IfOk result (λ yes. InOrder live.now.table → yes ≡ copies.copy_fits live.now.target live.now.func live.now.table around.entry o) }
{
    let v = copy_variable(alloc, live.target(), live.func(), o)?;
    let one = [v];
    Ok(first_choice(alloc, live, around, &one)?.is_some())
}

/// The place before the first terminator, or behind the last instruction; the start of the block of
/// that number where there is none.
#[tactic(auto, using(crate::proofs::Copying::before_is))]
fn before_terminators<'a>(
    target: &Target,
    number: u32,
    instrs: &'a [Boxed<Instr>],
) -> PlacePosition<'a>
    ensures { result ≡ around_of (before_terminators target.now (Start number) instrs.now) }
{
    let mut at = PlacePosition::Start(number);
    'each: for i in instrs {
        let i = i.get();
        if is_terminator(target, i) {
            return PlacePosition::Before(i.id);
        }
        at = PlacePosition::Behind(i.id);
    }
    at
}

/// Where the copy of a phi's operand will stand in the block of that number.
fn phi_point<'a>(target: &Target, f: &'a Func, number: u32) -> PlacePosition<'a>
    ensures { result ≡ around_of (phi_point target.now f.now number) }
{
    before_terminators(target, number, instrs_of(f.blocks.as_slice(), number))
}

/// Whether the copy of a phi's operand admits a register in its block.
fn pair_admits(alloc: Global, live: &LiveFunc, o: RegOp, number: u32) -> Result<bool, AllocError>
    ensures { IfOk result (λ yes. InOrder live.now.table → yes ≡ copies.pair_fits live.now.target live.now.func live.now.table (o, number)) }
{
    if o.undef {
        return Ok(true);
    }
    let around = phi_point(live.target(), live.func(), number);
    admits(alloc, live, around, o)
}

/// Whether the copies of these uses of a phi admit registers, each in its block.
#[tactic(auto, using(crate::proofs::Copying::pair_walk))]
fn pairs_admit(alloc: Global, live: &LiveFunc, operands: &[Operand]) -> Result<bool, AllocError>
    ensures { IfOk result (λ yes. InOrder live.now.table → yes ≡ list_all (copies.pair_fits live.now.target live.now.func live.now.table) (pairs_of operands.now)) }
{
    let mut left = operands;
    'pairs: while let Some((o, number)) = first_pair(left) {
        if !pair_admits(alloc, live, o, number)? {
            return Ok(false);
        }
        left = &left[2..];
    }
    Ok(true)
}

/// Whether each copy of a phi's uses admits a register, and the one into its result.
fn phi_admits(
    alloc: Global,
    live: &LiveFunc,
    id: u32,
    d: RegOp,
    uses: &[Operand],
) -> Result<bool, AllocError>
    ensures { IfOk result (λ yes. InOrder live.now.table → yes ≡ list_all (copy_solved live.now.target live.now.table) (phi_copies live.now.target live.now.func uses.now ++ (copied_at live.now.target live.now.func (Entry id) d ∷ []))) }
{
    if !pairs_admit(alloc, live, uses)? {
        return Ok(false);
    }
    admits(alloc, live, PlacePosition::Before(id), d)
}

/// Whether the copy of an input admits a register before the instruction of that id.
fn input_admits(alloc: Global, live: &LiveFunc, id: u32, o: &Operand) -> Result<bool, AllocError>
    ensures { IfOk result (λ yes. InOrder live.now.table → yes ≡ copies.input_fits live.now.target live.now.func live.now.table id o.now) }
{
    match o {
        Operand::Reg(r) => {
            if r.def || r.undef {
                Ok(true)
            } else {
                admits(alloc, live, PlacePosition::Before(id), *r)
            }
        }
        _ => Ok(true),
    }
}

/// Whether the copies of these inputs admit registers.
#[tactic(auto, using(crate::proofs::Units::alls))]
fn inputs_admit(
    alloc: Global,
    live: &LiveFunc,
    id: u32,
    inputs: &[Operand],
) -> Result<bool, AllocError>
    ensures { IfOk result (λ yes. InOrder live.now.table → yes ≡ list_all (copies.input_fits live.now.target live.now.func live.now.table id) inputs.now) }
{
    'each: for o in inputs {
        if !input_admits(alloc, live, id, o)? {
            return Ok(false);
        }
    }
    Ok(true)
}

/// Whether the operand is a register of the location.
fn names(loc: Loc, o: &Operand) -> bool
    ensures { result ≡ copies.names loc o.now }
{
    match o {
        Operand::Reg(r) => same_loc(loc, r.loc),
        _ => false,
    }
}

/// Whether one of the operands is a register of the location.
#[tactic(auto, using(crate::proofs::Units::anys))]
fn is_named(loc: Loc, operands: &[Operand]) -> bool
    ensures { result ≡ list_any (copies.names loc) operands.now }
{
    'each: for o in operands {
        if names(loc, o) {
            return true;
        }
    }
    false
}

/// Whether each copy of inputs into a register admits one, and that from the register that is built
/// where an input would be overwritten.
fn built_admits(
    alloc: Global,
    live: &LiveFunc,
    id: u32,
    d: RegOp,
    inputs: &[Operand],
    overwritten: &[Operand],
) -> Result<bool, AllocError>
    ensures { IfOk result (λ yes. InOrder live.now.table → yes ≡ list_all (copy_solved live.now.target live.now.table) (input_copies live.now.target live.now.func (Entry id) d (registers inputs.now) (registers overwritten.now))) }
{
    if !inputs_admit(alloc, live, id, inputs)? {
        return Ok(false);
    }
    if !is_named(d.loc, overwritten) {
        return Ok(true);
    }
    admits(alloc, live, PlacePosition::Before(id), d)
}

/// Whether the operand reads the location.
fn reads(loc: Loc, o: &Operand) -> bool
    ensures { result ≡ copies.reads loc o.now }
{
    match o {
        Operand::Reg(r) => !r.def && !r.undef && same_loc(loc, r.loc),
        _ => false,
    }
}

/// Whether an operand besides the use tied to the definition of that number reads the location.
fn is_read_besides(bound: &[BoundOperand], number: usize, loc: Loc) -> bool
    ensures { result ≡ list_any (copies.reads_besides number loc) (seen_all bound.now) }
{
    for b in bound {
        if !ties_to(b.role, number) && reads(loc, b.operand) {
            return true;
        }
    }
    false
}

/// Whether nothing is copied for a tied pair: the use is `undef` or of the definition's register and
/// index already, or the definition is a physical register.
fn is_in_place(p: TiedPair) -> bool
    ensures { result ≡ copies.is_in_place (seen_pair p) }
{
    let (d, u) = (p.definition, p.tied_use);
    u.undef || !is_virtual(d.loc) || (same_loc(d.loc, u.loc) && same_index(d.index, u.index))
}

/// Whether the copies for a tied pair among these operands of the instruction of that id admit
/// registers.
fn tie_admits(
    alloc: Global,
    live: &LiveFunc,
    id: u32,
    bound: &[BoundOperand],
    p: TiedPair,
) -> Result<bool, AllocError>
    ensures { IfOk result (λ yes. InOrder live.now.table → yes ≡ copies.tie_fits live.now.target live.now.func live.now.table id (seen_all bound.now) (seen_pair p)) }
{
    if is_in_place(p) {
        return Ok(true);
    }
    if !admits(alloc, live, PlacePosition::Before(id), p.definition)? {
        return Ok(false);
    }
    if !is_read_besides(bound, p.number, p.definition.loc) {
        return Ok(true);
    }
    admits(alloc, live, PlacePosition::Behind(id), p.definition)
}

/// Whether the copies for an operand admit registers, where it is a tied use.
fn operand_admits(
    alloc: Global,
    live: &LiveFunc,
    i: &Instr,
    bound: &[BoundOperand],
    b: BoundOperand<'_>,
) -> Result<bool, AllocError>
    ensures { IfOk result (λ yes. InOrder live.now.table → yes ≡ copies.operand_fits live.now.target live.now.func live.now.table i.now (seen_all bound.now) (seen b.entry)) }
{
    match tied_pair(i.operands.as_slice(), b) {
        None => Ok(true),
        Some(p) => tie_admits(alloc, live, i.id, bound, p),
    }
}

/// Whether the copies for each tied use among an instruction's operands admit registers.
fn operands_admit(
    alloc: Global,
    live: &LiveFunc,
    i: &Instr,
    bound: &[BoundOperand],
) -> Result<bool, AllocError>
    ensures { IfOk result (λ yes. InOrder live.now.table → yes ≡ list_all (copies.operand_fits live.now.target live.now.func live.now.table i.now (seen_all bound.now)) (seen_all bound.now)) }
{
    for b in bound {
        if !operand_admits(alloc, live, i, bound, *b)? {
            return Ok(false);
        }
    }
    Ok(true)
}

/// Whether the copies for an instruction's tied uses admit registers.
fn ties_admit(alloc: Global, live: &LiveFunc, i: &Instr) -> Result<bool, AllocError>
    ensures { IfOk result (λ yes. InOrder live.now.table → yes ≡ list_all (copy_solved live.now.target live.now.table) (flat_map (tied_copies live.now.target live.now.func i.now) (tied_pairs live.now.target i.now))) }
{
    let bound = bind(alloc, roles_of(live.target(), i), i.operands.as_slice())?;
    operands_admit(alloc, live, i, bound.as_slice())
}

/// Whether it is that of a REG_SEQUENCE.
fn is_reg_sequence(e: Effect) -> bool
    ensures { result ≡ is_reg_sequence e }
{
    matches!(e, Effect::RegSequence)
}

/// Whether it is that of an INSERT_SUBREG.
fn is_insert_subreg(e: Effect) -> bool
    ensures { result ≡ is_insert_subreg e }
{
    matches!(e, Effect::InsertSubreg)
}

/// Whether each copy that lowering makes of an instruction of this effect admits a register; its
/// operands are `d` and those behind it.
fn result_admits(
    alloc: Global,
    live: &LiveFunc,
    i: &Instr,
    e: Effect,
    d: RegOp,
    behind: &[Operand],
) -> Result<bool, AllocError>
    ensures { IfOk result (λ yes. InOrder live.now.table → yes ≡ list_all (copy_solved live.now.target live.now.table) (effect_copies live.now.target live.now.func i.now (operands.Reg d ∷ behind.now) e)) }
{
    if is_phi(e) {
        return phi_admits(alloc, live, i.id, d, behind);
    }
    if is_reg_sequence(e) {
        return built_admits(alloc, live, i.id, d, behind, behind);
    }
    if behind.is_empty() {
        return ties_admit(alloc, live, i);
    }
    if is_insert_subreg(e) {
        return built_admits(alloc, live, i.id, d, behind, &behind[1..]);
    }
    ties_admit(alloc, live, i)
}

/// Whether each copy that lowering makes of an instruction of this effect admits a register.
fn effect_admits(alloc: Global, live: &LiveFunc, i: &Instr, e: Effect) -> Result<bool, AllocError>
    ensures { IfOk result (λ yes. InOrder live.now.table → yes ≡ list_all (copy_solved live.now.target live.now.table) (effect_copies live.now.target live.now.func i.now i.now.operands e)) }
{
    let operands = i.operands.as_slice();
    match register_at(operands, 0) {
        None => ties_admit(alloc, live, i),
        Some(d) => result_admits(alloc, live, i, e, d, &operands[1..]),
    }
}

/// Whether each copy that lowering makes of an instruction admits a register.
pub fn copies_admit(alloc: Global, live: &LiveFunc, i: &Instr) -> Result<bool, AllocError>
    ensures { IfOk result (λ yes. InOrder live.now.table → yes ≡ copies_solved live.now.target live.now.func live.now.table i.now) }
{
    match effect_of(live.target(), i) {
        None => Ok(true),
        Some(e) => effect_admits(alloc, live, i, e),
    }
}
