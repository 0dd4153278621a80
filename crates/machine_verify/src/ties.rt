//! V11, V12 and V15: ties, definitions that are apart, and spill slots.

ghost use Rattle.std.specs.Prelude.{◌≡◌, ◌&&◌, ◌||◌, map, filter, filter_map, length, is_none, option_to_list, true, IfOk};
ghost use Rattle.std.specs.List.{list_all, list_any};
ghost use Rattle.std.specs.Option.{option_map_or};
ghost use Rattle.meaning.specs.Lanes.{same_lane};
ghost use Rattle.mir_func.specs.Binding as binding;
ghost use Rattle.mir_meaning.specs.Rules as rules;
ghost use Rattle.bound_operands.specs.Seen.{seen, seen_all};
ghost use Rattle.machine_verify.specs.Sets.{HoldsSlots, HoldsSlotsAmong};
ghost use Rattle.machine_verify.specs.Ties.{pair_fits, reading_besides, slot_fits, spill_numbers};

use crate::classes::same_widths;
use crate::lanes::has_lanes;
use crate::numbers::{NumberSet, set_of};
use crate::words::is_slot;
use bound_operands::{BoundOperand, tied_pair};
use instr_effects::items::lanes::{LaneList, push_operand_lanes};
use instr_effects::items::results::unreserved;
use meaning::Lane;
use mir_func::opcodes::{is_early, tied_number, ties_to};
use mir_func::operands::{is_virtual, same_index, same_loc};
use mir_func::{Func, Loc, Operand, RegOp};
use mir_meaning::Form;
use std::alloc::{AllocError, Global};
use target_base::{List, Role, Target};

/// Whether the tie that is written, if one is, is the role's.
fn written_tie_fits(role: Option<Role>, tie: Option<u8>) -> bool
    ensures { result ≡ (is_none tie || binding.passes (λ n. binding.passes (binding.ties_to n) role) tie) }
{
    match tie {
        None => true,
        Some(number) => ties_to(role, number as usize),
    }
}

/// Whether the tie and the `early-clobber` that are written are the opcode's.
fn flags_fit(b: &BoundOperand) -> bool
    ensures { result ≡ rules.flags_fit (seen b.now) }
{
    match b.operand {
        Operand::Reg(o) => { (!o.early || is_early(b.role)) && written_tie_fits(b.role, o.tie) }
        _ => true,
    }
}

fn all_flags_fit(bound: &[BoundOperand]) -> bool
    ensures { result ≡ list_all rules.flags_fit (seen_all bound.now) }
{
    for b in bound {
        if !flags_fit(b) {
            return false;
        }
    }
    true
}

/// Whether a tied pair is two virtual operands of equal widths, or one fixed register; of an
/// allocated function, one register.
fn tie_fits(
    alloc: Global,
    target: &Target,
    form: Form,
    f: &Func,
    d: &RegOp,
    u: &RegOp,
) -> Result<bool, AllocError>
    ensures { IfOk result (λ is_right. is_right ≡ rules.tie_fits target.now form f.now d.now u.now) }
{
    match form {
        Form::Source => {
            if is_virtual(d.loc) && is_virtual(u.loc) {
                same_widths(alloc, target, f, d, u)
            } else {
                Ok(same_loc(d.loc, u.loc))
            }
        }
        Form::Allocated => Ok(same_loc(d.loc, u.loc) && same_index(d.index, u.index)),
    }
}

/// Whether the operand, where its role is tied, fits the definition to which it is tied.
fn pair_fits(
    alloc: Global,
    target: &Target,
    form: Form,
    f: &Func,
    operands: &[Operand],
    b: &BoundOperand,
) -> Result<bool, AllocError>
    ensures { IfOk result (λ is_right. is_right ≡ option_map_or (pair_fits target.now form f.now) (binding.tied_pair operands.now (seen b.now)) true) }
{
    match tied_pair(operands, *b) {
        None => Ok(true),
        Some(p) => tie_fits(alloc, target, form, f, &p.definition, &p.tied_use),
    }
}

#[tactic(auto, using(crate::proofs::Apart::made_step))]
fn all_pairs_fit(
    alloc: Global,
    target: &Target,
    form: Form,
    f: &Func,
    operands: &[Operand],
    bound: &[BoundOperand],
) -> Result<bool, AllocError>
    ensures { IfOk result (λ is_right. is_right ≡ list_all (pair_fits target.now form f.now) (filter_map (binding.tied_pair operands.now) (seen_all bound.now))) }
{
    for b in bound {
        if !pair_fits(alloc, target, form, f, operands, b)? {
            return Ok(false);
        }
    }
    Ok(true)
}

/// V11: whether written ties and early-clobber flags are the opcode's, and each tied pair fits.
pub(crate) fn ties_fit(
    alloc: Global,
    target: &Target,
    form: Form,
    f: &Func,
    operands: &[Operand],
    bound: &[BoundOperand],
) -> Result<bool, AllocError>
    ensures { IfOk result (λ is_right. is_right ≡ (list_all rules.flags_fit (seen_all bound.now) && list_all (pair_fits target.now form f.now) (filter_map (binding.tied_pair operands.now) (seen_all bound.now)))) }
{
    if !all_flags_fit(bound) {
        return Ok(false);
    }
    all_pairs_fit(alloc, target, form, f, operands, bound)
}

/// How many operands other than `undef` uses name the register.
fn namings(named: &[RegOp], loc: Loc) -> usize
    ensures { result ≡ length (filter (λ o. binding.same_loc o.loc loc) (rules.namings named.now)) }
{
    let naming = named.iter().filter(|o| o.def || !o.undef);
    naming.filter(|o| same_loc(o.loc, loc)).count()
}

/// Whether an `undef` definition is virtual and nothing else names its register; of an allocated
/// function, whether the definition isn't `undef`.
fn undef_fits(form: Form, named: &[RegOp], d: &RegOp) -> bool
    ensures { result ≡ rules.undef_fits form named.now d.now }
{
    match form {
        Form::Source => !d.undef || (is_virtual(d.loc) && namings(named, d.loc) <= 1),
        Form::Allocated => !d.undef,
    }
}

/// Whether each `undef` definition is virtual and nothing else names its register; of an allocated
/// function, whether no definition is `undef`.
pub(crate) fn undefs_fit(form: Form, named: &[RegOp]) -> bool
    ensures { result ≡ list_all (rules.undef_fits form named.now) (filter (λ o. o.def) named.now) }
{
    for d in named {
        if d.def && !undef_fits(form, named, d) {
            return false;
        }
    }
    true
}

/// The lanes of an operand: none where they aren't known.
fn known_lanes(alloc: Global, target: &Target, f: &Func, o: &RegOp) -> Result<LaneList, AllocError>
    ensures { IfOk result (λ made. made ≡ rules.defined_lanes target.now f.now true o.now) }
{
    let mut lanes = List::new(alloc);
    if has_lanes(target, f, o) {
        push_operand_lanes(&mut lanes, target, f, o)?;
    }
    Ok(lanes)
}

/// The lanes of an operand that count for clashes: none where they aren't known.
fn clashing_lanes(
    alloc: Global,
    target: &Target,
    f: &Func,
    o: &RegOp,
) -> Result<LaneList, AllocError>
    ensures { IfOk result (λ made. made ≡ rules.clashing_lanes target.now f.now o.now) }
{
    let lanes = known_lanes(alloc, target, f, o)?;
    unreserved(alloc, target, lanes.as_slice())
}

/// The lanes of a definition that count for clashes with others: of an opaque instruction reserved
/// ones too.
fn defined_lanes(
    alloc: Global,
    target: &Target,
    f: &Func,
    opaque: bool,
    d: &RegOp,
) -> Result<LaneList, AllocError>
    ensures { IfOk result (λ made. made ≡ rules.defined_lanes target.now f.now opaque d.now) }
{
    if opaque {
        known_lanes(alloc, target, f, d)
    } else {
        clashing_lanes(alloc, target, f, d)
    }
}

/// Whether two lanes are one.
pub fn same_lane(a: Lane, b: Lane) -> bool
    ensures { result ≡ same_lane a b }
{
    match (a, b) {
        (Lane::VirtualLane(v, k), Lane::VirtualLane(w, l)) => v == w && k == l,
        (Lane::UnitLane(u), Lane::UnitLane(w)) => u == w,
        (Lane::SlotLane(s, k, x), Lane::SlotLane(t, l, y)) => s == t && (k == l && x == y),
        _ => false,
    }
}

fn has_lane(ms: &[Lane], l: Lane) -> bool
    ensures { result ≡ list_any (same_lane l) ms.now }
{
    ms.iter().any(|m| same_lane(l, *m))
}

/// Whether the lists have a lane in common.
fn share_a_lane(ls: &[Lane], ms: &[Lane]) -> bool
    ensures { result ≡ rules.share_a_lane ls.now ms.now }
{
    ls.iter().any(|l| has_lane(ms, *l))
}

/// The lanes of each definition that count for clashes with others.
fn lanes_of_definitions(
    alloc: Global,
    target: &Target,
    f: &Func,
    opaque: bool,
    named: &[RegOp],
) -> Result<Vec<LaneList>, AllocError>
    ensures { IfOk result (λ made. made.items ≡ map (rules.defined_lanes target.now f.now opaque) (filter (λ o. o.def) named.now)) }
{
    let mut made = Vec::new(alloc);
    for o in named {
        if o.def {
            made.push(defined_lanes(alloc, target, f, opaque, o)?)?;
        }
    }
    Ok(made)
}

fn shares_with_some(ls: &[Lane], lists: &[LaneList]) -> bool
    ensures { result ≡ list_any (rules.share_a_lane ls.now) lists.now }
{
    lists.iter().any(|ms| share_a_lane(ls, ms.as_slice()))
}

/// Whether no two of these lists have a lane in common.
fn no_two_share(lists: &[LaneList]) -> bool
    ensures { result ≡ rules.no_two_share lists.now }
{
    let mut rest = lists;
    'lists: while let [ls, more @ ..] = rest {
        if shares_with_some(ls.as_slice(), more) {
            return false;
        }
        rest = more;
    }
    true
}

/// The operand, if it reads something besides a use that is tied to the definition of that number.
fn reading_besides(number: usize, b: &BoundOperand) -> Option<RegOp>
    ensures { result ≡ reading_besides number (seen b.now) }
{
    match b.operand {
        Operand::Reg(o) => {
            if !ties_to(b.role, number) && !o.def && !o.undef {
                Some(*o)
            } else {
                None
            }
        }
        _ => None,
    }
}

/// Whether an operand reads one of these lanes, and isn't tied to the definition of that number.
fn reads_one(
    alloc: Global,
    target: &Target,
    f: &Func,
    lanes: &[Lane],
    number: usize,
    b: &BoundOperand,
) -> Result<bool, AllocError>
    ensures { IfOk result (λ is_read. is_read ≡ list_any (λ u. rules.share_a_lane lanes.now (rules.clashing_lanes target.now f.now u)) (option_to_list (reading_besides number (seen b.now)))) }
{
    match reading_besides(number, b) {
        None => Ok(false),
        Some(u) => {
            let read = clashing_lanes(alloc, target, f, &u)?;
            Ok(share_a_lane(lanes, read.as_slice()))
        }
    }
}

/// Whether these lanes are among those that are read besides the use that is tied to the
/// definition of that number.
#[tactic(auto, using(crate::proofs::Apart::besides_any))]
fn are_read(
    alloc: Global,
    target: &Target,
    f: &Func,
    lanes: &[Lane],
    number: usize,
    bound: &[BoundOperand],
) -> Result<bool, AllocError>
    ensures { IfOk result (λ is_read. is_read ≡ list_any (λ u. rules.share_a_lane lanes.now (rules.clashing_lanes target.now f.now u)) (rules.readings_besides number (seen_all bound.now))) }
{
    for b in bound {
        if reads_one(alloc, target, f, lanes, number, b)? {
            return Ok(true);
        }
    }
    Ok(false)
}

/// Whether an early-clobber definition of that number shares nothing with what is read besides the
/// use that is tied to it.
fn early_fits(
    alloc: Global,
    target: &Target,
    f: &Func,
    bound: &[BoundOperand],
    number: usize,
    b: &BoundOperand,
) -> Result<bool, AllocError>
    ensures { IfOk result (λ is_right. is_right ≡ rules.early_fits target.now f.now (seen_all bound.now) (number, seen b.now)) }
{
    match b.operand {
        Operand::Reg(d) => {
            if !is_early(b.role) {
                return Ok(true);
            }
            let lanes = clashing_lanes(alloc, target, f, d)?;
            let is_read = are_read(alloc, target, f, lanes.as_slice(), number, bound)?;
            Ok(!is_read)
        }
        _ => Ok(true),
    }
}

/// Whether early-clobber definitions share nothing with what is read, the uses tied to them aside.
pub(crate) fn all_early_fit(
    alloc: Global,
    target: &Target,
    f: &Func,
    bound: &[BoundOperand],
) -> Result<bool, AllocError>
    ensures { IfOk result (λ is_right. is_right ≡ list_all (rules.early_fits target.now f.now (seen_all bound.now)) (binding.numbered 0 (seen_all bound.now))) }
{
    for (number, b) in bound.iter().enumerate() {
        if !early_fits(alloc, target, f, bound, number, b)? {
            return Ok(false);
        }
    }
    Ok(true)
}

/// Whether no two definitions share a lane; of an opaque instruction, no reserved unit either.
pub(crate) fn are_apart(
    alloc: Global,
    target: &Target,
    f: &Func,
    opaque: bool,
    named: &[RegOp],
) -> Result<bool, AllocError>
    ensures { IfOk result (λ is_right. is_right ≡ rules.no_two_share (map (rules.defined_lanes target.now f.now opaque) (filter (λ o. o.def) named.now))) }
{
    let lists = lanes_of_definitions(alloc, target, f, opaque, named)?;
    Ok(no_two_share(lists.as_slice()))
}

fn has_early_definition(bound: &[BoundOperand]) -> bool
    ensures { result ≡ list_any rules.is_early_definition (seen_all bound.now) }
{
    for b in bound {
        if is_early(b.role) {
            return true;
        }
    }
    false
}

/// Whether the operand is an `undef` use that isn't tied.
fn is_free_undef(b: &BoundOperand) -> bool
    ensures { result ≡ rules.is_free_undef (seen b.now) }
{
    match b.operand {
        Operand::Reg(o) => !o.def && o.undef && tied_number(b.role).is_none(),
        _ => false,
    }
}

fn has_free_undef(bound: &[BoundOperand]) -> bool
    ensures { result ≡ list_any rules.is_free_undef (seen_all bound.now) }
{
    for b in bound {
        if is_free_undef(b) {
            return true;
        }
    }
    false
}

/// Whether an opaque instruction with an early-clobber definition has no `undef` use but tied ones. (A
/// machine may forbid what the register of another one could be.)
pub(crate) fn undef_uses_fit(opaque: bool, bound: &[BoundOperand]) -> bool
    ensures { result ≡ rules.undef_uses_fit opaque (seen_all bound.now) }
{
    !(opaque && has_early_definition(bound) && has_free_undef(bound))
}

/// The numbers of the frame objects that are declared spill slots.
fn spill_numbers(alloc: Global, frames: &[(u32, bool)]) -> Result<Vec<u32>, AllocError>
    ensures { IfOk result (λ made. made.items ≡ spill_numbers frames.now) }
{
    let mut made = Vec::new(alloc);
    for o in frames {
        if o.1 {
            made.push(o.0)?;
        }
    }
    Ok(made)
}

/// The set of the numbers of spill slots.
fn slots_among(alloc: Global, frames: &[(u32, bool)]) -> Result<NumberSet, AllocError>
    ensures { IfOk result (λ set. HoldsSlotsAmong set frames.now) }
{
    let numbers = spill_numbers(alloc, frames)?;
    let set = set_of(alloc, numbers.as_slice())?;
    Ok(set)
}

/// The set of the numbers of the function's spill slots.
pub(crate) fn spill_slots(alloc: Global, f: &Func) -> Result<NumberSet, AllocError>
    ensures { IfOk result (λ set. HoldsSlots set f.now) }
{
    slots_among(alloc, f.frames.as_slice())
}

/// Whether a `slot` operand names a spill slot, and no other operand does.
fn slot_fits(slots: &NumberSet, b: &BoundOperand) -> bool
    ensures { result ≡ slot_fits slots.now (seen b.now) }
{
    match b.operand {
        Operand::Stack(n) => is_slot(b.role) == slots.has(*n),
        _ => !is_slot(b.role),
    }
}

/// Whether slots and spill slots go together.
pub(crate) fn slots_fit(slots: &NumberSet, bound: &[BoundOperand]) -> bool
    ensures { result ≡ list_all (slot_fits slots.now) (seen_all bound.now) }
{
    for b in bound {
        if !slot_fits(slots, b) {
            return false;
        }
    }
    true
}

fn has_spill_slot(frames: &[(u32, bool)]) -> bool
    ensures { result ≡ list_any (λ o. o.1) frames.now }
{
    frames.iter().any(|o| o.1)
}

/// V15 of the frame: whether the source has no spill slot.
#[tactic(auto, unfolding(mir_meaning::specs::Rules::V15_frame))]
pub(crate) fn v15_frame(form: Form, f: &Func) -> bool
    ensures { result ≡ rules.V15_frame form f.now }
{
    match form {
        Form::Source => !has_spill_slot(f.frames.as_slice()),
        Form::Allocated => true,
    }
}
