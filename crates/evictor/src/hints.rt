//! The registers that a range may have, the hinted one first.

ghost use Rattle.std.specs.Prelude.{◌≡◌, ◌++◌, ◌∷◌, [], ℕ, true, not, filter, length, option_map, IfOk, OnOk};
ghost use Rattle.std.specs.Option.{option_to_list};
ghost use Rattle.target_base.specs.Rules.{regs_of_some};
ghost use Rattle.target_base.specs.Storage.{holds_reg};
ghost use Rattle.mir_func.specs.declared.func.Instr.{Instr as Instruction};
ghost use Rattle.mir_func.specs.Binding.{class_of};
ghost use Rattle.mir_meaning.specs.Places.{domain};
ghost use Rattle.live_lanes.specs.Touching.{FindsInstrs};
ghost use Rattle.live_lanes.specs.Tells.{TellsInstrs};
ghost use Rattle.evictor.specs.Spots.{IsSpot};
ghost use Rattle.evictor.specs.Best.{best_with};
ghost use Rattle.evictor.specs.Hints.{assignment_of, copies_count, hint_at, is_more_frequent, is_other, follows};
ghost use Rattle.evictor.specs.Candidates.{register_of, other_side, if_among, hinted, all_hints, most_frequent, candidates};

use crate::weights::frequency_at;
use block_freq::{Freqs, is_range};
use interference::Matrix;
use live_lanes::LiveFunc;
use mir_func::opcodes::is_copy;
use mir_func::operands::class_of;
use mir_func::{Instr, Loc, Operand};
use std::alloc::{AllocError, Global};
use target_base::classes::{holds, regs_at};
use target_base::{ClassId, Reg, Target};

/// The other side of a copy of the whole of a range from or to the whole of a register.
fn other_side(instr: &Instr, v: u32) -> Option<Loc>
    ensures { result ≡ other_side v instr.now.operands }
{
    let [Operand::Reg(to), Operand::Reg(from), ..] = instr.operands.as_slice() else {
        return None;
    };
    if to.index.is_some() || from.index.is_some() {
        return None;
    }
    if is_range(to, v) {
        return Some(from.loc);
    }
    if is_range(from, v) {
        Some(to.loc)
    } else {
        None
    }
}

/// The register of a side of a copy, where it has one.
fn register_of(m: &Matrix, loc: Loc) -> Option<Reg>
    ensures { result ≡ register_of (assignment_of m.now) loc }
{
    match loc {
        Loc::Fixed(r) => Some(r),
        Loc::Virtual(w) => m.register_of(w),
    }
}

/// Whether a register is an unreserved one of a class.
#[tactic(auto, using(crate::proofs::Domains::held))]
fn is_candidate(target: &Target, class: Option<ClassId>, r: Reg) -> bool
    ensures { result ≡ holds_reg (domain target.now class) r }
{
    if !target.is_unreserved(r) {
        return false;
    }
    holds(regs_at(target.classes.as_slice(), class), r)
}

/// The registers of the class of a range, in class order; none where it has no class.
fn own_regs(live: &LiveFunc, v: u32) -> &[Reg]
    ensures { result.now ≡ regs_of_some live.now.target.classes (class_of live.now.func v) }
{
    regs_at(live.target().classes.as_slice(), class_of(live.func(), v))
}

/// The register, if a range may have it.
fn if_candidate(m: &Matrix, v: u32, found: Option<Reg>) -> Option<Reg>
    ensures { result ≡ if_among (domain m.now.live.target (class_of m.now.live.func v)) found }
{
    let live = m.live();
    match found {
        None => None,
        Some(r) => {
            if is_candidate(live.target(), class_of(live.func(), v), r) {
                Some(r)
            } else {
                None
            }
        }
    }
}

/// The register that an instruction hints at for a range, if it is a copy that does.
fn hint_of_copy(m: &Matrix, v: u32, instr: &Instr) -> Option<Reg>
    ensures { result ≡ hinted m.now.live.target m.now.live.func (assignment_of m.now) v instr.now }
{
    if !is_copy(m.live().target(), instr) {
        return None;
    }
    match other_side(instr, v) {
        None => None,
        Some(loc) => if_candidate(m, v, register_of(m, loc)),
    }
}

/// What an instruction hints at, with the frequency of its block.
fn hint_at(m: &Matrix, v: u32, id: u32, freqs: &Freqs) -> Option<(u64, Reg)>
    ensures { FindsInstrs m.now.live.table m.now.live.func.blocks → (s : ℕ × Instruction) → IsSpot m.now.live.func.blocks s → s.1.id ≡ id
        → result ≡ hint_at m.now.live.target m.now.live.func (assignment_of m.now) freqs.now v s }
{
    let live = m.live();
    match live.instr(id) {
        None => None,
        Some(instr) => match hint_of_copy(m, v, instr) {
            None => None,
            Some(r) => Some((frequency_at(freqs, live.position_of(id)), r)),
        },
    }
}

/// The hint of the more frequent copy of two, and the earlier one at a tie.
fn best_with(found: Option<(u64, Reg)>, best: Option<(u64, Reg)>) -> Option<(u64, Reg)>
    ensures { result ≡ best_with is_more_frequent found best }
{
    match found {
        None => best,
        Some(hint) => match best {
            None => Some(hint),
            Some(old) => {
                if hint.0 > old.0 {
                    Some(hint)
                } else {
                    Some(old)
                }
            }
        },
    }
}

/// The register of a hint.
fn hinted_register(hint: Option<(u64, Reg)>) -> Option<Reg>
    ensures { result ≡ option_map (λ h. h.1) hint }
{
    match hint {
        None => None,
        Some(hint) => Some(hint.1),
    }
}

/// The register that the copies of a range hint at: of the most frequent one, and the first in
/// layout at a tie, whose other side has a register that is a candidate.
fn hint(alloc: Global, m: &Matrix, v: u32, freqs: &Freqs) -> Result<Option<Reg>, AllocError>
    ensures { IfOk result (λ q. TellsInstrs m.now.live.func m.now.live.table
        → copies_count m.now.live.target m.now.live.func.blocks ≡ true → length freqs.now ≡ length m.now.live.func.blocks
        → q ≡ option_map (λ h. h.1) (most_frequent (all_hints m.now.live.target m.now.live.func (assignment_of m.now) freqs.now v))) }
{
    let touched = m.live().touched(alloc, v)?;
    let mut best: Option<(u64, Reg)> = None;
    'touched: for id in touched.as_slice() {
        best = best_with(hint_at(m, v, *id, freqs), best);
    }
    Ok(hinted_register(best))
}

/// Whether a register isn't the one that stands first.
fn is_other(first: Option<Reg>, r: Reg) -> bool
    ensures { result ≡ is_other first r }
{
    match first {
        None => true,
        Some(q) => q.0 != r.0,
    }
}

/// Puts a register behind the others, if it is unreserved and isn't the one that stands first.
fn push_other(
    found: &mut Vec<Reg>,
    target: &Target,
    first: Option<Reg>,
    r: Reg,
) -> Result<(), AllocError>
    ensures { OnOk result (found.new.items ≡ found.old.items ++ filter (follows target.now first) (r ∷ [])) }
{
    if target.is_unreserved(r) && is_other(first, r) {
        found.push(r)?;
    }
    Ok(())
}

/// The list of a register, if there is one.
fn list_of(alloc: Global, first: Option<Reg>) -> Result<Vec<Reg>, AllocError>
    ensures { IfOk result (λ found. found.items ≡ option_to_list first) }
{
    let mut found = Vec::new(alloc);
    if let Some(r) = first {
        found.push(r)?;
    }
    Ok(found)
}

/// The registers that a range may have: the hint, and then the unreserved registers of its class in
/// class order.
#[tactic(auto, using(crate::proofs::Domains::followed))]
pub fn candidates(alloc: Global, m: &Matrix, v: u32, freqs: &Freqs) -> Result<Vec<Reg>, AllocError>
    ensures { IfOk result (λ found. TellsInstrs m.now.live.func m.now.live.table
        → copies_count m.now.live.target m.now.live.func.blocks ≡ true → length freqs.now ≡ length m.now.live.func.blocks
        → found.items ≡ candidates m.now.live.target m.now.live.func (assignment_of m.now) freqs.now v) }
{
    let live = m.live();
    let first = hint(alloc, m, v, freqs)?;
    let mut found = list_of(alloc, first)?;
    'regs: for r in own_regs(live, v) {
        push_other(&mut found, live.target(), first, *r)?;
    }
    Ok(found)
}
