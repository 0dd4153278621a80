//! What a chosen register leaves for the variables behind it.

ghost use Rattle.std.specs.Prelude.{◌≡◌, ◌++◌, ◌∷◌, [], IfOk, OnOk, filter, length, map, not, true};
ghost use Rattle.mir_meaning.specs.Places.{choices, share_a_unit};
ghost use Rattle.place_solve.specs.Choice.{use_of, need_of, stands_beside, narrowed};

use crate::variables::{Variable, VariableKind};
use std::alloc::{AllocError, Global};
use target_base::registers::has_unit;
use target_base::{List, Reg, Regs, Target};

/// Registers for some variables of a place, a list for each.
pub(crate) type Domains = List<Regs>;

/// Whether two registers share a unit.
fn share_a_unit(target: &Target, a: Reg, b: Reg) -> bool
    ensures { result ≡ share_a_unit target.now a b }
{
    let own = target.units_at(a);
    target.units_at(b).iter().any(|u| has_unit(own, *u))
}

/// Whether a variable of this kind may not lie in `r` beside `w` in `q`.
pub(crate) fn clashes(target: &Target, w: Variable, q: Reg, kind: VariableKind, r: Reg) -> bool
    ensures { result ≡ not (stands_beside target.now (use_of kind) r (need_of w, q)) }
{
    w.kind.must_be_apart(kind) && share_a_unit(target, q, r)
}

/// Puts `r` behind the registers that are left, if a variable of this kind may lie in it beside `w` in
/// `q`.
fn push_left(
    made: &mut Regs,
    target: &Target,
    w: Variable,
    q: Reg,
    kind: VariableKind,
    r: Reg,
) -> Result<(), AllocError>
    ensures { OnOk result (made.new ≡ made.old ++ filter (λ p. stands_beside target.now (use_of kind) p (need_of w, q)) (r ∷ [])) }
{
    if !clashes(target, w, q, kind, r) {
        made.push(r)?;
    }
    Ok(())
}

/// The registers of a list that a variable of this kind may lie in beside `w` in `q`.
#[tactic(auto, using(crate::proofs::Units::filters))]
fn left_of(
    alloc: Global,
    target: &Target,
    w: Variable,
    q: Reg,
    kind: VariableKind,
    regs: &[Reg],
) -> Result<Regs, AllocError>
    ensures { IfOk result (λ made. made ≡ filter (λ p. stands_beside target.now (use_of kind) p (need_of w, q)) regs.now) }
{
    let mut made = List::new(alloc);
    'each: for r in regs {
        push_left(&mut made, target, w, q, kind, *r)?;
    }
    Ok(made)
}

/// What `w` in `q` leaves for the variables behind it.
pub(crate) fn prune(
    alloc: Global,
    target: &Target,
    w: Variable,
    q: Reg,
    behind: &[Variable],
    left: &[Regs],
) -> Result<Domains, AllocError>
    requires { length left.now ≡ length behind.now }
    ensures { IfOk result (λ made. made ≡ narrowed target.now (need_of w, q) (map need_of behind.now) left.now) }
{
    let mut made = List::new(alloc);
    'each: for k in 0..left.len() {
        let here = left[k].as_slice();
        let regs = left_of(alloc, target, w, q, behind[k].kind, here)?;
        made.push(regs)?;
    }
    Ok(made)
}

/// Whether a variable has no register left. True only where there is no choice for that.
pub(crate) fn has_none(left: &[Regs]) -> bool
    ensures { result ≡ true → choices left.now ≡ [] }
{
    'each: for k in 0..left.len() {
        if left[k].len() == 0 {
            return true;
        }
    }
    false
}
