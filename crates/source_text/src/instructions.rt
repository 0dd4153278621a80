//! Which instructions of an allocated function keep the flags and the tail of one of the source.

ghost use Rattle.std.specs.Prelude.{◌≡◌, option_map};
ghost use Rattle.std.specs.List.{list_any};
ghost use Rattle.target_base.specs.Storage.{same_numbers};
ghost use Rattle.mir_func.specs.Binding.{does};
ghost use Rattle.mir_meaning.specs.Agreement.{same_op, is_counted};
ghost use Rattle.source_text.specs.Instructions.{same_words, has_words, is_move, may_become, stands_for, must_stand, behind, keep_instrs};

use mir_func::opcodes::effect_of;
use mir_func::{Instr, Op};
use target_base::roles::is_silent;
use target_base::{Boxed, Effect, Target};

/// Whether two texts are one.
pub(crate) fn same_text(a: &[u8], b: &[u8]) -> bool
    ensures { result ≡ same_numbers a.now b.now }
{
    a == b
}

/// Whether two instructions have the same flags and the same tail.
fn same_words(i: &Instr, x: &Instr) -> bool
    ensures { result ≡ same_words i.now x.now }
{
    same_text(i.flags.as_slice(), x.flags.as_slice())
        && same_text(i.tail.as_slice(), x.tail.as_slice())
}

/// Whether an instruction has flags or a tail.
fn has_words(i: &Instr) -> bool
    ensures { result ≡ has_words i.now }
{
    0 < i.flags.len() || 0 < i.tail.len()
}

/// Whether the effect only moves values, or makes lanes undefined.
fn is_move(e: Effect) -> bool
    ensures { result ≡ is_move e }
{
    match e {
        Effect::Copy
        | Effect::Phi
        | Effect::ImplicitDef
        | Effect::RegSequence
        | Effect::InsertSubreg
        | Effect::Spill
        | Effect::Reload => true,
        _ => false,
    }
}

fn moves(target: &Target, i: &Instr) -> bool
    ensures { result ≡ does is_move target.now i.now }
{
    match effect_of(target, i) {
        None => false,
        Some(e) => is_move(e),
    }
}

/// Whether an instruction counts in a run.
fn is_counted(target: &Target, i: &Instr) -> bool
    ensures { result ≡ is_counted target.now i.now }
{
    match effect_of(target, i) {
        None => false,
        Some(e) => !is_silent(e),
    }
}

fn same_op(a: &Op, b: &Op) -> bool
    ensures { result ≡ same_op a.now b.now }
{
    match (a, b) {
        (Op::Known(x), Op::Known(y)) => x.0 == y.0,
        (Op::Excluded(x), Op::Excluded(y)) => same_text(x.as_slice(), y.as_slice()),
        _ => false,
    }
}

/// Whether an instruction may be another one in its place behind allocation.
fn may_become(target: &Target, i: &Instr, x: &Instr) -> bool
    ensures { result ≡ may_become target.now i.now x.now }
{
    same_op(&i.op, &x.op) || (moves(target, i) && moves(target, x))
}

/// Whether an instruction of the allocated function stands for one of the source.
fn stands_for(target: &Target, i: &Instr, x: &Instr) -> bool
    ensures { result ≡ stands_for target.now i.now x.now }
{
    may_become(target, i, x) && same_words(i, x)
}

/// Whether an instruction of the allocated function must stand for one of the source.
fn must_stand(target: &Target, x: &Instr) -> bool
    ensures { result ≡ must_stand target.now x.now }
{
    is_counted(target, x) || has_words(x)
}

/// What stands behind the first instruction for which the other one stands, where silent ones alone
/// are passed over.
fn behind<'a>(target: &Target, instrs: &'a [Boxed<Instr>], x: &Instr) -> Option<&'a [Boxed<Instr>]>
    ensures { option_map (λ r. r.now) result ≡ behind target.now instrs.now x.now }
{
    'instrs: for k in 0..instrs.len() {
        let i = instrs[k].get();
        if stands_for(target, i, x) {
            return Some(&instrs[k + 1..]);
        }
        if is_counted(target, i) {
            return None;
        }
    }
    None
}

fn have_counted(target: &Target, instrs: &[Boxed<Instr>]) -> bool
    ensures { result ≡ list_any (is_counted target.now) instrs.now }
{
    instrs.iter().any(|i| is_counted(target, i.get()))
}

/// Whether instructions of the allocated function keep the flags and the tails of the source's.
pub(crate) fn keep_instrs(target: &Target, instrs: &[Boxed<Instr>], others: &[Boxed<Instr>]) -> bool
    ensures { result ≡ keep_instrs target.now instrs.now others.now }
{
    let mut left = instrs;
    'others: for x in others {
        let x = x.get();
        if must_stand(target, x) {
            match behind(target, left, x) {
                None => return false,
                Some(rest) => left = rest,
            }
        }
    }
    !have_counted(target, left)
}
