//! The verdict on a source and an allocated function.

ghost use Rattle.std.specs.Prelude.{◌≡◌, IsTrue, IfOk, None, true, false};
ghost use Rattle.meaning.specs.Agree.{rows_hold};
ghost use Rattle.meaning.specs.Facts.{known_at_start};
ghost use Rattle.mir_meaning.specs.Agreement.{block_doubt, partner_doubt};
ghost use Rattle.mir_meaning.specs.Codes.{refines, given_of};
ghost use Rattle.alloc_check.specs.Bare.{AreSides};
ghost use Rattle.alloc_check.specs.Families.{HoldsWith, Decides};
ghost use Rattle.alloc_check.specs.Asking.{is_pair, counted_rows};
ghost use Rattle.alloc_check.specs.Doubt.{LacksAt, Lacking};
ghost use Rattle.alloc_check.specs.Verdict.{IfYes, IfNo, Judges, JudgesFacts, AreAlike, TellsUnlike};
ghost use Rattle.std.specs.List.{list_any};
ghost use Rattle.mir_meaning.specs.Valid.{names_virtual};

use crate::closed::{Family, needs_before};
use crate::doubts::{counted_place, entry_place, first_unlike};
use crate::family::{Shape, family_of, shape_of};
use crate::rows::rows_of;
use crate::settle::decide;
use crate::start::all_start;
use machine_verify::names_virtual;
use meaning::Row;
use mir_func::{Func, Place};
use std::alloc::{AllocError, Global};
use target_base::Target;

/// Whether an allocated function agrees with its source.
#[derive(Clone, Copy, Debug, PartialEq, Eq)]
pub enum Verdict {
    /// It does: it is right.
    Yes,
    /// It doesn't, by the checker's rules; the first place of the source in doubt, or of a fault in
    /// the allocated function.
    No(Place),
}

/// Whether the family shows that rows hold from the start of both functions. False says nothing.
fn holds(
    alloc: Global,
    t: &Target,
    f: &Func,
    g: &Func,
    rows: &[Row],
    family: &Family,
) -> Result<bool, AllocError>
    ensures { IfOk result (λ yes. IsTrue yes → rows_hold family.now rows.now (known_at_start (given_of t.now f.now) (given_of t.now g.now)) ≡ true) }
{
    match needs_before(alloc, family, rows)? {
        None => Ok(false),
        Some(needs) => Ok(all_start(t, f, g, needs.list(alloc)?.as_slice())),
    }
}

/// The first row that lacks a fact: with some family the rows before it have what they need, and with
/// none these and it.
fn first_lacking(
    alloc: Global,
    t: &Target,
    f: &Func,
    g: &Func,
    rows: &[Row],
) -> Result<usize, AllocError>
    requires { HoldsWith t.now f.now g.now rows.now → ⊥ }
    ensures { IfOk result (λ at. LacksAt t.now f.now g.now rows.now at) }
{
    let mut low: usize = 0;
    let mut high = rows.len();
    'halves: while high - low > 1 {
        let middle = low + (high - low) / 2;
        if decide(alloc, t, f, g, rows, middle)? {
            low = middle;
        } else {
            high = middle;
        }
    }
    Ok(low)
}

/// How many rows are pairs of counted instructions.
fn counted_rows(rows: &[Row]) -> usize
    ensures { result ≡ counted_rows rows.now }
{
    let mut count: usize = 0;
    for k in 0..rows.len() {
        if is_pair(&rows[k]) {
            count += 1;
        }
    }
    count
}

fn is_pair(row: &Row) -> bool
    ensures { result ≡ is_pair row.now }
{
    match row {
        Row::BothCounted(_, _, _, _, _, _, _) => true,
        _ => false,
    }
}

/// The place of the first counted instruction that lacks a fact.
fn lacking_place(
    alloc: Global,
    t: &Target,
    f: &Func,
    g: &Func,
    rows: &[Row],
) -> Result<Place, AllocError>
    requires { HoldsWith t.now f.now g.now rows.now → ⊥ }
    ensures { IfOk result (λ p. Lacking t.now f.now g.now rows.now p) }
{
    let at = first_lacking(alloc, t, f, g, rows)?;
    counted_place(alloc, t, f, counted_rows(&rows[..at]))
}

/// Whether the quick search finds a family with which rows hold from the start of both functions.
/// False says nothing.
pub(crate) fn finds(
    alloc: Global,
    t: &Target,
    f: &Func,
    g: &Func,
    rows: &[Row],
    shape: &Shape,
) -> Result<bool, AllocError>
    ensures { IfOk result (λ yes. IsTrue yes → HoldsWith t.now f.now g.now rows.now) }
{
    match family_of(alloc, t, f, g, rows, shape)? {
        None => Ok(false),
        Some(family) => holds(alloc, t, f, g, rows, &family),
    }
}

/// Whether rows hold with some family from the start of both functions. The quick search finds most
/// families, and where it finds none, the plain one decides.
fn have_family(
    alloc: Global,
    t: &Target,
    f: &Func,
    g: &Func,
    rows: &[Row],
    shape: &Shape,
) -> Result<bool, AllocError>
    ensures { IfOk result (Decides t.now f.now g.now rows.now) }
{
    if finds(alloc, t, f, g, rows, shape)? {
        return Ok(true);
    }
    decide(alloc, t, f, g, rows, rows.len())
}

/// Yes just where some family gives the rows what they need, and else the first instruction that lacks
/// a fact.
fn judge_rows(
    alloc: Global,
    t: &Target,
    f: &Func,
    g: &Func,
    rows: &[Row],
) -> Result<Verdict, AllocError>
    requires { AreSides t.now f.now g.now rows.now }
    ensures exact { IfOk result (Judges t.now f.now g.now rows.now) }
    ensures first { IfOk result (IfNo (Lacking t.now f.now g.now rows.now)) }
    ensures refines { IfOk result (IfYes (refines t.now f.now g.now)) }
{
    let shape = shape_of(alloc, rows)?;
    if have_family(alloc, t, f, g, rows, &shape)? {
        return Ok(Verdict::Yes);
    }
    Ok(Verdict::No(lacking_place(alloc, t, f, g, rows)?))
}

/// Whether the functions match, and a family of facts gives what is needed.
fn compare_functions(
    alloc: Global,
    target: &Target,
    source: &Func,
    allocated: &Func,
) -> Result<Verdict, AllocError>
    ensures alike { IfOk result (IfYes (AreAlike target.now source.now allocated.now)) }
    ensures refines { IfOk result (IfYes (refines target.now source.now allocated.now)) }
    ensures unlike { IfOk result (TellsUnlike target.now source.now allocated.now) }
    ensures facts { IfOk result (λ v. block_doubt target.now source.now allocated.now ≡ None → partner_doubt target.now source.now allocated.now ≡ None → JudgesFacts target.now source.now allocated.now v) }
{
    let _next = source.next_id;
    if let Some(place) = first_unlike(alloc, target, source, allocated)? {
        return Ok(Verdict::No(place));
    }
    match rows_of(alloc, target, source, allocated)? {
        None => Ok(Verdict::No(counted_place(alloc, target, source, 0)?)),
        Some(rows) => judge_rows(alloc, target, source, allocated, rows.as_slice()),
    }
}

/// Whether an allocated function agrees with its source, whoever made it: they match, and some
/// family of facts gives each pair of counted instructions what it needs. The allocated function
/// isn't asked to be valid. Yes says that it names no virtual register, that its blocks and counted
/// instructions match those of the source, and that it does all that the source does. Where it names no
/// virtual register and doesn't match, No comes with the first place at which it doesn't.
pub fn agree(
    alloc: Global,
    target: &Target,
    source: &Func,
    allocated: &Func,
) -> Result<Verdict, AllocError>
    ensures chosen { IfOk result (IfYes (list_any names_virtual allocated.now.blocks ≡ false)) }
    ensures alike { IfOk result (IfYes (AreAlike target.now source.now allocated.now)) }
    ensures refines { IfOk result (IfYes (refines target.now source.now allocated.now)) }
    ensures unlike { list_any names_virtual allocated.now.blocks ≡ false → IfOk result (TellsUnlike target.now source.now allocated.now) }
    ensures facts { list_any names_virtual allocated.now.blocks ≡ false → IfOk result (λ v. block_doubt target.now source.now allocated.now ≡ None → partner_doubt target.now source.now allocated.now ≡ None → JudgesFacts target.now source.now allocated.now v) }
{
    if names_virtual(allocated) {
        return Ok(Verdict::No(entry_place(source)));
    }
    compare_functions(alloc, target, source, allocated)
}
