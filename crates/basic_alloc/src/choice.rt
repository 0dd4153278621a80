//! The choice for a range: a free register, the register of lighter ranges, or neither.

ghost use Rattle.std.specs.Prelude.{◌≡◌, [], true, length, find, option_map, IfOk};
ghost use Rattle.interference.specs.Clashes.{IsOrdered};
ghost use Rattle.evictor.specs.Candidates.{candidates};
ghost use Rattle.evictor.specs.Cheapest.{number, qualifies};
ghost use Rattle.evictor.specs.Hints.{assignment_of, copies_count};
ghost use Rattle.evictor.specs.Settings.{Weighs, ranking_of, setting_of, limit, eviction};
ghost use Rattle.basic_alloc.specs.Basic.{HasNoCascades, choice_of};
ghost use Rattle.basic_alloc.specs.Settings.{ousting_by, basic_setting};

use crate::tinies::ranks_of;
use block_freq::Freqs;
use evictor::{Eviction, EvictionQuery, Ranks, candidates, eviction_at, first_free, view_of};
use interference::Matrix;
use std::alloc::{AllocError, Global};
use target_base::{Numbers, Reg, Target};

/// What is done for a range that waits for a register.
#[derive(Drop)]
pub enum Choice {
    /// It gets a register that is free for it.
    Take(Reg),
    /// The ranges in its way in a register lose it, and are spilled.
    Oust(Reg, Numbers),
    /// It gets none.
    Neither,
}

/// The first of these registers that the range may take from others, with those.
fn first_ousting(view: EvictionQuery<'_>, found: &[Reg]) -> Result<Option<Eviction>, AllocError>
    ensures { IfOk result (λ first. IsOrdered view.entry.m.now → Weighs view.entry.m.now.live.table view.entry.m.now.live.func view.entry.freqs.now view.entry.ranks.now.uses
        → view.entry.number ≡ number (ranking_of view.entry.ranks.now) view.entry.range
        → view.entry.weight ≡ limit (setting_of view.entry.m.now view.entry.freqs.now view.entry.ranks.now view.entry.range)
        → first ≡ option_map (eviction (setting_of view.entry.m.now view.entry.freqs.now view.entry.ranks.now view.entry.range))
        (find (qualifies (setting_of view.entry.m.now view.entry.freqs.now view.entry.ranks.now view.entry.range)) found.now)) }
{
    'candidates: for r in found {
        if let Some(ousting) = eviction_at(view, *r)? {
            return Ok(Some(ousting));
        }
    }
    Ok(None)
}

/// What is done where no register is free.
fn ousting_by(found: Option<Eviction>) -> Choice
    ensures { result ≡ ousting_by found }
{
    match found {
        Some(
            Eviction {
                register,
                victims,
                ..
            },
        ) => Choice::Oust(register, victims),
        None => Choice::Neither,
    }
}

/// The choice where no register is free.
fn oust(
    alloc: Global,
    m: &Matrix,
    v: u32,
    freqs: &Freqs,
    ranks: &Ranks,
    found: &[Reg],
) -> Result<Choice, AllocError>
    ensures { IfOk result (λ choice. IsOrdered m.now → Weighs m.now.live.table m.now.live.func freqs.now ranks.now.uses → HasNoCascades (ranking_of ranks.now)
        → choice ≡ ousting_by (option_map (eviction (setting_of m.now freqs.now ranks.now v)) (find (qualifies (setting_of m.now freqs.now ranks.now v)) found.now))) }
{
    let view = view_of(alloc, m, v, freqs, ranks)?;
    let first = first_ousting(view, found)?;
    Ok(ousting_by(first))
}

/// What `basic_choice` answers, where these are the candidates and no range has a cascade number.
pub fn choice_of(
    alloc: Global,
    m: &Matrix,
    v: u32,
    freqs: &Freqs,
    ranks: &Ranks,
    found: &[Reg],
) -> Result<Choice, AllocError>
    ensures { IfOk result (λ choice. IsOrdered m.now → Weighs m.now.live.table m.now.live.func freqs.now ranks.now.uses → HasNoCascades (ranking_of ranks.now)
        → choice ≡ choice_of (setting_of m.now freqs.now ranks.now v) found.now) }
{
    match first_free(m, v, found) {
        Some(r) => Ok(Choice::Take(r)),
        None => {
            let choice = oust(alloc, m, v, freqs, ranks, found)?;
            Ok(choice)
        }
    }
}

/// What the basic allocator does for an unassigned range, where these are the ranges that are tinies.
/// The range takes the first candidate that is free. Where none is, it takes the first in which only
/// ranges are in its way, none of them a tiny and, unless it is a tiny itself, each of lower weight:
/// these, by their numbers, are to be spilled.
pub fn basic_choice(
    alloc: Global,
    _target: &Target,
    m: &Matrix,
    v: u32,
    freqs: &Freqs,
    tinies: &Numbers,
) -> Result<Choice, AllocError>
    ensures { IfOk result (λ choice. IsOrdered m.now → Weighs m.now.live.table m.now.live.func freqs.now []
        → copies_count m.now.live.target m.now.live.func.blocks ≡ true → length freqs.now ≡ length m.now.live.func.blocks
        → choice ≡ choice_of (basic_setting m.now freqs.now tinies.now v) (candidates m.now.live.target m.now.live.func (assignment_of m.now) freqs.now v)) }
{
    let found = candidates(alloc, m, v, freqs)?;
    let ranks = ranks_of(alloc, m.live().func().classes.len(), tinies)?;
    let choice = choice_of(alloc, m, v, freqs, &ranks, found.as_slice())?;
    Ok(choice)
}
