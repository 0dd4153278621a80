//! The cheapest eviction.

ghost use Rattle.std.specs.Prelude.{◌≡◌, ◌<◌, ◌+◌, ◌^◌, ◌&&◌, ℕ, true, false, not, nat_lt, map, length, find, option_map, is_none, IfOk, IfSome};
ghost use Rattle.std.specs.List.{list_all};
ghost use Rattle.interference.specs.Clashes.{IsOrdered, is_fixed, is_free};
ghost use Rattle.evictor.specs.Best.{best_with};
ghost use Rattle.evictor.specs.Settings.{ranking_of};
ghost use Rattle.evictor.specs.Hints.{assignment_of, copies_count};
ghost use Rattle.evictor.specs.Candidates.{candidates};
ghost use Rattle.evictor.specs.Cheapest.{is_tiny, cascade, number, weight, clashers, may_lose, qualifies, cheapest_of};
ghost use Rattle.evictor.specs.Settings.{Weighs, weight_in, setting_of, limit, is_within, cost_within, eviction_of, eviction_at, costs_less, answer_of, weighed, IsWeighed};

use crate::hints::candidates;
use crate::ranks::Ranks;
use crate::weights::{least_weight, weight_by};
use block_freq::Freqs;
use interference::{Clash, Matrix};
use std::alloc::{AllocError, Global};
use target_base::{Numbers, Reg};

/// The first of these registers that is free for a range.
#[tactic(auto, using(crate::proofs::Firsts::firsts))]
pub fn first_free(m: &Matrix, v: u32, found: &[Reg]) -> Option<Reg>
    ensures { IsOrdered m.now → result ≡ find (is_free m.now v) found.now }
{
    'candidates: for r in found {
        if m.free(v, *r) {
            return Some(*r);
        }
    }
    None
}

/// What an eviction for a range is asked by.
#[derive(Clone, Copy)]
pub struct EvictionQuery<'a> {
    /// The allocator of memory.
    pub alloc: Global,
    /// The function with what is live in it, and what the assigned ranges hold.
    pub m: &'a Matrix,
    /// The frequencies of blocks.
    pub freqs: &'a Freqs,
    /// The stages and cascade numbers of ranges.
    pub ranks: &'a Ranks,
    /// The range.
    pub range: u32,
    /// The number that the range compares with the cascades of those in its way.
    pub number: u32,
    /// Its weight, which those in the way must have less of; none where they need not.
    pub weight: Option<u128>,
}

/// A range and its weight, which was found before.
#[derive(Clone, Copy)]
struct RangeWeight {
    range: u32,
    weight: u128,
}

/// What is known of the ranges in the way in a register when one of them was looked at.
#[derive(Clone, Copy)]
struct EvictionCheck {
    /// Whether it may not lose its register.
    is_kept: bool,
    /// Its weight, where that was found and it may.
    known: Option<RangeWeight>,
}

/// A register and the ranges in the way there.
#[derive(Drop)]
pub struct Eviction {
    /// The register.
    pub register: Reg,
    /// The greatest weight of these.
    pub cost: u128,
    /// The ranges in the way, by their numbers.
    pub victims: Numbers,
}

/// Whether an eviction costs less than another, or as much with fewer victims.
fn costs_less(a: &Eviction, b: &Eviction) -> bool
    ensures { result ≡ costs_less a.now b.now }
{
    a.cost < b.cost || (a.cost == b.cost && a.victims.len() < b.victims.len())
}

/// The better of an eviction and the best one before it, where there are these.
fn best_with(found: Option<Eviction>, best: Option<Eviction>) -> Option<Eviction>
    ensures { result ≡ best_with costs_less found best }
{
    match found {
        None => best,
        Some(new) => match best {
            None => Some(new),
            Some(old) => {
                if costs_less(&new, &old) {
                    Some(new)
                } else {
                    Some(old)
                }
            }
        },
    }
}

/// What of an eviction is answered.
fn answer_of(best: Option<Eviction>) -> Option<(Reg, Numbers)>
    ensures { result ≡ answer_of best }
{
    match best {
        Some(
            Eviction {
                register,
                victims,
                ..
            },
        ) => Some((register, victims)),
        None => None,
    }
}

/// Whether a range in the way may lose its register, but for its weight.
fn may_lose(view: EvictionQuery<'_>, w: u32) -> bool
    ensures { result ≡ (not (is_tiny (ranking_of view.entry.ranks.now) w) && nat_lt (cascade (ranking_of view.entry.ranks.now) w) view.entry.number) }
{
    !view.ranks.is_tiny(w) && view.ranks.cascade(w) < view.number
}

/// Whether all ranges in the way may lose their registers, but for their weights.
#[tactic(auto, using(crate::proofs::Evicted::alls))]
fn all_may_lose(view: EvictionQuery<'_>, victims: &[u32]) -> bool
    ensures { result ≡ list_all (λ w. not (is_tiny (ranking_of view.entry.ranks.now) w) && nat_lt (cascade (ranking_of view.entry.ranks.now) w) view.entry.number) victims.now }
{
    'victims: for w in victims {
        if !may_lose(view, *w) {
            return false;
        }
    }
    true
}

/// Whether a weight is less than the limit, if there is one.
fn is_within(limit: Option<u128>, weight: u128) -> bool
    ensures { result ≡ is_within limit weight }
{
    match limit {
        None => true,
        Some(limit) => weight < limit,
    }
}

/// The weight of a range.
fn weight_of(view: EvictionQuery<'_>, w: u32) -> Result<u128, AllocError>
    ensures { IfOk result (λ own. Weighs view.entry.m.now.live.table view.entry.m.now.live.func view.entry.freqs.now view.entry.ranks.now.uses → own ≡ weight_in view.entry.m.now view.entry.freqs.now w) }
{
    let known = view.ranks.known_uses(w);
    let own = weight_by(view.alloc, view.m.live(), w, view.freqs, known)?;
    Ok(own)
}

/// The same, which may be known.
fn weight_or(
    view: EvictionQuery<'_>,
    w: u32,
    known: Option<RangeWeight>,
) -> Result<u128, AllocError>
    ensures { IfOk result (λ own. Weighs view.entry.m.now.live.table view.entry.m.now.live.func view.entry.freqs.now view.entry.ranks.now.uses
        → IfSome known (IsWeighed view.entry.m.now view.entry.freqs.now) → own ≡ weight_in view.entry.m.now view.entry.freqs.now w) }
{
    if let Some(known) = known {
        if known.range == w {
            return Ok(known.weight);
        }
    }
    let own = weight_of(view, w)?;
    Ok(own)
}

/// The greatest weight of ranges in the way, one of which may be known; none where one of them is too
/// heavy.
#[tactic(auto, using(crate::proofs::Evicted::costs))]
fn cost_of(
    view: EvictionQuery<'_>,
    victims: &[u32],
    known: Option<RangeWeight>,
) -> Result<Option<u128>, AllocError>
    ensures { IfOk result (λ cost. Weighs view.entry.m.now.live.table view.entry.m.now.live.func view.entry.freqs.now view.entry.ranks.now.uses
        → IfSome known (IsWeighed view.entry.m.now view.entry.freqs.now) → cost ≡ cost_within view.entry.weight (map (weight_in view.entry.m.now view.entry.freqs.now) victims.now)) }
{
    let mut cost = 0u128;
    'victims: for w in victims {
        let own = weight_or(view, *w, known)?;
        if !is_within(view.weight, own) {
            return Ok(None);
        }
        cost = cost.max(own);
    }
    Ok(Some(cost))
}

/// The eviction of these ranges at a cost, if there is one.
fn eviction_of(r: Reg, victims: Numbers, cost: Option<u128>) -> Option<Eviction>
    ensures { result ≡ option_map (eviction_of r victims) cost }
{
    match cost {
        Some(cost) => Some(Eviction {
            register: r,
            cost,
            victims,
        }),
        None => None,
    }
}

/// The eviction of these ranges, which are those in the way in a register, where they may be evicted.
fn try_eviction(
    view: EvictionQuery<'_>,
    r: Reg,
    victims: Numbers,
    known: Option<RangeWeight>,
) -> Result<Option<Eviction>, AllocError>
    ensures { IfOk result (λ found. Weighs view.entry.m.now.live.table view.entry.m.now.live.func view.entry.freqs.now view.entry.ranks.now.uses
        → IfSome known (IsWeighed view.entry.m.now view.entry.freqs.now)
        → view.entry.number ≡ number (ranking_of view.entry.ranks.now) view.entry.range
        → view.entry.weight ≡ limit (setting_of view.entry.m.now view.entry.freqs.now view.entry.ranks.now view.entry.range)
        → is_fixed view.entry.m.now view.entry.range r ≡ false
        → victims ≡ clashers (setting_of view.entry.m.now view.entry.freqs.now view.entry.ranks.now view.entry.range) r
        → found ≡ eviction_at (setting_of view.entry.m.now view.entry.freqs.now view.entry.ranks.now view.entry.range) r) }
{
    if !all_may_lose(view, victims.as_slice()) {
        return Ok(None);
    }
    let cost = cost_of(view, victims.as_slice(), known)?;
    Ok(eviction_of(r, victims, cost))
}

/// Whether the use sum of a range in the way alone says that it is too heavy, whatever points it has:
/// these take longer to count.
fn is_too_heavy(view: EvictionQuery<'_>, w: u32) -> bool
    ensures { result ≡ true → Weighs view.entry.m.now.live.table view.entry.m.now.live.func view.entry.freqs.now view.entry.ranks.now.uses
        → is_within view.entry.weight (weight_in view.entry.m.now view.entry.freqs.now w) ≡ false }
{
    match view.ranks.known_uses(w) {
        Some(uses) => !is_within(view.weight, least_weight(view.m.live(), uses)),
        None => false,
    }
}

/// The weight of a range in the way, where it may lose its register.
fn lost_weight(view: EvictionQuery<'_>, w: u32) -> Result<Option<u128>, AllocError>
    ensures keeps { IfOk result (λ own. Weighs view.entry.m.now.live.table view.entry.m.now.live.func view.entry.freqs.now view.entry.ranks.now.uses
        → view.entry.number ≡ number (ranking_of view.entry.ranks.now) view.entry.range
        → view.entry.weight ≡ limit (setting_of view.entry.m.now view.entry.freqs.now view.entry.ranks.now view.entry.range)
        → is_none own ≡ not (may_lose (setting_of view.entry.m.now view.entry.freqs.now view.entry.ranks.now view.entry.range) w)) }
    ensures weight { IfOk result (λ own. Weighs view.entry.m.now.live.table view.entry.m.now.live.func view.entry.freqs.now view.entry.ranks.now.uses
        → IfSome own (λ n. n ≡ weight_in view.entry.m.now view.entry.freqs.now w)) }
{
    if !may_lose(view, w) {
        return Ok(None);
    }
    if is_too_heavy(view, w) {
        return Ok(None);
    }
    let own = weight_of(view, w)?;
    if is_within(view.weight, own) {
        return Ok(Some(own));
    }
    Ok(None)
}

/// What is known of a range in the way that may lose its register at this weight, or may not.
fn way_of(range: u32, lost: Option<u128>) -> EvictionCheck
    ensures kept { result.is_kept ≡ is_none lost }
    ensures known { result.known ≡ option_map (weighed range) lost }
{
    match lost {
        None => EvictionCheck {
            is_kept: true,
            known: None,
        },
        Some(weight) => EvictionCheck {
            is_kept: false,
            known: Some(RangeWeight { range, weight }),
        },
    }
}

/// What is known of the range in the way that is found first. That it may not lose its register
/// mostly settles it, before all those in the way are found.
fn look(view: EvictionQuery<'_>, r: Reg) -> Result<EvictionCheck, AllocError>
    ensures kept { IfOk result (λ way. IsOrdered view.entry.m.now → Weighs view.entry.m.now.live.table view.entry.m.now.live.func view.entry.freqs.now view.entry.ranks.now.uses
        → view.entry.number ≡ number (ranking_of view.entry.ranks.now) view.entry.range
        → view.entry.weight ≡ limit (setting_of view.entry.m.now view.entry.freqs.now view.entry.ranks.now view.entry.range)
        → way.is_kept ≡ true → qualifies (setting_of view.entry.m.now view.entry.freqs.now view.entry.ranks.now view.entry.range) r ≡ false) }
    ensures known { IfOk result (λ way. Weighs view.entry.m.now.live.table view.entry.m.now.live.func view.entry.freqs.now view.entry.ranks.now.uses
        → IfSome way.known (IsWeighed view.entry.m.now view.entry.freqs.now)) }
{
    match view.m.some_clasher(view.range, r) {
        None => Ok(EvictionCheck {
            is_kept: false,
            known: None,
        }),
        Some(w) => {
            let lost = lost_weight(view, w)?;
            Ok(way_of(w, lost))
        }
    }
}

/// The eviction that gives the range a register, where it may take it.
pub fn eviction_at(view: EvictionQuery<'_>, r: Reg) -> Result<Option<Eviction>, AllocError>
    ensures { IfOk result (λ found. IsOrdered view.entry.m.now → Weighs view.entry.m.now.live.table view.entry.m.now.live.func view.entry.freqs.now view.entry.ranks.now.uses
        → view.entry.number ≡ number (ranking_of view.entry.ranks.now) view.entry.range
        → view.entry.weight ≡ limit (setting_of view.entry.m.now view.entry.freqs.now view.entry.ranks.now view.entry.range)
        → found ≡ eviction_at (setting_of view.entry.m.now view.entry.freqs.now view.entry.ranks.now view.entry.range) r) }
{
    let way = look(view, r)?;
    if way.is_kept {
        return Ok(None);
    }
    match view.m.clashers(view.range, r)? {
        Clash::Fixed => Ok(None),
        Clash::Ranges(victims) => {
            let found = try_eviction(view, r, victims, way.known)?;
            Ok(found)
        }
    }
}

/// The weight that those in the way of a range must have less of; none where it is a tiny.
fn limit(
    alloc: Global,
    m: &Matrix,
    v: u32,
    freqs: &Freqs,
    ranks: &Ranks,
) -> Result<Option<u128>, AllocError>
    ensures { IfOk result (λ most. Weighs m.now.live.table m.now.live.func freqs.now ranks.now.uses → most ≡ limit (setting_of m.now freqs.now ranks.now v)) }
{
    if ranks.is_tiny(v) {
        return Ok(None);
    }
    let own = weight_by(alloc, m.live(), v, freqs, ranks.known_uses(v))?;
    Ok(Some(own))
}

/// What an eviction for a range is asked by.
pub fn view_of<'a>(
    alloc: Global,
    m: &'a Matrix,
    v: u32,
    freqs: &'a Freqs,
    ranks: &'a Ranks,
) -> Result<EvictionQuery<'a>, AllocError>
    ensures given { IfOk result (λ view. (view.m.now ≡ m.now) × (view.freqs.now ≡ freqs.now) × (view.ranks.now ≡ ranks.now) × (view.range ≡ v)) }
    ensures number { IfOk result (λ view. ranks.now.greatest + 1 < 2 ^ 32 → view.number ≡ number (ranking_of ranks.now) v) }
    ensures weight { IfOk result (λ view. Weighs m.now.live.table m.now.live.func freqs.now ranks.now.uses → view.weight ≡ limit (setting_of m.now freqs.now ranks.now v)) }
{
    let number = ranks.number(v);
    let weight = limit(alloc, m, v, freqs, ranks)?;
    Ok(EvictionQuery {
        alloc,
        m,
        freqs,
        ranks,
        range: v,
        number,
        weight,
    })
}

/// What `cheapest` answers, where these are the candidates.
pub fn cheapest_of(
    alloc: Global,
    m: &Matrix,
    v: u32,
    freqs: &Freqs,
    ranks: &Ranks,
    found: &[Reg],
) -> Result<Option<(Reg, Numbers)>, AllocError>
    ensures { IfOk result (λ answer. IsOrdered m.now → Weighs m.now.live.table m.now.live.func freqs.now ranks.now.uses → ranks.now.greatest + 1 < 2 ^ 32
        → answer ≡ cheapest_of (setting_of m.now freqs.now ranks.now v) found.now) }
{
    let view = view_of(alloc, m, v, freqs, ranks)?;
    let mut best: Option<Eviction> = None;
    'candidates: for r in found {
        best = best_with(eviction_at(view, *r)?, best);
    }
    Ok(answer_of(best))
}

/// The register that a range takes from others, with these by their numbers: of those that it may
/// take, the one whose greatest weight in the way is least, then with the fewest ranges in the way,
/// then the first candidate. None exactly where it may take none.
pub fn cheapest(
    alloc: Global,
    m: &Matrix,
    v: u32,
    freqs: &Freqs,
    ranks: &Ranks,
) -> Result<Option<(Reg, Numbers)>, AllocError>
    ensures { IfOk result (λ answer. IsOrdered m.now → Weighs m.now.live.table m.now.live.func freqs.now ranks.now.uses → ranks.now.greatest + 1 < 2 ^ 32
        → copies_count m.now.live.target m.now.live.func.blocks ≡ true → length freqs.now ≡ length m.now.live.func.blocks
        → answer ≡ cheapest_of (setting_of m.now freqs.now ranks.now v) (candidates m.now.live.target m.now.live.func (assignment_of m.now) freqs.now v)) }
{
    let found = candidates(alloc, m, v, freqs)?;
    let answer = cheapest_of(alloc, m, v, freqs, ranks, found.as_slice())?;
    Ok(answer)
}
