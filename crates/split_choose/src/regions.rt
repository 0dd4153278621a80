//! Region splits: a part of the range lives in a register where that is free.

ghost use Rattle.std.specs.Prelude.{◌≡◌, ◌<◌, ◌≤◌, ◌*◌, ◌++◌, ◌∷◌, [], List, ℕ, Bool, true, false, filter, map, length, slice_get, slice_index_or, slice_set, cond, replicate, option_map, Some, IfOk, OnOk};
ghost use Rattle.std.specs.List.{sum_by, list_any, list_all};
ghost use Rattle.target_base.specs.Storage.{is_unreserved};
ghost use Rattle.mir_func.specs.Binding.{class_of};
ghost use Rattle.mir_meaning.specs.Places.{domain};
ghost use Rattle.split_choose.specs.declared.spans.Span.{Span as BlockSpan};
ghost use Rattle.split_choose.specs.declared.regions.InsidePart.{InsidePart as Where};
ghost use Rattle.live_lanes.specs.Ways.{successors};
ghost use Rattle.split_choose.specs.Bundles.{start_of, end_of, root_of, AreEarlier, AreBundles};
ghost use Rattle.split_choose.specs.Marks.{mark_at, marks_in};
ghost use Rattle.interference.specs.Clashes.{IsOrdered};
ghost use Rattle.split_choose.specs.Spans.{AreSpans, is_clear_in};
ghost use Rattle.split_choose.specs.Offers.{View as OfferView, least, region_offer};
ghost use Rattle.split_choose.specs.Seen.{ends_in_terminators, view_of, FindsPlaces, FindsPoints, FindsWays};
ghost use Rattle.split_choose.specs.Counted.{AreCounted};
ghost use Rattle.split_choose.specs.Parts.{IsReady, IsPart, IsBest, part_in, parts_of, marked, marks_of, marks_there};
ghost use Rattle.split_choose.specs.Regions.{capped, uses_of, span_cost, costs_of, inside_at, inside_in, ArePositions, AreOut, Sets};

use crate::bundles::{Bundles, end_of, start_of};
use crate::places::{block_at, gap_ids, places_of};
use crate::spans::{Span, is_alone, spans_of};
use block_freq::Freqs;
use interference::Matrix;
use live_lanes::{Labels, LiveFunc, Mark, Spot};
use mir_func::Gap;
use mir_func::operands::class_of;
use std::alloc::{AllocError, Global};
use target_base::classes::regs_at;
use target_base::{ClassId, Reg, Target};

/// Where in a block the part in the register lives.
#[derive(Clone, Copy, PartialEq, Eq)]
enum InsidePart {
    Nowhere,
    All,
    /// Up to the terminators.
    Start,
    /// From the block's first gap on.
    End,
}

/// The part in a register, block by block, and what it costs.
#[derive(Drop)]
struct RegionCandidate {
    register: Reg,
    insides: Vec<InsidePart>,
    cost: u128,
}

/// What is looked at for each register.
#[derive(Clone, Copy)]
pub(crate) struct RegionView<'a> {
    pub alloc: Global,
    pub m: &'a Matrix,
    pub v: u32,
    pub spans: &'a [Span],
    pub bundles: &'a Bundles,
}

/// Adds a register, if it isn't reserved.
fn add_unreserved(target: &Target, r: Reg, domain: &mut Vec<Reg>) -> Result<(), AllocError>
    ensures { OnOk result (domain.new.items ≡ domain.old.items ++ filter (is_unreserved target.now.reserved target.now.regs) (r ∷ [])) }
{
    if target.is_unreserved(r) {
        domain.push(r)?;
    }
    Ok(())
}

/// The unreserved registers of a class, in class order; none without a class.
#[tactic(auto, using(crate::proofs::Walks::filters))]
pub(crate) fn domain_of(
    alloc: Global,
    target: &Target,
    class: Option<ClassId>,
) -> Result<Vec<Reg>, AllocError>
    ensures { IfOk result (λ d. d.items ≡ domain target.now class) }
{
    let mut domain = Vec::new(alloc);
    'regs: for r in regs_at(target.classes.as_slice(), class) {
        add_unreserved(target, *r, &mut domain)?;
    }
    Ok(domain)
}

/// The region split of least cost that is offered to a range, with its register and its labels:
/// label 1 where the part in the register lives. None exactly where none is offered.
pub fn region(
    alloc: Global,
    m: &Matrix,
    v: u32,
    freqs: &Freqs,
) -> Result<Option<(Reg, Labels)>, AllocError>
    ensures { let target = m.now.live.target in let func = m.now.live.func in
        IfOk result (λ q. FindsPlaces target func m.now.live.table v → FindsPoints m.now → FindsWays func m.now.live.table → AreCounted func freqs.now v
        → (parents : List ℕ) × AreBundles (successors m.now.live.table.flow.items) parents × (q ≡ region_offer target func v (view_of m.now v parents) freqs.now)) }
{
    let bundles = Bundles::of(alloc, m.live())?;
    region_over(alloc, m, v, freqs, &bundles)
}

/// What `region` answers, where these are the bundles of the function.
pub fn region_over(
    alloc: Global,
    m: &Matrix,
    v: u32,
    freqs: &Freqs,
    bundles: &Bundles,
) -> Result<Option<(Reg, Labels)>, AllocError>
    ensures { let target = m.now.live.target in let func = m.now.live.func in
        IfOk result (λ q. AreEarlier bundles.now.parents.items → FindsPlaces target func m.now.live.table v → FindsPoints m.now → AreCounted func freqs.now v
        → q ≡ region_offer target func v (view_of m.now v bundles.now.parents.items) freqs.now) }
{
    let touched = m.live().touched(alloc, v)?;
    let places = places_of(alloc, m.live(), touched.as_slice())?;
    if places.len() < 2 {
        return Ok(None);
    }
    let spans = spans_of(alloc, m.live(), v, freqs, touched.as_slice())?;
    best_split(RegionView {
        alloc,
        m,
        v,
        spans: spans.as_slice(),
        bundles,
    })
}

/// The region split of least cost that is offered to a range over its blocks.
fn best_split(view: RegionView<'_>) -> Result<Option<(Reg, Labels)>, AllocError>
    ensures { let target = view.entry.m.now.live.target in let func = view.entry.m.now.live.func in let parents = view.entry.bundles.now.parents.items in
        IfOk result (λ q. (v : ℕ) (offers : OfferView) → IsReady view.entry.m.now parents view.entry.spans.now
        → list_all (λ b. ends_in_terminators target b.instrs) func.blocks ≡ true
        → q ≡ option_map (marked target func v offers (part_in view.entry.m.now view.entry.v parents view.entry.spans.now) view.entry.spans.now)
        (least (parts_of view.entry.m.now view.entry.v parents view.entry.spans.now (domain target (class_of func view.entry.v))))) }
{
    match best_offer(view)? {
        Some(offer) => label_candidate(view, &offer),
        None => Ok(None),
    }
}

/// The register of an offer with its labels.
fn label_candidate(
    view: RegionView<'_>,
    offer: &RegionCandidate,
) -> Result<Option<(Reg, Labels)>, AllocError>
    ensures { let target = view.entry.m.now.live.target in let func = view.entry.m.now.live.func in
        IfOk result (λ q. (v : ℕ) (offers : OfferView) (inside : BlockSpan → Where) → list_all (λ b. ends_in_terminators target b.instrs) func.blocks ≡ true
        → offer.now.insides.items ≡ map inside view.entry.spans.now → q ≡ Some (offer.now.register, marks_of target func v offers inside view.entry.spans.now)) }
{
    let labels = labels_of(view, offer)?;
    Ok(Some((offer.register, labels)))
}

/// What the range costs where it isn't split.
#[tactic(auto, using(crate::proofs::Sums::uses))]
pub(crate) fn all_uses(spans: &[Span]) -> u128
    ensures { result ≡ capped (uses_of spans.now) }
{
    let mut sum = 0u128;
    'spans: for span in spans {
        sum = sum.saturating_add(span.uses);
    }
    sum
}

/// The offer of least cost, the first in class order at a tie.
fn best_offer(view: RegionView<'_>) -> Result<Option<RegionCandidate>, AllocError>
    ensures { let parents = view.entry.bundles.now.parents.items in
        IfOk result (λ best. IsReady view.entry.m.now parents view.entry.spans.now → IsBest view.entry.m.now view.entry.v parents view.entry.spans.now
        (least (parts_of view.entry.m.now view.entry.v parents view.entry.spans.now (domain view.entry.m.now.live.target (class_of view.entry.m.now.live.func view.entry.v)))) best) }
{
    let live = view.m.live();
    let domain = domain_of(view.alloc, live.target(), class_of(live.func(), view.v))?;
    best_of(view, domain.as_slice())
}

/// The offer of least cost among those of registers, the first at a tie.
fn best_of(view: RegionView<'_>, registers: &[Reg]) -> Result<Option<RegionCandidate>, AllocError>
    ensures { let parents = view.entry.bundles.now.parents.items in
        IfOk result (λ best. IsReady view.entry.m.now parents view.entry.spans.now → IsBest view.entry.m.now view.entry.v parents view.entry.spans.now
        (least (parts_of view.entry.m.now view.entry.v parents view.entry.spans.now registers.now)) best) }
{
    let mut bound = all_uses(view.spans);
    let mut best: Option<RegionCandidate> = None;
    'registers: for register in registers {
        let offer = offer_of(view, *register)?;
        if offer.cost < bound {
            bound = offer.cost;
            best = Some(offer);
        }
    }
    Ok(best)
}

/// Whether a register is clear for the range in each block.
pub(crate) fn clear_blocks(view: RegionView<'_>, register: Reg) -> Result<Vec<bool>, AllocError>
    ensures { IfOk result (λ clear. IsOrdered view.entry.m.now → AreSpans view.entry.spans.now
        → clear.items ≡ map (is_clear_in view.entry.m.now view.entry.v register) view.entry.spans.now) }
{
    let mut clear = Vec::new(view.alloc);
    'spans: for span in view.spans {
        clear.push(is_alone(
            view.m,
            view.v,
            register,
            span.position,
            span.stretches.as_slice(),
        ))?;
    }
    Ok(clear)
}

/// Sets the flag of the bundle of a border.
fn forbid(view: RegionView<'_>, border: u32, outside: &mut Vec<bool>)
    ensures { outside.new.items ≡ slice_set outside.old.items (root_of view.entry.bundles.now.parents.items border) true }
{
    if let Some(place) = outside.get_mut(view.bundles.find(border) as usize) {
        *place = true;
    }
}

/// The number of borders.
fn border_count(live: &LiveFunc) -> usize
    ensures { length live.now.func.blocks < 2147483648 → result ≡ 2 * length live.now.func.blocks }
{
    live.func().blocks.len().saturating_mul(2)
}

/// So many flags that aren't set.
pub(crate) fn no_flags(alloc: Global, count: usize) -> Result<Vec<bool>, AllocError>
    ensures { IfOk result (λ flags. flags.items ≡ replicate count false) }
{
    Vec::from_elem(alloc, false, count)
}

/// The flag at a place.
pub(crate) fn flag_at(flags: &[bool], place: usize) -> bool
    ensures { result ≡ slice_index_or flags.now place false }
{
    flags.get(place).copied().unwrap_or(false)
}

/// For the border that stands for each bundle, whether the bundle is out: some block that has a
/// border of it at which the range is live isn't clear.
pub(crate) fn outside_of(view: RegionView<'_>, clear: &[bool]) -> Result<Vec<bool>, AllocError>
    ensures { IfOk result (λ flags. (test : BlockSpan → Bool) → clear.now ≡ map test view.entry.spans.now
        → length view.entry.m.now.live.func.blocks < 2147483648 → ArePositions (length view.entry.m.now.live.func.blocks) view.entry.spans.now
        → AreOut view.entry.bundles.now.parents.items test view.entry.spans.now (2 * length view.entry.m.now.live.func.blocks) flags.items) }
{
    let mut outside = no_flags(view.alloc, border_count(view.m.live()))?;
    'spans: for (k, span) in view.spans.iter().enumerate() {
        if !flag_at(clear, k) {
            forbid_borders(view, span, &mut outside);
        }
    }
    Ok(outside)
}

/// Sets the flag of the bundle of a border at which the range is live.
fn forbid_if(view: RegionView<'_>, is_live: bool, border: u32, outside: &mut Vec<bool>)
    ensures { outside.new.items ≡ cond is_live (slice_set outside.old.items (root_of view.entry.bundles.now.parents.items border) true) outside.old.items }
{
    if is_live {
        forbid(view, border, outside);
    }
}

/// Sets the flags of the bundles of the borders of a block at which the range is live.
#[tactic(auto, using(crate::proofs::Flags::sets))]
fn forbid_borders(view: RegionView<'_>, span: &Span, outside: &mut Vec<bool>)
    ensures { span.now.position < 2147483648 → Sets view.entry.bundles.now.parents.items span.now outside.old.items outside.new.items }
{
    forbid_if(view, span.is_live_in, start_of(span.position), outside);
    forbid_if(view, span.is_live_out, end_of(span.position), outside);
}

/// The flag of the bundle of a border.
fn is_out(view: RegionView<'_>, border: u32, outside: &[bool]) -> bool
    ensures { result ≡ slice_index_or outside.now (root_of view.entry.bundles.now.parents.items border) false }
{
    outside
        .get(view.bundles.find(border) as usize)
        .copied()
        .unwrap_or(false)
}

/// Where in a block the part in a register lives.
fn inside_of(view: RegionView<'_>, span: &Span, is_clear: bool, outside: &[bool]) -> InsidePart
    ensures { let flag = λ (b : ℕ). slice_index_or outside.now (root_of view.entry.bundles.now.parents.items b) false in
        span.now.position < 2147483648 → result ≡ inside_at is_clear (flag (start_of span.now.position)) (flag (end_of span.now.position)) span.now }
{
    if !is_clear || span.stretches.is_empty() {
        return InsidePart::Nowhere;
    }
    let starts_out = span.is_live_in && is_out(view, start_of(span.position), outside);
    let ends_out = span.is_live_out && is_out(view, end_of(span.position), outside);
    if !starts_out && !ends_out {
        InsidePart::All
    } else if span.is_live_in && !starts_out {
        InsidePart::Start
    } else if span.is_live_out && !ends_out {
        InsidePart::End
    } else {
        InsidePart::Nowhere
    }
}

/// What a block costs.
fn cost_of(span: &Span, inside: InsidePart) -> u128
    ensures { result ≡ span_cost span.now inside }
{
    match inside {
        InsidePart::Nowhere => span.uses,
        InsidePart::All => 0,
        InsidePart::Start => span.frequency.saturating_add(span.end_uses),
        InsidePart::End => span.frequency,
    }
}

/// The part in a register.
fn offer_of(view: RegionView<'_>, register: Reg) -> Result<RegionCandidate, AllocError>
    ensures { IfOk result (λ offer. IsReady view.entry.m.now view.entry.bundles.now.parents.items view.entry.spans.now
        → IsPart view.entry.m.now view.entry.v view.entry.bundles.now.parents.items view.entry.spans.now register offer) }
{
    let clear = clear_blocks(view, register)?;
    let insides = insides_of(view, clear.as_slice())?;
    let cost = cost_of_all(view.spans, insides.as_slice());
    Ok(RegionCandidate {
        register,
        insides,
        cost,
    })
}

/// Where in each block the part in a register lives.
fn insides_of(view: RegionView<'_>, clear: &[bool]) -> Result<Vec<InsidePart>, AllocError>
    ensures { IfOk result (λ made. (test : BlockSpan → Bool) → clear.now ≡ map test view.entry.spans.now
        → length view.entry.m.now.live.func.blocks < 2147483648 → ArePositions (length view.entry.m.now.live.func.blocks) view.entry.spans.now
        → AreEarlier view.entry.bundles.now.parents.items
        → made.items ≡ map (inside_in view.entry.bundles.now.parents.items test view.entry.spans.now) view.entry.spans.now) }
{
    let outside = outside_of(view, clear)?;
    let mut insides = Vec::new(view.alloc);
    'spans: for (k, span) in view.spans.iter().enumerate() {
        insides.push(inside_of(view, span, flag_at(clear, k), outside.as_slice()))?;
    }
    Ok(insides)
}

/// Where the block at a place lies.
fn inside_there(insides: &[InsidePart], place: usize) -> InsidePart
    ensures { result ≡ slice_index_or insides.now place InsidePart.Nowhere }
{
    insides.get(place).copied().unwrap_or(InsidePart::Nowhere)
}

/// What all blocks cost.
#[tactic(auto, using(crate::proofs::Sums::costs))]
fn cost_of_all(spans: &[Span], insides: &[InsidePart]) -> u128
    ensures { (test : BlockSpan → Where) → insides.now ≡ map test spans.now → result ≡ capped (costs_of test spans.now) }
{
    let mut cost = 0u128;
    'spans: for (k, span) in spans.iter().enumerate() {
        cost = cost.saturating_add(cost_of(span, inside_there(insides, k)));
    }
    cost
}

/// A mark in the block of a number.
fn mark_of(number: u32, before: Option<Option<u32>>, label: u16) -> Mark
    ensures { result ≡ mark_at number before label }
{
    let spot = match before {
        None => Spot::Border,
        Some(before) => Spot::Gap(Gap {
            block: number,
            before,
        }),
    };
    Mark {
        block: number,
        spot,
        label,
    }
}

/// Adds a mark in the block at a position.
pub(crate) fn add_mark(
    live: &LiveFunc,
    position: u32,
    before: Option<Option<u32>>,
    label: u16,
    labels: &mut Labels,
) -> Result<(), AllocError>
    ensures { OnOk result (labels.new ≡ labels.old ++ marks_in (slice_get live.now.func.blocks position) before label) }
{
    let Some(block) = block_at(live, position) else {
        return Ok(());
    };
    labels.push(mark_of(block.number, before, label))
}

/// The labels of an offer.
fn labels_of(view: RegionView<'_>, offer: &RegionCandidate) -> Result<Labels, AllocError>
    ensures { let target = view.entry.m.now.live.target in let func = view.entry.m.now.live.func in
        IfOk result (λ ls. (v : ℕ) (offers : OfferView) (inside : BlockSpan → Where) → list_all (λ b. ends_in_terminators target b.instrs) func.blocks ≡ true
        → offer.now.insides.items ≡ map inside view.entry.spans.now → ls ≡ marks_of target func v offers inside view.entry.spans.now) }
{
    let mut labels = Labels::new(view.alloc);
    'spans: for (k, span) in view.spans.iter().enumerate() {
        let inside = inside_there(offer.insides.as_slice(), k);
        add_labels(view.m.live(), span.position, inside, &mut labels)?;
    }
    Ok(labels)
}

/// Adds the labels of the block at a position.
fn add_labels(
    live: &LiveFunc,
    position: u32,
    inside: InsidePart,
    labels: &mut Labels,
) -> Result<(), AllocError>
    ensures { OnOk result ((v : ℕ) (offers : OfferView) → list_all (λ b. ends_in_terminators live.now.target b.instrs) live.now.func.blocks ≡ true
        → labels.new ≡ labels.old ++ marks_there live.now.target live.now.func v offers (slice_get live.now.func.blocks position) inside) }
{
    let (first, end) = gap_ids(live, position);
    match inside {
        InsidePart::Nowhere => Ok(()),
        InsidePart::All => add_mark(live, position, None, 1, labels),
        InsidePart::Start => {
            add_mark(live, position, None, 1, labels)?;
            add_mark(live, position, Some(end), 0, labels)
        }
        InsidePart::End => add_mark(live, position, Some(first), 1, labels),
    }
}
