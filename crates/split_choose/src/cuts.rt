//! Region splits at least cost: a least cut says which edge bundles and which insides of blocks
//! lie in the register.

ghost use Rattle.std.specs.Prelude.{◌≡◌, ◌++◌, ℕ, List, true, [], cond, slice_get, Some, IfOk, IfSome, IsSome, OnOk, None};
ghost use Rattle.std.specs.List.{list_all};
ghost use Rattle.mir_func.specs.Binding.{class_of};
ghost use Rattle.mir_meaning.specs.Places.{domain};
ghost use Rattle.split_choose.specs.Marks.{marks_in};
ghost use Rattle.split_choose.specs.Offers.{View as OfferView};
ghost use Rattle.live_lanes.specs.Ways.{successors};
ghost use Rattle.split_choose.specs.Bundles.{AreEarlier, AreBundles};
ghost use Rattle.split_choose.specs.Seen.{ends_in_terminators, view_of, FindsPlaces, FindsPoints, FindsWays};
ghost use Rattle.split_choose.specs.Counted.{AreCounted, IsSmall};
ghost use Rattle.split_choose.specs.Cuts.{same_gap, label_of, IsCutOffer};
ghost use Rattle.split_choose.specs.Labelled.{is_node_in, sides_of, has_exit, behind_first, changes_in, row_marks, rows_marks, region_of, IsBestRegion};
ghost use Rattle.split_choose.specs.Regions.{capped, uses_of};
ghost use Rattle.split_choose.specs.Nets.{is_small};
ghost use Rattle.split_choose.specs.Placings.{IsLeastCut};
ghost use Rattle.split_choose.specs.Choices.{IsWithin, IsChosenBelow, IsBestBelow};

use crate::bundles::Bundles;
use crate::nets::{BlockNodes, RegionNet, is_small, placing_of};
use crate::places::{gap_ids, places_of};
use crate::regions::{RegionView, add_mark, all_uses, clear_blocks, domain_of, flag_at};
use crate::spans::spans_of;
use block_freq::Freqs;
use cut_place::{Cut, Net, least_cut};
use interference::Matrix;
use live_lanes::{Labels, LiveFunc};
use mir_func::operands::class_of;
use std::alloc::{AllocError, Global};
use target_base::Reg;

/// A region at least cost, with what shows that none costs less.
#[derive(Drop)]
pub struct Region {
    pub reg: Reg,
    /// Label 1 where the part in the register lives.
    pub labels: Labels,
    /// A least cut of the register's net, and a greatest flow.
    pub cut: Cut,
    /// What the blocks cost that hold no part of the region whatever the cut is.
    pub base: u128,
}

/// The least cut of a register's net.
#[derive(Drop)]
struct RegionCut {
    register: Reg,
    placing: RegionNet,
    cut: Cut,
    /// What the cut costs, and the blocks without an inside.
    cost: u128,
}

/// Which parts of a block lie in the register: its start, its inside and its end.
#[derive(Clone, Copy)]
struct Sides {
    start: bool,
    inside: bool,
    end: bool,
}

/// The region split of least cost that is offered to a range, over all ways to place its bundles
/// and the insides of its blocks. None exactly where none is offered.
pub fn cut_region(
    alloc: Global,
    m: &Matrix,
    v: u32,
    freqs: &Freqs,
) -> Result<Option<Region>, AllocError>
    ensures { let target = m.now.live.target in let func = m.now.live.func in
        IfOk result (λ q. FindsPlaces target func m.now.live.table v → FindsPoints m.now → FindsWays func m.now.live.table → AreCounted func freqs.now v → IsSmall func freqs.now v
        → (parents : List ℕ) × AreBundles (successors m.now.live.table.flow.items) parents × IsCutOffer target func v (view_of m.now v parents) freqs.now q) }
{
    let bundles = Bundles::of(alloc, m.live())?;
    cut_region_over(alloc, m, v, freqs, &bundles)
}

/// What `cut_region` answers, where these are the bundles of the function.
pub fn cut_region_over(
    alloc: Global,
    m: &Matrix,
    v: u32,
    freqs: &Freqs,
    bundles: &Bundles,
) -> Result<Option<Region>, AllocError>
    ensures { let target = m.now.live.target in let func = m.now.live.func in
        IfOk result (λ q. AreEarlier bundles.now.parents.items → FindsPlaces target func m.now.live.table v → FindsPoints m.now → AreCounted func freqs.now v → IsSmall func freqs.now v
        → IsCutOffer target func v (view_of m.now v bundles.now.parents.items) freqs.now q) }
{
    let touched = m.live().touched(alloc, v)?;
    let places = places_of(alloc, m.live(), touched.as_slice())?;
    if places.len() < 2 {
        return Ok(None);
    }
    let spans = spans_of(alloc, m.live(), v, freqs, touched.as_slice())?;
    best_region(RegionView {
        alloc,
        m,
        v,
        spans: spans.as_slice(),
        bundles,
    })
}

/// The registers that a range may be in, in class order.
fn registers_of(view: RegionView<'_>) -> Result<Vec<Reg>, AllocError>
    ensures { IfOk result (λ rs. rs.items ≡ domain view.entry.m.now.live.target (class_of view.entry.m.now.live.func view.entry.v)) }
{
    let live = view.m.live();
    domain_of(view.alloc, live.target(), class_of(live.func(), view.v))
}

/// The region of least cost that is offered to a range over its blocks.
fn best_region(view: RegionView<'_>) -> Result<Option<Region>, AllocError>
    ensures { let target = view.entry.m.now.live.target in let func = view.entry.m.now.live.func in
        let parents = view.entry.bundles.now.parents.items in let spans = view.entry.spans.now in
        IfOk result (λ q. (v : ℕ) (offers : OfferView) → IsWithin view.entry.m.now view.entry.v parents spans
        → list_all (λ b. ends_in_terminators target b.instrs) func.blocks ≡ true
        → IsBestRegion target func v offers view.entry.m.now view.entry.v parents spans (capped (uses_of spans)) (domain target (class_of func view.entry.v)) q) }
{
    let registers = registers_of(view)?;
    let Some(choice) = best_of(view, registers.as_slice())? else {
        return Ok(None);
    };
    label_cut(view, choice)
}

/// The choice of least cost among those of registers, the first at a tie, if it costs less than
/// the range does.
fn best_of(view: RegionView<'_>, registers: &[Reg]) -> Result<Option<RegionCut>, AllocError>
    ensures { let parents = view.entry.bundles.now.parents.items in let spans = view.entry.spans.now in
        IfOk result (λ q. IsWithin view.entry.m.now view.entry.v parents spans → IsBestBelow view.entry.m.now view.entry.v parents spans (capped (uses_of spans)) registers.now q) }
{
    let mut bound = all_uses(view.spans);
    let mut best: Option<RegionCut> = None;
    'registers: for register in registers {
        if let Some(choice) = choice_below(view, *register, bound)? {
            bound = choice.cost;
            best = Some(choice);
        }
    }
    Ok(best)
}

/// A least cut of a net, if that is small enough.
fn cut_of(alloc: Global, net: &Net) -> Result<Option<Cut>, AllocError>
    ensures { IfOk result (λ q. is_small net.now ≡ true → IfSome q (λ cut. IsLeastCut net.now cut) × IsSome q) }
{
    if !is_small(net) {
        return Ok(None);
    }
    let cut = least_cut(alloc, net)?;
    Ok(Some(cut))
}

/// The choice of least cost for a register, if it costs less than so much.
fn choice_below(
    view: RegionView<'_>,
    register: Reg,
    bound: u128,
) -> Result<Option<RegionCut>, AllocError>
    ensures { let parents = view.entry.bundles.now.parents.items in let spans = view.entry.spans.now in
        IfOk result (λ q. IsWithin view.entry.m.now view.entry.v parents spans → IsChosenBelow view.entry.m.now view.entry.v parents spans bound register q) }
{
    let clear = clear_blocks(view, register)?;
    let placing = placing_of(view, clear.as_slice())?;
    let Some(cut) = cut_of(view.alloc, &placing.net)? else {
        return Ok(None);
    };
    let cost = placing.base.saturating_add(cut.cost);
    if cost >= bound {
        return Ok(None);
    }
    Ok(Some(RegionCut {
        register,
        placing,
        cut,
        cost,
    }))
}

/// The region of a choice.
fn label_cut(view: RegionView<'_>, choice: RegionCut) -> Result<Option<Region>, AllocError>
    ensures { let target = view.entry.m.now.live.target in let func = view.entry.m.now.live.func in
        IfOk result (λ q. (v : ℕ) (offers : OfferView) → list_all (λ b. ends_in_terminators target b.instrs) func.blocks ≡ true
        → q ≡ Some (region_of target func v offers choice)) }
{
    let labels = labels_of(view, &choice)?;
    let RegionCut {
        register,
        placing,
        cut,
        cost: _,
    } = choice;
    Ok(Some(Region {
        reg: register,
        labels,
        cut,
        base: placing.base,
    }))
}

/// The labels of a choice.
fn labels_of(view: RegionView<'_>, choice: &RegionCut) -> Result<Labels, AllocError>
    ensures { let target = view.entry.m.now.live.target in let func = view.entry.m.now.live.func in
        IfOk result (λ ls. (v : ℕ) (offers : OfferView) → list_all (λ b. ends_in_terminators target b.instrs) func.blocks ≡ true
        → ls ≡ rows_marks target func v offers choice.now.cut.inside choice.now.placing.rows.items) }
{
    let rows = choice.placing.rows.as_slice();
    let inside = choice.cut.inside.as_slice();
    let mut labels = Labels::new(view.alloc);
    'rows: for row in rows {
        add_labels(view.m.live(), *row, sides_of(inside, *row), &mut labels)?;
    }
    Ok(labels)
}

/// Whether a node is in; without a node what else is.
fn is_in_or(inside: &[bool], node: Option<u32>, otherwise: bool) -> bool
    ensures { result ≡ is_node_in inside.now node otherwise }
{
    match node {
        Some(node) => flag_at(inside, node as usize),
        None => otherwise,
    }
}

/// Which parts of a block lie in the register. Where the range isn't live at a border, its inside
/// reaches so far.
fn sides_of(inside: &[bool], row: BlockNodes) -> Sides
    ensures { result ≡ sides_of inside.now row }
{
    let own = is_in_or(inside, row.inside, false);
    Sides {
        start: is_in_or(inside, row.entry, own),
        inside: own,
        end: is_in_or(inside, row.exit, own),
    }
}

/// The label of what is in the register, and of what isn't.
fn label_of(is_in: bool) -> u16
    ensures { result ≡ label_of is_in }
{
    if is_in { 1 } else { 0 }
}

/// Whether two gaps of a block are one.
fn same_gap(a: Option<u32>, b: Option<u32>) -> bool
    ensures { result ≡ same_gap a b }
{
    match (a, b) {
        (None, None) => true,
        (Some(a), Some(b)) => a == b,
        _ => false,
    }
}

/// Whether what is behind the first gap of a block lies in the register, where that may be the gap
/// before its terminators. Then an inside that leads to the block's end has no extent.
fn behind_first(row: BlockNodes, sides: Sides, is_one_gap: bool) -> bool
    ensures { result ≡ behind_first row sides is_one_gap }
{
    if row.exit.is_some() && is_one_gap {
        sides.start
    } else {
        sides.inside
    }
}

/// Adds the label of a block's start, if that is in.
fn add_start(
    live: &LiveFunc,
    position: u32,
    is_in: bool,
    labels: &mut Labels,
) -> Result<(), AllocError>
    ensures { OnOk result (labels.new ≡ labels.old ++ cond is_in (marks_in (slice_get live.now.func.blocks position) None 1) []) }
{
    if is_in {
        return add_mark(live, position, None, 1, labels);
    }
    Ok(())
}

/// Adds a label from a gap on, if it is another one than before.
fn add_change(
    live: &LiveFunc,
    position: u32,
    before: Option<u32>,
    change: (bool, bool),
    labels: &mut Labels,
) -> Result<(), AllocError>
    ensures { OnOk result (labels.new ≡ labels.old ++ changes_in (slice_get live.now.func.blocks position) before change.0 change.1) }
{
    let (old, new) = change;
    if old == new {
        return Ok(());
    }
    add_mark(live, position, Some(before), label_of(new), labels)
}

/// Adds the labels of a block: of its start, from its first gap on, and from the gap before its
/// terminators on.
fn add_labels(
    live: &LiveFunc,
    row: BlockNodes,
    sides: Sides,
    labels: &mut Labels,
) -> Result<(), AllocError>
    ensures { OnOk result ((v : ℕ) (offers : OfferView) → list_all (λ b. ends_in_terminators live.now.target b.instrs) live.now.func.blocks ≡ true
        → labels.new ≡ labels.old ++ row_marks live.now.target live.now.func v offers row sides (slice_get live.now.func.blocks row.position)) }
{
    let (first, end) = gap_ids(live, row.position);
    let middle = behind_first(row, sides, same_gap(first, end));
    add_start(live, row.position, sides.start, labels)?;
    add_change(live, row.position, first, (sides.start, middle), labels)?;
    add_change(live, row.position, end, (middle, sides.end), labels)
}
