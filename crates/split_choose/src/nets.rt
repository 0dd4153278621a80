//! The net of a range and a register: its cuts are the ways to place a region.

ghost use Rattle.std.specs.Prelude.{◌≡◌, ◌<◌, ◌≤◌, ◌+◌, ◌*◌, ◌&&◌, ◌++◌, ℕ, Bool, true, false, not, cond, map, length, slice_index_or, Some, IfOk, OnOk};
ghost use Rattle.cut_place.specs.Flows.{HasEnds, HasSmallCapacities};
ghost use Rattle.split_choose.specs.declared.spans.Span.{Span as BlockSpan};
ghost use Rattle.split_choose.specs.Bundles.{AreEarlier};
ghost use Rattle.split_choose.specs.Regions.{capped, ArePositions};
ghost use Rattle.std.specs.List.{list_all};
ghost use Rattle.split_choose.specs.Nets.{ranks, set_count, AreFlags, is_named, node_of, has_inside, node_if, row_of, rows_from, arc_to, arcs_between, inside_uses, row_arcs, arcs_of, row_base, base_of, inside_count, is_small_arc, is_small};
ghost use Rattle.split_choose.specs.BundleNodes.{AreNodes};
ghost use Rattle.split_choose.specs.Placings.{AreFew, IsPlacing};

use crate::bundles::{end_of, start_of};
use crate::regions::{RegionView, flag_at, no_flags, outside_of};
use crate::spans::Span;
use cut_place::{Arc, Arcs, Net};
use std::alloc::{AllocError, Global};
use target_base::List;

/// The node of all that is in the register.
const IN: u32 = 0;

/// The node of all that isn't.
const OUT: u32 = 1;

/// The most nodes of a net.
const MOST_NODES: u32 = 4096;

/// The most arcs of a net.
const MOST_ARCS: usize = 16_384;

/// The most that an arc of a net carries: 2^112.
const MOST_CAPACITY: u128 = 5_192_296_858_534_827_628_530_496_329_220_096;

/// What a block of the range has in the net of a register.
#[derive(Clone, Copy)]
pub struct BlockNodes {
    /// The block's position in the layout.
    pub position: u32,
    /// The nodes of its start and its end, where the range is live there.
    pub entry: Option<u32>,
    pub exit: Option<u32>,
    /// The node of its inside, where it's clear and holds a point of the range.
    pub inside: Option<u32>,
    /// The block's frequency.
    pub frequency: u128,
    /// Frequency times operands over the instructions that touch the range, and over the
    /// terminators among them.
    pub uses: u128,
    pub end_uses: u128,
}

/// The net of a register.
#[derive(Drop)]
pub struct RegionNet {
    /// What each block has.
    pub rows: Vec<BlockNodes>,
    pub net: Net,
    /// What the blocks without an inside cost.
    pub base: u128,
}

/// What nodes the bundles of a range have, by the border that stands for each.
#[derive(Drop)]
pub(crate) struct BundleNodes {
    /// Whether the bundle is out.
    outside: Vec<bool>,
    /// The node of a bundle that isn't.
    numbers: Vec<u32>,
    /// The number behind these.
    next: u32,
}

/// One more, if so.
fn next_number(number: u32, is_one: bool) -> u32
    ensures { number + 1 < 4294967296 → result ≡ cond is_one (number + 1) number }
{
    if is_one {
        number.saturating_add(1)
    } else {
        number
    }
}

/// For each place so many, and one more for each flag that is set before it.
fn numbers_of(alloc: Global, first: u32, flags: &[bool]) -> Result<Vec<u32>, AllocError>
    ensures { IfOk result (λ made. first + length flags.now < 4294967296 → made.items ≡ ranks first flags.now) }
{
    let mut numbers = Vec::new(alloc);
    let mut next = first;
    'flags: for flag in flags {
        numbers.push(next)?;
        next = next_number(next, *flag);
    }
    Ok(numbers)
}

/// So many, and one more for each flag that is set.
fn number_behind(first: u32, flags: &[bool]) -> u32
    ensures { first + length flags.now < 4294967296 → result ≡ first + set_count flags.now }
{
    let mut next = first;
    'flags: for flag in flags {
        next = next_number(next, *flag);
    }
    next
}

/// Whether each bundle has a node of its own.
fn free_of(alloc: Global, named: &[bool], outside: &[bool]) -> Result<Vec<bool>, AllocError>
    ensures { IfOk result (λ free. AreFlags (length named.now) (λ root. slice_index_or named.now root false && not (slice_index_or outside.now root false)) free.items) }
{
    let mut free = Vec::new(alloc);
    'borders: for (border, is_named) in named.iter().enumerate() {
        free.push(*is_named && !flag_at(outside, border))?;
    }
    Ok(free)
}

/// Whether the range is live at a border of each bundle: what would be out if no block were clear.
fn named_of(view: RegionView<'_>) -> Result<Vec<bool>, AllocError>
    ensures { IfOk result (λ flags. length view.entry.m.now.live.func.blocks < 2147483648
        → ArePositions (length view.entry.m.now.live.func.blocks) view.entry.spans.now
        → AreFlags (2 * length view.entry.m.now.live.func.blocks) (is_named view.entry.bundles.now.parents.items view.entry.spans.now) flags.items) }
{
    let none = no_flags(view.alloc, view.spans.len())?;
    outside_of(view, none.as_slice())
}

/// The nodes of the bundles.
fn bundle_nodes(view: RegionView<'_>, clear: &[bool]) -> Result<BundleNodes, AllocError>
    ensures { IfOk result (λ made. (test : BlockSpan → Bool) → clear.now ≡ map test view.entry.spans.now
        → length view.entry.m.now.live.func.blocks < 2147483647 → ArePositions (length view.entry.m.now.live.func.blocks) view.entry.spans.now
        → AreNodes view.entry.bundles.now.parents.items test view.entry.spans.now (2 * length view.entry.m.now.live.func.blocks) made) }
{
    let outside = outside_of(view, clear)?;
    let named = named_of(view)?;
    let free = free_of(view.alloc, named.as_slice(), outside.as_slice())?;
    Ok(BundleNodes {
        outside,
        numbers: numbers_of(view.alloc, 2, free.as_slice())?,
        next: number_behind(2, free.as_slice()),
    })
}

/// The node at a place.
fn node_at(numbers: &[u32], place: usize) -> u32
    ensures { result ≡ slice_index_or numbers.now place 1 }
{
    numbers.get(place).copied().unwrap_or(OUT)
}

/// The node of the bundle of a border.
fn border_node(view: RegionView<'_>, border: u32, bundles: &BundleNodes) -> u32
    ensures { (clear : BlockSpan → Bool) (count : ℕ) → AreEarlier view.entry.bundles.now.parents.items
        → AreNodes view.entry.bundles.now.parents.items clear view.entry.spans.now count bundles.now → border < count
        → result ≡ node_of view.entry.bundles.now.parents.items clear view.entry.spans.now border }
{
    let root = view.bundles.find(border) as usize;
    if flag_at(bundles.outside.as_slice(), root) {
        OUT
    } else {
        node_at(bundles.numbers.as_slice(), root)
    }
}

/// A node, where there is one.
fn node_if(is_there: bool, node: u32) -> Option<u32>
    ensures { result ≡ node_if is_there node }
{
    if is_there { Some(node) } else { None }
}

/// Whether a block has an inside.
fn has_inside(span: &Span, is_clear: bool) -> bool
    ensures { (clear : BlockSpan → Bool) → is_clear ≡ clear span.now → result ≡ has_inside clear span.now }
{
    is_clear && !span.stretches.is_empty()
}

/// What a block has, where the node of its inside would be this.
fn row_at(
    view: RegionView<'_>,
    span: &Span,
    bundles: &BundleNodes,
    has: bool,
    next: u32,
) -> BlockNodes
    ensures { (clear : BlockSpan → Bool) (count : ℕ) → AreEarlier view.entry.bundles.now.parents.items
        → AreNodes view.entry.bundles.now.parents.items clear view.entry.spans.now count bundles.now → count ≤ 4294967295 → 2 * span.now.position + 1 < count
        → result ≡ row_of (node_of view.entry.bundles.now.parents.items clear view.entry.spans.now) has next span.now }
{
    BlockNodes {
        position: span.position,
        entry: node_if(
            span.is_live_in,
            border_node(view, start_of(span.position), bundles),
        ),
        exit: node_if(
            span.is_live_out,
            border_node(view, end_of(span.position), bundles),
        ),
        inside: node_if(has, next),
        frequency: span.frequency,
        uses: span.uses,
        end_uses: span.end_uses,
    }
}

/// What the blocks have.
fn rows_of(
    view: RegionView<'_>,
    bundles: &BundleNodes,
    clear: &[bool],
) -> Result<Vec<BlockNodes>, AllocError>
    ensures { let parents = view.entry.bundles.now.parents.items in let blocks = length view.entry.m.now.live.func.blocks in let spans = view.entry.spans.now in
        IfOk result (λ rows. (test : BlockSpan → Bool) → clear.now ≡ map test spans → blocks < 1073741823 → ArePositions blocks spans → AreEarlier parents
        → AreNodes parents test spans (2 * blocks) bundles.now → bundles.now.next + length spans < 4294967296
        → rows.items ≡ rows_from (node_of parents test spans) (has_inside test) bundles.now.next spans) }
{
    let mut rows = Vec::new(view.alloc);
    let mut next = bundles.next;
    'spans: for (k, span) in view.spans.iter().enumerate() {
        let has = has_inside(span, flag_at(clear, k));
        rows.push(row_at(view, span, bundles, has, next))?;
        next = next_number(next, has);
    }
    Ok(rows)
}

/// Adds an arc to a node.
fn add_arc(from: u32, to: Option<u32>, cap: u128, arcs: &mut Arcs) -> Result<(), AllocError>
    ensures { OnOk result (arcs.new ≡ arcs.old ++ arc_to from to cap) }
{
    if let Some(to) = to {
        arcs.push(Arc { from, to, cap })?;
    }
    Ok(())
}

/// Adds the arcs between an inside and the bundle of a border, to the inside first.
fn add_arcs_between(
    border: Option<u32>,
    inside: u32,
    cap: u128,
    arcs: &mut Arcs,
) -> Result<(), AllocError>
    ensures { OnOk result (arcs.new ≡ arcs.old ++ arcs_between border inside cap) }
{
    let Some(border) = border else {
        return Ok(());
    };
    add_arc(border, Some(inside), cap, arcs)?;
    add_arc(inside, Some(border), cap, arcs)
}

/// What a block costs where its inside is out: the terminators count with the end of the block,
/// where the range is live there.
fn inside_uses(row: BlockNodes) -> u128
    ensures { result ≡ inside_uses row }
{
    match row.exit {
        Some(_) => row.uses.saturating_sub(row.end_uses),
        None => row.uses,
    }
}

/// Adds the arcs of a block with an inside.
fn add_arcs(row: BlockNodes, inside: u32, arcs: &mut Arcs) -> Result<(), AllocError>
    ensures { OnOk result (row.inside ≡ Some inside → arcs.new ≡ arcs.old ++ row_arcs row) }
{
    add_arcs_between(row.entry, inside, row.frequency, arcs)?;
    add_arcs_between(row.exit, inside, row.frequency, arcs)?;
    add_arc(IN, Some(inside), inside_uses(row), arcs)?;
    add_arc(IN, row.exit, row.end_uses, arcs)
}

/// Adds the arcs of a block, if it has an inside.
fn add_row(row: BlockNodes, arcs: &mut Arcs) -> Result<(), AllocError>
    ensures { OnOk result (arcs.new ≡ arcs.old ++ row_arcs row) }
{
    match row.inside {
        Some(inside) => add_arcs(row, inside, arcs),
        None => Ok(()),
    }
}

/// The arcs of the blocks.
fn arcs_of(alloc: Global, rows: &[BlockNodes]) -> Result<Arcs, AllocError>
    ensures { IfOk result (λ arcs. arcs ≡ arcs_of rows.now) }
{
    let mut arcs = List::new(alloc);
    'rows: for row in rows {
        add_row(*row, &mut arcs)?;
    }
    Ok(arcs)
}

/// What a block without an inside costs.
fn row_base(row: BlockNodes) -> u128
    ensures { result ≡ row_base row }
{
    match row.inside {
        Some(_) => 0,
        None => row.uses,
    }
}

/// What the blocks without an inside cost.
#[tactic(auto, using(crate::proofs::Netting::bases))]
fn base_of(rows: &[BlockNodes]) -> u128
    ensures { result ≡ capped (base_of rows.now) }
{
    let mut base = 0u128;
    'rows: for row in rows {
        base = base.saturating_add(row_base(*row));
    }
    base
}

/// So many, and one more for each block with an inside.
fn count_from(first: u32, rows: &[BlockNodes]) -> u32
    ensures { first + length rows.now < 4294967296 → result ≡ first + inside_count rows.now }
{
    let mut count = first;
    'rows: for row in rows {
        count = next_number(count, row.inside.is_some());
    }
    count
}

/// The net of a register that is clear in these blocks.
pub(crate) fn placing_of(view: RegionView<'_>, clear: &[bool]) -> Result<RegionNet, AllocError>
    ensures { let parents = view.entry.bundles.now.parents.items in let blocks = length view.entry.m.now.live.func.blocks in let spans = view.entry.spans.now in
        IfOk result (λ made. (test : BlockSpan → Bool) → clear.now ≡ map test spans → AreFew blocks spans → AreEarlier parents
        → IsPlacing parents test spans (2 * blocks) made) }
{
    let bundles = bundle_nodes(view, clear)?;
    let rows = rows_of(view, &bundles, clear)?;
    let arcs = arcs_of(view.alloc, rows.as_slice())?;
    Ok(RegionNet {
        net: Net {
            nodes: count_from(bundles.next, rows.as_slice()),
            arcs,
        },
        base: base_of(rows.as_slice()),
        rows,
    })
}

/// Whether an arc is one between so many nodes, and carries little enough.
fn is_small_arc(nodes: u32, arc: Arc) -> bool
    ensures { result ≡ is_small_arc nodes arc }
{
    arc.from < nodes && arc.to < nodes && arc.cap <= MOST_CAPACITY
}

/// Whether all of these arcs are such.
fn are_small_arcs(nodes: u32, arcs: &[Arc]) -> bool
    ensures { result ≡ list_all (is_small_arc nodes) arcs.now }
{
    'arcs: for arc in arcs {
        if !is_small_arc(nodes, *arc) {
            return false;
        }
    }
    true
}

/// Whether a net is small enough for its least cut. That of a function within the limits is.
pub(crate) fn is_small(net: &Net) -> bool
    ensures same { result ≡ is_small net.now }
    ensures nodes { result ≡ true → (2 ≤ net.now.nodes) × (net.now.nodes ≤ 4096) }
    ensures arcs { result ≡ true → length net.now.arcs ≤ 16384 }
    ensures ends { result ≡ true → HasEnds net.now.nodes net.now.arcs }
    ensures small { result ≡ true → HasSmallCapacities net.now.arcs }
{
    net.nodes >= 2
        && net.nodes <= MOST_NODES
        && net.arcs.len() <= MOST_ARCS
        && are_small_arcs(net.nodes, net.arcs.as_slice())
}
