//! Local splits: a run of places for which some register is free.

ghost use Rattle.std.specs.Prelude.{◌≡◌, ◌+◌, ◌-◌, ◌++◌, [], ℕ, List, true, false, cond, map, take, drop, length, IfOk, OnOk, Option, Some, slice_get};
ghost use Rattle.std.specs.List.{list_all, list_any};
ghost use Rattle.mir_func.specs.declared.func.Block.{Block};
ghost use Rattle.live_lanes.specs.Table.{entry_rank, exit_rank};
ghost use Rattle.live_lanes.specs.Touching.{AreTouched};
ghost use Rattle.live_lanes.specs.Tells.{touching_ids};
ghost use Rattle.interference.specs.Clashes.{IsOrdered};
ghost use Rattle.split_choose.specs.Offers.{View as OfferView, Touched, first_id, at_start, touched_places, live_at, borders, clashes_not, clear_along, run_marks, local_offer};
ghost use Rattle.split_choose.specs.Seen.{view_of, FindsPlaces, FindsPoints};
ghost use Rattle.split_choose.specs.Spanned.{is_rank_in, AreSpansOf};
ghost use Rattle.split_choose.specs.Clearing.{cut, points_between, is_part_clear, is_clear_between};
ghost use Rattle.split_choose.specs.LongRuns.{IsLocal, IsLongestRun, IsBestRun, is_longer, is_better, better_of, near_in, registers_of, found_run};
ghost use Rattle.split_choose.specs.Places.{placed};
ghost use Rattle.split_choose.specs.Marks.{marks_in};
ghost use Rattle.split_choose.specs.Runs.{IsBehind};

use crate::blocks::is_live_at_border;
use crate::places::{TouchedPlace, block_at, places_of};
use crate::regions::{add_mark, domain_of};
use crate::spans::{Span, find_span, is_alone, spans_of};
use block_freq::Freqs;
use interference::Matrix;
use live_lanes::{Labels, LiveFunc, Stretch};
use mir_func::Instr;
use mir_func::operands::class_of;
use std::alloc::{AllocError, Global};
use target_base::{Boxed, Reg};

/// A run of places and a register that is free there.
#[derive(Clone, Copy, PartialEq, Eq)]
struct PlaceRun {
    first: usize,
    /// The number of places.
    len: usize,
    register: Reg,
}

/// What is looked at for each register.
#[derive(Clone, Copy)]
struct RunView<'a> {
    alloc: Global,
    m: &'a Matrix,
    v: u32,
    places: &'a [TouchedPlace],
    spans: &'a [Span],
}

/// The local split that is offered to a range, with its register and its labels: label 1 along the
/// run. None exactly where none is offered.
pub fn local(alloc: Global, m: &Matrix, v: u32) -> Result<Option<(Reg, Labels)>, AllocError>
    ensures { IfOk result (λ q. (parents : List ℕ) → FindsPlaces m.now.live.target m.now.live.func m.now.live.table v → FindsPoints m.now
        → q ≡ local_offer m.now.live.target m.now.live.func v (view_of m.now v parents)) }
{
    let live = m.live();
    let touched = live.touched(alloc, v)?;
    let places = places_of(alloc, live, touched.as_slice())?;
    if places.len() < 3 {
        return Ok(None);
    }
    if is_live_at_border(live, v) {
        return Ok(None);
    }
    let even = Freqs::new(alloc);
    let spans = spans_of(alloc, live, v, &even, touched.as_slice())?;
    let split = best_split(RunView {
        alloc,
        m,
        v,
        places: places.as_slice(),
        spans: spans.as_slice(),
    })?;
    Ok(split)
}

/// The split along the longest run.
fn best_split(view: RunView<'_>) -> Result<Option<(Reg, Labels)>, AllocError>
    ensures { IfOk result (λ q. (parents freqs : List ℕ) → IsLocal view.entry.m.now view.entry.v parents freqs view.entry.places.now view.entry.spans.now
        → q ≡ found_run view.entry.m.now.live.target view.entry.m.now.live.func view.entry.v (view_of view.entry.m.now view.entry.v parents)) }
{
    let Some(run) = best_run(view)? else {
        return Ok(None);
    };
    let last = run.first.saturating_add(run.len).saturating_sub(1);
    let labels = labels_of(view.alloc, view.m.live(), view.places, run.first, last)?;
    Ok(Some((run.register, labels)))
}

/// The longest run, the earliest at a tie, and then the first in class order.
fn best_run(view: RunView<'_>) -> Result<Option<PlaceRun>, AllocError>
    ensures { IfOk result (λ best. (parents freqs : List ℕ) → IsLocal view.entry.m.now view.entry.v parents freqs view.entry.places.now view.entry.spans.now
        → IsBestRun (near_in view.entry.m.now view.entry.v parents) (length view.entry.places.now)
        (registers_of view.entry.m.now view.entry.v) (length (registers_of view.entry.m.now view.entry.v)) best) }
{
    let live = view.m.live();
    let domain = domain_of(view.alloc, live.target(), class_of(live.func(), view.v))?;
    Ok(best_of(view, domain.as_slice()))
}

/// The best run of these registers.
fn best_of(view: RunView<'_>, registers: &[Reg]) -> Option<PlaceRun>
    ensures { (parents freqs : List ℕ) → IsLocal view.entry.m.now view.entry.v parents freqs view.entry.places.now view.entry.spans.now
        → IsBestRun (near_in view.entry.m.now view.entry.v parents) (length view.entry.places.now) registers.now (length registers.now) result }
{
    let mut best: Option<PlaceRun> = None;
    'registers: for register in registers {
        best = better_of(best, longest_run(view, *register));
    }
    best
}

/// The better of the best run and another one, if there is one.
fn better_of(best: Option<PlaceRun>, other: Option<PlaceRun>) -> Option<PlaceRun>
    ensures { result ≡ better_of best other }
{
    match other {
        Some(run) if is_better(run, best) => Some(run),
        _ => best,
    }
}

/// Whether a run is longer than the best, or as long and earlier.
fn is_better(run: PlaceRun, best: Option<PlaceRun>) -> bool
    ensures { result ≡ is_better run best }
{
    match best {
        Some(old) => run.len > old.len || (run.len == old.len && run.first < old.first),
        None => true,
    }
}

/// Whether a run of a length is longer than the best, or the first of two or more places.
fn is_longer(len: usize, best: Option<PlaceRun>) -> bool
    ensures { result ≡ is_longer len best }
{
    match best {
        Some(old) => len > old.len,
        None => len >= 2,
    }
}

/// The longest run of two or more places, but not all of them, along which a register is free, and
/// the earliest of these.
fn longest_run(view: RunView<'_>, register: Reg) -> Option<PlaceRun>
    ensures { (parents freqs : List ℕ) → IsLocal view.entry.m.now view.entry.v parents freqs view.entry.places.now view.entry.spans.now
        → IsLongestRun (near_in view.entry.m.now view.entry.v parents register) (length view.entry.places.now) (length view.entry.places.now) register result }
{
    let most = view.places.len().saturating_sub(1);
    let mut best: Option<PlaceRun> = None;
    let mut len = 1usize;
    'places: for k in 1..view.places.len() {
        if is_free_between(view, register, k - 1, k) {
            len = len.saturating_add(1).min(most);
        } else {
            len = 1;
        }
        if is_longer(len, best) {
            best = Some(PlaceRun {
                first: k.saturating_add(1).saturating_sub(len),
                len,
                register,
            });
        }
    }
    best
}

/// Whether a register is free from the entry of one place to the exit of the next.
fn is_free_between(view: RunView<'_>, register: Reg, a: usize, z: usize) -> bool
    ensures { (parents freqs : List ℕ) (p q : Touched)
        → FindsPlaces view.entry.m.now.live.target view.entry.m.now.live.func view.entry.m.now.live.table view.entry.v
        → FindsPoints view.entry.m.now
        → AreTouched view.entry.m.now.live.table view.entry.v (touching_ids view.entry.m.now.live.func view.entry.v)
        → list_any (live_at view.entry.m.now.live.target view.entry.m.now.live.func view.entry.v (view_of view.entry.m.now view.entry.v parents))
        (borders view.entry.m.now.live.target view.entry.m.now.live.func view.entry.v (view_of view.entry.m.now view.entry.v parents)) ≡ false
        → AreSpansOf view.entry.m.now view.entry.v freqs view.entry.spans.now
        → view.entry.places.now ≡ map (placed view.entry.m.now.live.func.blocks) (touched_places view.entry.m.now.live.target view.entry.m.now.live.func view.entry.v (view_of view.entry.m.now view.entry.v parents))
        → slice_get (touched_places view.entry.m.now.live.target view.entry.m.now.live.func view.entry.v (view_of view.entry.m.now view.entry.v parents)) a ≡ Some p
        → slice_get (touched_places view.entry.m.now.live.target view.entry.m.now.live.func view.entry.v (view_of view.entry.m.now view.entry.v parents)) z ≡ Some q
        → z ≡ a + 1
        → result ≡ clear_along view.entry.m.now.live.target view.entry.m.now.live.func view.entry.v (view_of view.entry.m.now view.entry.v parents) ((p, q), register) }
{
    if a >= view.places.len() {
        return false;
    }
    if z >= view.places.len() {
        return false;
    }
    is_free_from(view, register, view.places[a], view.places[z])
}

/// The same of a place and the next one.
fn is_free_from(view: RunView<'_>, register: Reg, a: TouchedPlace, z: TouchedPlace) -> bool
    ensures { (parents freqs : List ℕ) (p q : Touched) (k n : ℕ)
        → FindsPlaces view.entry.m.now.live.target view.entry.m.now.live.func view.entry.m.now.live.table view.entry.v
        → FindsPoints view.entry.m.now
        → AreTouched view.entry.m.now.live.table view.entry.v (touching_ids view.entry.m.now.live.func view.entry.v)
        → list_any (live_at view.entry.m.now.live.target view.entry.m.now.live.func view.entry.v (view_of view.entry.m.now view.entry.v parents))
        (borders view.entry.m.now.live.target view.entry.m.now.live.func view.entry.v (view_of view.entry.m.now view.entry.v parents)) ≡ false
        → AreSpansOf view.entry.m.now view.entry.v freqs view.entry.spans.now
        → slice_get (touched_places view.entry.m.now.live.target view.entry.m.now.live.func view.entry.v (view_of view.entry.m.now view.entry.v parents)) k ≡ Some p
        → slice_get (touched_places view.entry.m.now.live.target view.entry.m.now.live.func view.entry.v (view_of view.entry.m.now view.entry.v parents)) n ≡ Some q
        → n ≡ k + 1
        → a ≡ placed view.entry.m.now.live.func.blocks p → z ≡ placed view.entry.m.now.live.func.blocks q
        → result ≡ clear_along view.entry.m.now.live.target view.entry.m.now.live.func view.entry.v (view_of view.entry.m.now view.entry.v parents) ((p, q), register) }
{
    let low = entry_of(view.m, a.first);
    let high = exit_of(view.m, z.last);
    if a.position == z.position {
        return is_free_in(view, register, a.position, low, high);
    }
    is_free_in(view, register, a.position, low, u128::MAX)
        && is_free_in(view, register, z.position, 0, high)
}

/// The number of the point at the entry of an instruction.
fn entry_of(m: &Matrix, id: u32) -> u128
    ensures { result ≡ entry_rank m.now.live.table.order.slots id }
{
    m.live().entry_of(id)
}

/// The number of the point at the exit of an instruction.
fn exit_of(m: &Matrix, id: u32) -> u128
    ensures { result ≡ exit_rank m.now.live.table.order.slots id }
{
    m.live().exit_of(id)
}

/// Whether a register is free at those points of the range in a block that lie between two.
fn is_free_in(view: RunView<'_>, register: Reg, position: u32, low: u128, high: u128) -> bool
    ensures { (parents freqs : List ℕ)
        → FindsPlaces view.entry.m.now.live.target view.entry.m.now.live.func view.entry.m.now.live.table view.entry.v
        → FindsPoints view.entry.m.now
        → AreSpansOf view.entry.m.now view.entry.v freqs view.entry.spans.now
        → (b : Block) → slice_get view.entry.m.now.live.func.blocks position ≡ Some b
        → is_rank_in view.entry.m.now.live.table.order.slots b.instrs low ≡ true
        → result ≡ list_all (clashes_not view.entry.m.now.live.target view.entry.m.now.live.func view.entry.v (view_of view.entry.m.now view.entry.v parents) register)
        (points_between view.entry.m.now.live.table.order.slots low high b) }
{
    match find_span(view.spans, position) {
        None => true,
        Some(at) => is_free_span(view, register, &view.spans[at], low, high),
    }
}

/// The same in the block of a span.
fn is_free_span(view: RunView<'_>, register: Reg, span: &Span, low: u128, high: u128) -> bool
    ensures { IsOrdered view.entry.m.now → result ≡ is_clear_between view.entry.m.now view.entry.v register span.now.position span.now.stretches.items low high }
{
    let between = Stretch {
        first: low,
        last: high,
    };
    is_free_along(
        view,
        register,
        span.position,
        span.stretches.as_slice(),
        between,
    )
}

/// The same of some stretches of points in the block at a position.
#[tactic(auto, using(crate::proofs::Free::alls))]
fn is_free_along(
    view: RunView<'_>,
    register: Reg,
    position: u32,
    stretches: &[Stretch],
    between: Stretch,
) -> bool
    ensures { IsOrdered view.entry.m.now → result ≡ is_clear_between view.entry.m.now view.entry.v register position stretches.now between.first between.last }
{
    'stretches: for stretch in stretches {
        if !is_part_free(view, register, position, cut(*stretch, between)) {
            return false;
        }
    }
    true
}

/// The points of a stretch that are among others.
fn cut(stretch: Stretch, between: Stretch) -> Stretch
    ensures { result ≡ cut between.first between.last stretch }
{
    Stretch {
        first: stretch.first.max(between.first),
        last: stretch.last.min(between.last),
    }
}

/// Whether a register is free along a stretch, or there are no points in it.
fn is_part_free(view: RunView<'_>, register: Reg, position: u32, part: Stretch) -> bool
    ensures { IsOrdered view.entry.m.now → result ≡ is_part_clear view.entry.m.now view.entry.v register position part }
{
    part.first > part.last || is_alone(view.m, view.v, register, position, &[part])
}

/// The labels of the run from one place to another.
fn labels_of(
    alloc: Global,
    live: &LiveFunc,
    places: &[TouchedPlace],
    first: usize,
    last: usize,
) -> Result<Labels, AllocError>
    ensures { IfOk result (λ ls. (v : ℕ) (view : OfferView) (p q : Touched) → FindsPlaces live.now.target live.now.func live.now.table v
        → places.now ≡ map (placed live.now.func.blocks) (touched_places live.now.target live.now.func v view)
        → slice_get (touched_places live.now.target live.now.func v view) first ≡ Some p
        → slice_get (touched_places live.now.target live.now.func v view) last ≡ Some q
        → ls ≡ run_marks live.now.target live.now.func v view (p, q)) }
{
    let mut labels = Labels::new(alloc);
    if first >= places.len() {
        return Ok(labels);
    }
    if last >= places.len() {
        return Ok(labels);
    }
    add_run(live, places[first], places[last], &mut labels)?;
    Ok(labels)
}

/// Marks a run from its first place to its last.
fn add_run(
    live: &LiveFunc,
    a: TouchedPlace,
    z: TouchedPlace,
    labels: &mut Labels,
) -> Result<(), AllocError>
    ensures { OnOk result ((v : ℕ) (view : OfferView) (n m : ℕ) (p q : Touched) → FindsPlaces live.now.target live.now.func live.now.table v
        → slice_get (touched_places live.now.target live.now.func v view) n ≡ Some p → a ≡ placed live.now.func.blocks p
        → slice_get (touched_places live.now.target live.now.func v view) m ≡ Some q → z ≡ placed live.now.func.blocks q
        → labels.new ≡ labels.old ++ run_marks live.now.target live.now.func v view (p, q)) }
{
    add_mark(live, a.position, Some(Some(a.first)), 1, labels)?;
    add_borders(live, a.position, z.position, labels)?;
    add_end(live, z, labels)?;
    Ok(())
}

/// Marks the starts of the blocks behind a position, up to another.
fn add_borders(live: &LiveFunc, a: u32, z: u32, labels: &mut Labels) -> Result<(), AllocError>
    ensures { OnOk result (labels.new ≡ labels.old ++ map (λ b. at_start b.number 1) (take (z - a) (drop (a + 1) live.now.func.blocks))) }
{
    'starts: for offset in 0..z.saturating_sub(a) {
        add_mark(live, a + 1 + offset, None, 1, labels)?;
    }
    Ok(())
}

/// Marks the end of a run behind its last place.
fn add_end(live: &LiveFunc, z: TouchedPlace, labels: &mut Labels) -> Result<(), AllocError>
    ensures { OnOk result ((before : Option ℕ) → (z.is_end ≡ false → IsBehind live.now.table live.now.func.blocks z.last before)
        → labels.new ≡ labels.old ++ cond z.is_end [] (marks_in (slice_get live.now.func.blocks z.position) (Some before) 0)) }
{
    if z.is_end {
        return Ok(());
    }
    let behind = id_behind(live, z.last);
    add_mark(live, z.position, Some(behind), 0, labels)?;
    Ok(())
}

/// The instruction behind the one at a place of these; none at their end.
fn next_id(instrs: &[Boxed<Instr>], place: usize) -> Option<u32>
    ensures { result ≡ first_id (drop (place + 1) instrs.now) }
{
    if place >= instrs.len() {
        return None;
    }
    let next = place + 1;
    if next >= instrs.len() {
        return None;
    }
    Some(instrs[next].get().id)
}

/// The instruction that stands right behind another in its block.
fn id_behind(live: &LiveFunc, id: u32) -> Option<u32>
    ensures { (before : Option ℕ) → IsBehind live.now.table live.now.func.blocks id before → result ≡ before }
{
    let block = block_at(live, live.position_of(id))?;
    next_id(block.instrs.as_slice(), live.place_of(id))
}
