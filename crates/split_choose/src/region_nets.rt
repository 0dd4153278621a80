//! The net of a range and a register, for those who look at a region.

ghost use Rattle.std.specs.Prelude.{◌≡◌, ◌*◌, ℕ, List, length, IfOk};
ghost use Rattle.live_lanes.specs.Ways.{successors};
ghost use Rattle.split_choose.specs.declared.spans.Span.{Span as BlockSpan};
ghost use Rattle.split_choose.specs.Bundles.{AreBundles};
ghost use Rattle.split_choose.specs.Parts.{IsReady};
ghost use Rattle.split_choose.specs.Placings.{AreFew, IsPlacing};
ghost use Rattle.split_choose.specs.Seen.{FindsPlaces, FindsPoints, FindsWays};
ghost use Rattle.split_choose.specs.Spanned.{AreSpansOf};
ghost use Rattle.split_choose.specs.Spans.{is_clear_in};

use crate::bundles::Bundles;
use crate::nets::{RegionNet, placing_of};
use crate::regions::{RegionView, clear_blocks};
use crate::spans::spans_of;
use block_freq::Freqs;
use interference::Matrix;
use std::alloc::{AllocError, Global};
use target_base::Reg;

/// The net of a range and a register, with what each block of the range has in it. Its cuts are the
/// ways to place a region of the register; that of a region which `cut_region` answers is one.
pub fn region_net(
    alloc: Global,
    m: &Matrix,
    v: u32,
    freqs: &Freqs,
    register: Reg,
) -> Result<RegionNet, AllocError>
    ensures { let func = m.now.live.func in let table = m.now.live.table in
        IfOk result (λ made. FindsPlaces m.now.live.target func table v → FindsPoints m.now → FindsWays func table
        → (parents : List ℕ) × (spans : List BlockSpan) × AreBundles (successors table.flow.items) parents × AreSpansOf m.now v freqs.now spans
        × (AreFew (length func.blocks) spans → IsPlacing parents (is_clear_in m.now v register) spans (2 * length func.blocks) made)) }
{
    let bundles = Bundles::of(alloc, m.live())?;
    let touched = m.live().touched(alloc, v)?;
    let spans = spans_of(alloc, m.live(), v, freqs, touched.as_slice())?;
    let view = RegionView {
        alloc,
        m,
        v,
        spans: spans.as_slice(),
        bundles: &bundles,
    };
    net_over(view, register)
}

/// The net of a register over a range's blocks.
fn net_over(view: RegionView<'_>, register: Reg) -> Result<RegionNet, AllocError>
    ensures { let parents = view.entry.bundles.now.parents.items in let blocks = length view.entry.m.now.live.func.blocks in let spans = view.entry.spans.now in
        IfOk result (λ made. IsReady view.entry.m.now parents spans → AreFew blocks spans
        → IsPlacing parents (is_clear_in view.entry.m.now view.entry.v register) spans (2 * blocks) made) }
{
    let clear = clear_blocks(view, register)?;
    placing_of(view, clear.as_slice())
}
