//! The lines of a range's lanes.

ghost use Rattle.std.specs.Prelude.{◌≡◌, ◌++◌, OnOk, slice_get};
ghost use Rattle.std.specs.List.{flat_map};
ghost use Rattle.mir_meaning.specs.Registers.{numbers};
ghost use Rattle.live_lanes.specs.Entered.{cells_of};
ghost use Rattle.live_lanes.specs.Extents.{lanes_count};
ghost use Rattle.interval_laws.specs.Told.{cells_segments};
ghost use Rattle.ra_top.specs.Report.Intervals.Lines.{segment_text, lane_line};
ghost use Rattle.ra_top.specs.Report.Intervals.Told.{IsReady, start_numbers, place_segments, range_segments};

use crate::report::intervals::numbers::number_in;
use crate::report::intervals::parts::put_lane_head;
use crate::report::intervals::segments::{NumberedBlock, put_segments};
use live_lanes::LiveFunc;
use std::alloc::AllocError;
use target_base::Bytes;

/// Adds the segments of a lane in the block whose cell has this place; none where that is no block of
/// the function.
fn put_cell(
    out: &mut Bytes,
    live: &LiveFunc,
    starts: &[u128],
    lane: u32,
    place: usize,
) -> Result<(), AllocError>
    requires ready { IsReady live.now.table live.now.func.blocks }
    requires starts { starts.now ≡ start_numbers 0 live.now.func.blocks }
    ensures { OnOk result (out.new ≡ out.old ++ flat_map segment_text (place_segments live.now.table.order.slots live.now.func.blocks (slice_get (cells_of live.now.table.rows.rows.items lane) place))) }
{
    let Some(number) = live.cell_block(lane, place) else {
        return Ok(());
    };
    let position = number as usize;
    let blocks = live.func().blocks.as_slice();
    let Some(block) = blocks.get(position) else {
        return Ok(());
    };
    let here = NumberedBlock {
        live,
        instrs: block.instrs.as_slice(),
        start: number_in(starts, position),
        end: number_in(starts, position + 1),
    };
    put_segments(out, &here, lane, place)
}

/// Adds the segments of a lane, in layout.
fn put_cells(out: &mut Bytes, live: &LiveFunc, starts: &[u128], lane: u32) -> Result<(), AllocError>
    requires ready { IsReady live.now.table live.now.func.blocks }
    requires starts { starts.now ≡ start_numbers 0 live.now.func.blocks }
    ensures { OnOk result (out.new ≡ out.old ++ flat_map segment_text (cells_segments live.now.table.order.slots live.now.func.blocks (cells_of live.now.table.rows.rows.items lane))) }
{
    let count = live.cell_count(lane);
    'cells: for back in 0..count {
        put_cell(out, live, starts, lane, count - 1 - back)?;
    }
    Ok(())
}

/// Adds the line of a lane of a range.
fn put_lane(
    out: &mut Bytes,
    live: &LiveFunc,
    starts: &[u128],
    v: u32,
    k: u32,
) -> Result<(), AllocError>
    requires ready { IsReady live.now.table live.now.func.blocks }
    requires starts { starts.now ≡ start_numbers 0 live.now.func.blocks }
    ensures { OnOk result (out.new ≡ out.old ++ lane_line k (range_segments live.now.table live.now.func.blocks v k)) }
{
    put_lane_head(out, k)?;
    if let Some(lane) = live.lane_of(v, k as usize) {
        put_cells(out, live, starts, lane)?;
    }
    out.extend(b"\n")
}

/// Adds the lines of a range's lanes.
pub(crate) fn put_lanes(
    out: &mut Bytes,
    live: &LiveFunc,
    starts: &[u128],
    v: u32,
) -> Result<(), AllocError>
    requires ready { IsReady live.now.table live.now.func.blocks }
    requires starts { starts.now ≡ start_numbers 0 live.now.func.blocks }
    ensures { OnOk result (out.new ≡ out.old ++ flat_map (λ k. lane_line k (range_segments live.now.table live.now.func.blocks v k)) (numbers 0 (lanes_count (slice_get live.now.table.lanes.ranges.items v)))) }
{
    'lanes: for k in 0..live.lane_count(v) {
        put_lane(out, live, starts, v, k)?;
    }
    Ok(())
}
