//! The segments of a lane in a block.

ghost use Rattle.std.specs.Prelude.{◌≡◌, ◌++◌, OnOk, option_to_list, slice_get};
ghost use Rattle.std.specs.List.{flat_map};
ghost use Rattle.live_lanes.specs.Entered.{cells_of};
ghost use Rattle.live_lanes.specs.Extents.{last_rank};
ghost use Rattle.interval_laws.specs.Told.{number_at, first_mark, last_mark, is_only_written, extent_segment};
ghost use Rattle.ra_top.specs.Report.Intervals.Lines.{segment_text};
ghost use Rattle.ra_top.specs.Report.Intervals.Told.{IsHere, mark_of, extents_of};

use crate::report::intervals::numbers::number_behind;
use crate::report::intervals::parts::{Point, put_segment};
use live_lanes::{Extent, LiveFunc};
use mir_func::Instr;
use std::alloc::AllocError;
use target_base::{Boxed, Bytes};

/// A block of a function, and the numbers of its start and of what comes behind it.
#[derive(Clone, Copy)]
pub struct NumberedBlock<'a> {
    /// What is live in the function.
    pub live: &'a LiveFunc,
    /// The instructions of the block.
    pub instrs: &'a [Boxed<Instr>],
    /// The number of its start.
    pub start: u128,
    /// The number behind its last instruction.
    pub end: u128,
}

impl NumberedBlock<'_> {
    /// The number of the instruction at whose entry or exit a point lies.
    fn number_at(&self, point: u128) -> u128
        requires { IsHere self.now }
        ensures { result ≡ number_at self.now.live.now.table.order.slots self.now.start self.now.instrs.now point }
    {
        let live = self.live;
        let place = self
            .instrs
            .partition_point(|i| live.exit_of(i.get().id) < point);
        number_behind(self.start, place as u128 + 1)
    }

    /// Where a segment begins: with the block or with a writing.
    fn first(&self, extent: Extent) -> Point
        requires { IsHere self.now }
        ensures { mark_of result ≡ first_mark self.now.live.now.table.order.slots self.now.start self.now.instrs.now extent }
    {
        let Some(id) = extent.start else {
            return Point {
                number: self.start,
                letter: b'B',
            };
        };
        let first = extent.first(self.live.slots());
        let number = self.number_at(first);
        if first == self.live.entry_of(id) {
            return Point {
                number,
                letter: b'e',
            };
        }
        Point {
            number,
            letter: b'r',
        }
    }

    /// Where a segment ends: at its last reading, at the exit of its writing, or with the block.
    fn last(&self, extent: Extent) -> Point
        requires { IsHere self.now }
        ensures { mark_of result ≡ last_mark self.now.live.now.table.order.slots self.now.start self.now.end self.now.instrs.now extent }
    {
        let last = extent.last(self.live.slots());
        if last == u128::MAX {
            return Point {
                number: self.end,
                letter: b'B',
            };
        }
        let number = self.number_at(last);
        if self.is_only_written(extent, last) {
            return Point {
                number,
                letter: b'd',
            };
        }
        Point {
            number,
            letter: b'r',
        }
    }

    /// Whether the last point of a segment is the exit of its writing.
    fn is_only_written(&self, extent: Extent, last: u128) -> bool
        requires { last ≡ last_rank self.now.live.now.table.order.slots extent }
        ensures { result ≡ is_only_written self.now.live.now.table.order.slots extent }
    {
        match extent.start {
            Some(id) => last == self.live.exit_of(id),
            None => false,
        }
    }
}

/// Adds the segment of a piece, if it has points.
fn put_extent(
    out: &mut Bytes,
    here: &NumberedBlock,
    extent: Option<Extent>,
) -> Result<(), AllocError>
    requires { IsHere here.now }
    ensures { OnOk result (out.new ≡ out.old ++ flat_map (λ e. segment_text (extent_segment here.now.live.now.table.order.slots here.now.start here.now.end here.now.instrs.now e)) (option_to_list extent)) }
{
    match extent {
        Some(extent) => put_segment(out, here.first(extent), here.last(extent)),
        None => Ok(()),
    }
}

/// Adds the segments of a lane in a block, whose cell has this place.
pub(crate) fn put_segments(
    out: &mut Bytes,
    here: &NumberedBlock,
    lane: u32,
    place: usize,
) -> Result<(), AllocError>
    requires { IsHere here.now }
    ensures { OnOk result (out.new ≡ out.old ++ flat_map (λ e. segment_text (extent_segment here.now.live.now.table.order.slots here.now.start here.now.end here.now.instrs.now e)) (extents_of (slice_get (cells_of here.now.live.now.table.rows.rows.items lane) place))) }
{
    'pieces: for index in 0..here.live.piece_count(lane, place) {
        put_extent(out, here, here.live.extent(lane, place, index))?;
    }
    Ok(())
}
