//! Parts of lines, added to a text.

ghost use Rattle.std.specs.Prelude.{◌≡◌, ◌++◌, ◌∷◌, [], OnOk, codes};
ghost use Rattle.ra_top.specs.Report.Intervals.Lines.{function_line, block_line, range_line, lane_head, mark_text, segment_text};
ghost use Rattle.ra_top.specs.Report.Intervals.Told.{mark_of};

use crate::numbers::{put_number, put_numbered};
use std::alloc::AllocError;
use target_base::Bytes;

/// A point at an end of a segment, as it is written: a number and a letter.
#[derive(Clone, Copy, Debug, PartialEq, Eq)]
pub struct Point {
    /// The number of its block's start or of its instruction; 16 times the list's length at the end of
    /// the last block.
    pub number: u128,
    /// `B` at the border of a block, `r` at a reading or a writing, `e` at an early-clobber one, `d`
    /// where only the writing's exit is occupied.
    pub letter: u8,
}

/// Adds the line of a function.
pub(crate) fn put_function(out: &mut Bytes, name: &[u8]) -> Result<(), AllocError>
    ensures { OnOk result (out.new ≡ out.old ++ function_line name.now) }
{
    out.extend(b"function ")?;
    out.extend(name)?;
    out.extend(b"\n")
}

/// Adds the line of a block.
pub(crate) fn put_block(out: &mut Bytes, number: u32, freq: u64) -> Result<(), AllocError>
    ensures { OnOk result (out.new ≡ out.old ++ block_line number freq) }
{
    put_numbered(out, "bb.", number as u128)?;
    put_numbered(out, " freq ", freq as u128)?;
    out.extend(b"\n")
}

/// Adds the line of a range.
pub(crate) fn put_range(
    out: &mut Bytes,
    v: u32,
    class: &[u8],
    weight: u128,
) -> Result<(), AllocError>
    ensures { OnOk result (out.new ≡ out.old ++ range_line v class.now weight) }
{
    put_numbered(out, "%", v as u128)?;
    out.extend(b" ")?;
    out.extend(class)?;
    put_numbered(out, " weight ", weight)?;
    out.extend(b"\n")
}

/// Adds what stands before the segments of a lane.
pub(crate) fn put_lane_head(out: &mut Bytes, k: u32) -> Result<(), AllocError>
    ensures { OnOk result (out.new ≡ out.old ++ lane_head k) }
{
    put_numbered(out, "  lane ", k as u128)
}

/// Adds a point.
fn put_point(out: &mut Bytes, p: Point) -> Result<(), AllocError>
    ensures { OnOk result (out.new ≡ out.old ++ mark_text (mark_of p)) }
{
    put_number(out, p.number)?;
    out.push(p.letter)
}

/// Adds a segment from a point up to another.
pub(crate) fn put_segment(out: &mut Bytes, from: Point, to: Point) -> Result<(), AllocError>
    ensures { OnOk result (out.new ≡ out.old ++ segment_text (mark_of from, mark_of to)) }
{
    out.extend(b" [")?;
    put_point(out, from)?;
    out.extend(b",")?;
    put_point(out, to)?;
    out.extend(b")")
}
