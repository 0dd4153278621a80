//! The text of a function that was made ready for the run.

ghost use Rattle.std.specs.Prelude.{IfOk};
ghost use Rattle.pipeline.specs.Passes.Ready.{IsLive};
ghost use Rattle.ra_top.specs.Report.Intervals.Lines.{IsLiveText};

use crate::report::intervals::text::text_of;
use pipeline::passes::PreparedFunc;
use std::alloc::{AllocError, Global};
use target_base::{Bytes, Target};

/// What is live where in a function of a name that was made ready for the run, from a table that was
/// computed of it. It has the line
/// `function NAME`; for each block, in layout, the line `bb.N freq F`; and for each range that an
/// operand names, by its number, the line `%V CLASS weight W` and for each of its lanes a line of two
/// spaces, `lane K` and its segments, each behind one space. A segment stays in one block and is
/// written `[FROM,TO)`. The list of each block's start and its instructions, in layout, counts 0, 16,
/// 32 and on. A segment begins with `B` at the block's start, with `r` at a writing and with `e` at an
/// early-clobber one. It ends with `r` at its last reading, with `d` where only the writing's exit is
/// occupied, and with `B` at the block's end, with the number of the next start or, behind the last
/// block, 16 times the list's length.
pub fn text_of_intervals(
    alloc: Global,
    target: &Target,
    name: &[u8],
    prepared: &PreparedFunc,
) -> Result<Bytes, AllocError>
    requires { IsLive target.now prepared.now }
    ensures { IfOk result (IsLiveText target.now name.now prepared.now.freqs prepared.now.live.func) }
{
    text_of(alloc, target, name, &prepared.live, &prepared.freqs)
}
