//! The command `gen`.

ghost use Rattle.std.specs.Prelude.{◌≡◌};
ghost use Rattle.target_base.specs.Mini.{mini_target};
ghost use Rattle.ra_top.specs.Due.{IsWrittenEnd};
ghost use Rattle.ra_top.specs.Told.{HasStatusCause, DoesGen};
ghost use Rattle.ra_top.specs.Watched.{ToldGen};

use crate::commands::{Answer, Status, gen_answer};
use crate::devices::Sink;
use crate::devices::moves::write_all;
use crate::ending::ExitReport;
use crate::stream::ends;
use std::alloc::Global;
use target_base::Bytes;
use watchers::Watcher;

/// Writes a text.
pub(crate) fn write_text<O: Sink>(alloc: Global, text: Bytes, out: &mut O) -> ExitReport
    ensures does { IsWrittenEnd text (O.written out.old) (O.written out.new) result.status }
    ensures cause { HasStatusCause result.status 0 0 (O.faults out.old) (O.faults out.new) }
{
    match write_all(out, text.as_slice()) {
        Err(_) => ends(alloc, Status::WriteFault),
        Ok(()) => ends(alloc, Status::Done),
    }
}

/// Writes the summary of the function that is generated for a seed.
pub fn generate<O: Sink, W: Watcher>(
    alloc: Global,
    seed: u64,
    out: &mut O,
    watchers: &mut Vec<W>,
) -> ExitReport
    ensures does { DoesGen seed (O.written out.old) (O.written out.new) result.status result.detail }
    ensures cause { HasStatusCause result.status 0 0 (O.faults out.old) (O.faults out.new) }
    ensures told { ToldGen (W.next mini_target) watchers.old.items watchers.new.items result.status }
{
    match gen_answer(alloc, seed, watchers) {
        Err(_) => ends(alloc, Status::Memory),
        Ok(Answer::Refused(status, detail)) => ExitReport { status, detail },
        Ok(Answer::Text(text)) => write_text(alloc, text, out),
        Ok(Answer::Last(text)) => write_text(alloc, text, out),
    }
}
