//! The lines of a summary.

ghost use Rattle.std.specs.Prelude.{◌≡◌, ◌++◌, OnOk, codes};
ghost use Rattle.ra_top.specs.Report.Summary.Summary.{end_word, seed_line, source_line, allocated_line, run_line};

use crate::numbers::put_numbered;
use crate::report::summary::counts::{FuncSize, RunSummary};
use mir_interp::End;
use std::alloc::AllocError;
use target_base::Bytes;

/// The word of an end.
fn end_word(end: End) -> &'static str
    ensures { result.now ≡ end_word end }
{
    match end {
        End::Returned => "returned",
        End::Trapped => "trapped",
        End::Undefined => "undefined",
        End::Steps => "steps",
    }
}

/// Adds the line of the seed.
pub(crate) fn put_seed(out: &mut Bytes, seed: u64) -> Result<(), AllocError>
    ensures { OnOk result (out.new ≡ out.old ++ seed_line seed) }
{
    put_numbered(out, "gen ", seed as u128)?;
    out.extend(b"\n")
}

/// Adds the line of the source.
pub(crate) fn put_source(out: &mut Bytes, source: FuncSize) -> Result<(), AllocError>
    ensures { OnOk result (out.new ≡ out.old ++ source_line source) }
{
    put_numbered(out, "source blocks ", source.blocks as u128)?;
    put_numbered(out, " instructions ", source.instrs)?;
    put_numbered(out, " registers ", source.registers as u128)?;
    out.extend(b"\n")
}

/// Adds the line of the allocated function.
pub(crate) fn put_allocated(out: &mut Bytes, made: FuncSize) -> Result<(), AllocError>
    ensures { OnOk result (out.new ≡ out.old ++ allocated_line made) }
{
    out.extend(b"allocated")?;
    put_numbered(out, " instructions ", made.instrs)?;
    put_numbered(out, " slots ", made.slots as u128)?;
    out.extend(b"\n")?;
    Ok(())
}

/// Adds the line of the run of a function, which this word stands for.
pub(crate) fn put_run(out: &mut Bytes, word: &str, ran: RunSummary) -> Result<(), AllocError>
    ensures { OnOk result (out.new ≡ out.old ++ run_line word.now ran) }
{
    out.extend(word.as_bytes())?;
    put_numbered(out, " events ", ran.events as u128)?;
    out.extend(b" end ")?;
    out.extend(end_word(ran.end).as_bytes())?;
    out.extend(b"\n")
}
