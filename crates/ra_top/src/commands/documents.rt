//! What each command answers at a document.

ghost use Rattle.std.specs.Prelude.{◌≡◌, ◌++◌, IfOk, OnErr, codes, false, true};
ghost use Rattle.machine_verify.specs.Lives.{FitsTarget};
ghost use Rattle.mir_text.specs.declared.doc.Doc.TheVariants as docs;
ghost use Rattle.pipeline.specs.Guarded.Told.{ToldPart};
ghost use Rattle.ra_top.specs.Commands.Told as watched;
ghost use Rattle.ra_top.specs.Commands.Told.{next_number, ToldAnswer, ToldOne, IsEndOf};
ghost use Rattle.ra_top.specs.Commands.Documents.{DocFits, IsDocAnswer, IsDocWithin, IsAllocAnswer, IsEndText, tells, text_of_lines};

use crate::commands::answer::{AllocatorRun, Answer, Job};
use crate::commands::intervals::intervals_of;
use crate::commands::refusal::refused;
use crate::commands::run::at_named;
use crate::commands::told::lines_of;
use crate::commands::trace::trace_function;
use crate::commands::verify::verified_function;
use mir_func::Func;
use mir_text::{Doc, DocReader};
use pipeline::guarded::allocate_function;
use std::alloc::{AllocError, Global};
use target_base::Bytes;
use watchers::Watcher;

/// The command `alloc` at a function document: the lines before it, and its function, allocated by a run
/// of an allocator.
fn allocated_function<W: Watcher>(
    alloc: Global,
    reader: &DocReader,
    before: Bytes,
    f: Func,
    run: AllocatorRun,
    watchers: &mut Vec<W>,
) -> Result<Answer, AllocError>
    requires { FitsTarget reader.now f }
    ensures answer { IfOk result (IsAllocAnswer reader.now before f) }
    ensures told { IfOk result (ToldOne (W.next reader.now) run.number watchers.old.items watchers.new.items) }
    ensures part { OnErr result (ToldPart (W.next reader.now) watchers.old.items watchers.new.items) }
{
    match allocate_function(alloc, reader, f, run.allocator, run.number, watchers) {
        Ok(made) => {
            let mut text = before;
            text.extend(made.text.as_slice())?;
            Ok(Answer::Text(text))
        }
        Err(stop) => refused(alloc, stop),
    }
}

/// The number of the next function, which rises. At its greatest value it stands.
fn next(number: &mut u32) -> u32
    ensures now { result ≡ number.old }
    ensures next { number.new ≡ next_number number.old }
{
    let now = *number;
    *number = now.saturating_add(1);
    now
}

/// What is answered at a document that is no function: `alloc` writes its bytes, and the other
/// commands nothing.
fn at_lines(alloc: Global, job: Job, lines: Bytes) -> Bytes
    ensures { result ≡ text_of_lines job.entry lines }
{
    match job {
        Job::Alloc(_) => lines,
        Job::Verify(_) => Bytes::new(alloc),
        Job::Run(_, _, _) => Bytes::new(alloc),
        Job::Intervals => Bytes::new(alloc),
        Job::Trace(_) => Bytes::new(alloc),
    }
}

/// What is answered at a document.
pub fn at_document<W: Watcher>(
    alloc: Global,
    job: Job,
    reader: &DocReader,
    doc: Doc,
    number: &mut u32,
    watchers: &mut Vec<W>,
) -> Result<Answer, AllocError>
    requires fits { DocFits reader.now doc }
    requires within { IsDocWithin doc }
    ensures answer { IfOk result (IsDocAnswer job.entry reader.now doc) }
    ensures leaves { tells job.entry ≡ false → watchers.new ≡ watchers.old }
    ensures told { tells job.entry ≡ true → IfOk result (ToldAnswer (W.next reader.now) doc number.old number.new watchers.old.items watchers.new.items) }
    ensures part { OnErr result (ToldPart (W.next reader.now) watchers.old.items watchers.new.items) }
{
    match doc {
        Doc::Function(before, f) => match job {
            Job::Alloc(allocator) => {
                let number = next(number);
                let run = AllocatorRun { allocator, number };
                allocated_function(alloc, reader, before, f, run, watchers)
            }
            Job::Verify(form) => verified_function(alloc, reader.target(), form, f),
            Job::Run(name, n, seed) => at_named(alloc, reader.target(), name, n, seed, f),
            Job::Intervals => intervals_of(alloc, reader.shared_target(), f),
            Job::Trace(allocator) => {
                let number = next(number);
                let run = AllocatorRun { allocator, number };
                trace_function(alloc, reader.shared_target(), f, run, watchers)
            }
        },
        Doc::Ir(lines) => Ok(Answer::Text(at_lines(alloc, job, lines))),
        Doc::Rest(lines) => Ok(Answer::Text(at_lines(alloc, job, lines))),
    }
}

/// What is written where the file ends: the lines of the watchers for `trace`, and nothing for the
/// other commands.
pub fn end_text<W: Watcher>(alloc: Global, job: Job, watchers: &[W]) -> Result<Bytes, AllocError>
    ensures text { IfOk result (IsEndText job.entry) }
    ensures lines { IfOk result (IsEndOf (watched.lines_of W.count W.text watchers.now) job.entry) }
{
    match job {
        Job::Trace(_) => lines_of(alloc, watchers),
        _ => Ok(Bytes::new(alloc)),
    }
}
