//! Documents of a file in turn, one at a time.

ghost use Rattle.std.specs.Prelude.{◌≡◌, ◌≤◌, ◌<◌, ◌+◌, ◌++◌, ℕ, List, length, IfSome, [], Some, false, true};
ghost use Rattle.ra_top.specs.Devices.Pieces.{held_most};
ghost use Rattle.ra_top.specs.Commands.Spot.{file_most, first_spot, after};
ghost use Rattle.ra_top.specs.Told.{HasStatusCause, Streamed};
ghost use Rattle.ra_top.specs.Steps.{HasStepCause, AfterPiece, AfterDocument, Moves, Advances, IsFinished, ToldAtPiece, ToldStep};
ghost use Rattle.ra_top.specs.Commands.Documents.{tells, end_status};
ghost use Rattle.ra_top.specs.Commands.Told.{lines_of};
ghost use Rattle.ra_top.specs.Watched.{ToldAs, is_trace, WritesLines, TracesStep};

use crate::commands::{Answer, DocStart, Job, Status, Task, answer_at, end_status, end_text};
use crate::devices::moves::{FileStop, write_all};
use crate::devices::{Files, Sink, read_piece};
use crate::ending::{ExitReport, StreamStep};
use crate::reading::FileReader;
use std::alloc::Global;
use target_base::Bytes;
use watchers::Watcher;

/// Ends with a status whose line has no detail. It takes no memory.
pub fn ends(alloc: Global, status: Status) -> ExitReport
    ensures { (result.status ≡ status) × (result.detail ≡ []) }
{
    ExitReport {
        status,
        detail: Bytes::new(alloc),
    }
}

/// Treats a piece that was read: its text is made whole, and then written. The spot moves behind the
/// piece where the run goes on.
fn treat<O: Sink, W: Watcher>(
    task: Task<'_>,
    spot: &mut DocStart,
    piece: &[u8],
    out: &mut O,
    number: &mut u32,
    watchers: &mut Vec<W>,
) -> StreamStep
    requires line { spot.old.line ≤ spot.old.offset + 1 }
    requires within { spot.old.offset ≤ file_most }
    requires filled { 0 < length piece.now }
    ensures step { AfterPiece task.entry.job task.entry.reader.now spot.old piece.now (O.written out.old) (O.written out.new) result }
    ensures moves { Moves spot.old piece.now spot.new result }
    ensures cause { HasStepCause result 0 0 (O.faults out.old) (O.faults out.new) }
    ensures leaves { tells task.entry.job ≡ false → watchers.new ≡ watchers.old }
    ensures told { tells task.entry.job ≡ true → ToldAtPiece (W.next task.entry.reader.now) task.entry.reader.now spot.old piece.now number.old number.new watchers.old.items watchers.new.items result }
{
    match answer_at(task, *spot, piece, number, watchers) {
        Err(_) => StreamStep::End(ends(task.alloc, Status::Memory)),
        Ok(Answer::Refused(status, detail)) => StreamStep::End(ExitReport { status, detail }),
        Ok(Answer::Last(text)) => match write_all(out, text.as_slice()) {
            Err(_) => StreamStep::End(ends(task.alloc, Status::WriteFault)),
            Ok(()) => StreamStep::End(ends(task.alloc, Status::Done)),
        },
        Ok(Answer::Text(text)) => match write_all(out, text.as_slice()) {
            Err(_) => StreamStep::End(ends(task.alloc, Status::WriteFault)),
            Ok(()) => {
                *spot = spot.after(piece);
                StreamStep::More
            }
        },
    }
}

/// Ends a run where its file ends.
fn finish<O: Sink, W: Watcher>(alloc: Global, job: Job, out: &mut O, watchers: &[W]) -> StreamStep
    ensures finished { IsFinished job.entry (O.written out.old) (O.written out.new) result }
    ensures traced { is_trace job.entry ≡ true → TracesStep (lines_of W.count W.text watchers.now) (O.written out.old) (O.written out.new) result }
    ensures cause { HasStepCause result 0 0 (O.faults out.old) (O.faults out.new) }
{
    match end_text(alloc, job, watchers) {
        Err(_) => StreamStep::End(ends(alloc, Status::Memory)),
        Ok(text) => match write_all(out, text.as_slice()) {
            Err(_) => StreamStep::End(ends(alloc, Status::WriteFault)),
            Ok(()) => StreamStep::End(ends(alloc, end_status(job))),
        },
    }
}

/// Reads the next document and treats it. No read is made before it is treated.
fn document<F: Files, O: Sink, W: Watcher>(
    task: Task<'_>,
    files: &mut F,
    reading: &mut FileReader,
    out: &mut O,
    number: &mut u32,
    watchers: &mut Vec<W>,
) -> StreamStep
    requires line { reading.old.spot.line ≤ reading.old.spot.offset + 1 }
    requires within { reading.old.spot.offset ≤ file_most }
    ensures contents { (n : List ℕ) → F.contents files.new n ≡ F.contents files.old n }
    ensures step { IfSome (F.left files.old) (λ l. AfterDocument task.entry.job task.entry.reader.now reading.old.spot reading.new.spot (reading.old.chunk ++ l) (F.left files.new) reading.new.chunk (O.written out.old) (O.written out.new) result) }
    ensures moves { Advances reading.old.spot reading.new.spot result }
    ensures cause { HasStepCause result (F.faults files.old) (F.faults files.new) (O.faults out.old) (O.faults out.new) }
    ensures leaves { tells task.entry.job ≡ false → watchers.new ≡ watchers.old }
    ensures told { tells task.entry.job ≡ true → ToldStep (W.next task.entry.reader.now) task.entry.reader.now reading.old.spot reading.new.spot (F.left files.old) reading.old.chunk (F.left files.new) reading.new.chunk number.old number.new watchers.old.items watchers.new.items result }
    ensures traced { is_trace task.entry.job ≡ true → TracesStep (lines_of W.count W.text watchers.new.items) (O.written out.old) (O.written out.new) result }
{
    reading.piece.clear();
    match read_piece(files, &mut reading.chunk, &mut reading.piece) {
        Err(FileStop::Failed) => StreamStep::End(ends(task.alloc, Status::ReadFault)),
        Err(FileStop::Memory(_)) => StreamStep::End(ends(task.alloc, Status::Memory)),
        Ok(()) => {
            let piece = reading.piece.bytes();
            if piece.is_empty() {
                finish(task.alloc, task.job, out, watchers.as_slice())
            } else {
                treat(task, &mut reading.spot, piece, out, number, watchers)
            }
        }
    }
}

/// Treats the documents of a file that was begun, each before the next is read.
pub fn stream<F: Files, O: Sink, W: Watcher>(
    task: Task<'_>,
    files: &mut F,
    out: &mut O,
    watchers: &mut Vec<W>,
) -> ExitReport
    ensures contents { (n : List ℕ) → F.contents files.new n ≡ F.contents files.old n }
    ensures streamed { IfSome (F.left files.old) (λ file. Streamed task.entry.job task.entry.reader.now file (F.left files.new) (O.written out.old) (O.written out.new) result.status result.detail) }
    ensures cause { HasStatusCause result.status (F.faults files.old) (F.faults files.new) (O.faults out.old) (O.faults out.new) }
    ensures leaves { tells task.entry.job ≡ false → watchers.new ≡ watchers.old }
    ensures told { tells task.entry.job ≡ true → ToldAs (W.next task.entry.reader.now) task.entry.reader.now (F.left files.old) watchers.old.items watchers.new.items result.status }
    ensures traced { is_trace task.entry.job ≡ true → WritesLines (lines_of W.count W.text watchers.new.items) (O.written out.old) (O.written out.new) result.status }
{
    match FileReader::new(task.alloc) {
        Err(_) => ends(task.alloc, Status::Memory),
        Ok(begun) => stream_from(task, files, out, begun, watchers),
    }
}

/// The same, where nothing of the file is read yet.
fn stream_from<F: Files, O: Sink, W: Watcher>(
    task: Task<'_>,
    files: &mut F,
    out: &mut O,
    begun: FileReader,
    watchers: &mut Vec<W>,
) -> ExitReport
    requires first { begun.spot ≡ first_spot }
    requires empty { begun.chunk ≡ [] }
    ensures contents { (n : List ℕ) → F.contents files.new n ≡ F.contents files.old n }
    ensures streamed { IfSome (F.left files.old) (λ file. Streamed task.entry.job task.entry.reader.now file (F.left files.new) (O.written out.old) (O.written out.new) result.status result.detail) }
    ensures cause { HasStatusCause result.status (F.faults files.old) (F.faults files.new) (O.faults out.old) (O.faults out.new) }
    ensures leaves { tells task.entry.job ≡ false → watchers.new ≡ watchers.old }
    ensures told { tells task.entry.job ≡ true → ToldAs (W.next task.entry.reader.now) task.entry.reader.now (F.left files.old) watchers.old.items watchers.new.items result.status }
    ensures traced { is_trace task.entry.job ≡ true → WritesLines (lines_of W.count W.text watchers.new.items) (O.written out.old) (O.written out.new) result.status }
{
    let mut reading = begun;
    let mut number = 0u32;
    'documents: loop {
        match document(task, files, &mut reading, out, &mut number, watchers) {
            StreamStep::More => {}
            StreamStep::End(ending) => return ending,
        }
    }
}
