//! What a command answers at a piece of a file.

ghost use Rattle.std.specs.Prelude.{◌≡◌, ◌==◌, ◌≤◌, ◌+◌, IfOk, OnErr, length, Some, None, false, true};
ghost use Rattle.pipeline.specs.Guarded.Told.{ToldPart};
ghost use Rattle.ra_top.specs.Commands.Told.{ToldPiece};
ghost use Rattle.ra_top.specs.Commands.Spot.{file_most, length_fault};
ghost use Rattle.ra_top.specs.Commands.Answer.{IsAnswer};
ghost use Rattle.ra_top.specs.Commands.Documents.{end_status, IsEndText, tells};

use crate::commands::documents::at_document;
use crate::commands::piece::doc_at;
use crate::commands::refusal::Refusal;
use crate::commands::spot::DocStart;
use crate::commands::status::Status;
use mir_meaning::Form;
use mir_text::DocReader;
use pipeline::guarded::Allocator;
use std::alloc::{AllocError, Global};
use target_base::Bytes;
use watchers::Watcher;

/// What is done with each document of a file.
#[derive(Clone, Copy)]
pub enum Job<'a> {
    /// It is written with its function allocated by this allocator.
    Alloc(Allocator),
    /// A line says of each function that it is valid in a form.
    Verify(Form),
    /// The first function of a name is run through N counted instructions in the environment of SEED.
    Run(&'a str, u64, u64),
    /// Of each function it is written what is live where once it is made ready for the allocator's run.
    Intervals,
    /// Each function is allocated by this allocator for the watchers, whose lines are written at the end.
    Trace(Allocator),
}

/// What is done with the documents of a file, and how they are read.
#[derive(Clone, Copy)]
pub struct Task<'a> {
    /// The allocator of memory.
    pub alloc: Global,
    /// What is done with each document.
    pub job: Job<'a>,
    /// The reader of documents over the target.
    pub reader: &'a DocReader,
}

/// A run of an allocator over a function.
#[derive(Clone, Copy)]
pub struct AllocatorRun {
    /// The allocator.
    pub allocator: Allocator,
    /// The number of the function.
    pub number: u32,
}

/// What is answered at a piece.
#[derive(Drop)]
pub enum Answer {
    /// The text that is written for it; the run goes on.
    Text(Bytes),
    /// The text that is written for it; the run ends.
    Last(Bytes),
    /// It is refused by a status, with the detail of its line.
    Refused(Status, Bytes),
}

/// How a run ends where its file does.
pub fn end_status(job: Job) -> Status
    ensures { result ≡ end_status job.entry }
{
    match job {
        Job::Alloc(_) => Status::Done,
        Job::Verify(_) => Status::Done,
        Job::Run(_, _, _) => Status::Usage,
        Job::Intervals => Status::Done,
        Job::Trace(_) => Status::Done,
    }
}

/// What is answered at a piece that begins at a spot; it may be 4,194,305 bytes long, which are the
/// first ones of a longer piece. `number` is that of the next function that is allocated, and rises
/// with it. The commands `alloc` and `trace` tell the watchers; the others leave them as they were. Of a
/// function each watcher is told one run, and a first part of it where it is refused; of another
/// document nothing.
#[tactic(auto, using(crate::proofs::CommandLemmas::Refused::unspelled))]
pub fn answer_at<W: Watcher>(
    task: Task<'_>,
    spot: DocStart,
    piece: &[u8],
    number: &mut u32,
    watchers: &mut Vec<W>,
) -> Result<Answer, AllocError>
    requires line { spot.line ≤ spot.offset + 1 }
    requires within { spot.offset ≤ file_most }
    ensures answer { IfOk result (λ a. IsAnswer task.entry.job task.entry.reader.now spot piece.now a) }
    ensures leaves { tells task.entry.job ≡ false → watchers.new ≡ watchers.old }
    ensures told { tells task.entry.job ≡ true → IfOk result (ToldPiece (W.next task.entry.reader.now) task.entry.reader.now spot piece.now number.old number.new watchers.old.items watchers.new.items) }
    ensures part { OnErr result (ToldPart (W.next task.entry.reader.now) watchers.old.items watchers.new.items) }
{
    match doc_at(task.alloc, task.reader, spot, piece) {
        Ok(doc) => at_document(task.alloc, task.job, task.reader, doc, number, watchers),
        Err(Refusal::By(status, detail)) => Ok(Answer::Refused(status, detail)),
        Err(Refusal::Memory(e)) => Err(e),
    }
}
