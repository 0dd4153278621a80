//! The top call.

ghost use Rattle.std.specs.Prelude.{◌≡◌, ℕ, List, IfSome, false, true};
ghost use Rattle.ra_top.specs.Words.Words.{bytes_of, command_of};
ghost use Rattle.ra_top.specs.Commands.Status.{line_of};
ghost use Rattle.ra_top.specs.Commands.Documents.{tells};
ghost use Rattle.ra_top.specs.Told.{HasStatusCause, DoesAll, DoesJobAll, DoesCheckAll, asks_anything, tells_words, IsTold, Streamed};
ghost use Rattle.ra_top.specs.Commands.Told.{lines_of};
ghost use Rattle.ra_top.specs.Watched.{ToldAs, ToldJob, ToldWords, IfTells, is_trace, asks_trace, WritesLines};

use crate::check::check;
use crate::commands::status::write_line;
use crate::commands::{Job, Status, Task};
use crate::devices::{Files, Sink};
use crate::ending::ExitReport;
use crate::generated::generate;
use crate::stream::{ends, stream};
use crate::target::named_target;
use crate::words::{Command, read_words};
use mir_meaning::Form;
use mir_text::DocReader;
use std::alloc::Global;
use target_base::Target;
use watchers::Watcher;

/// A command over the documents of a file.
#[derive(Clone, Copy)]
struct FileCommand<'a> {
    /// What is done with each document.
    job: Job<'a>,
    /// The word of the target.
    target: &'a str,
    /// The word of the file.
    file: &'a str,
}

/// The command `check` over two files.
#[derive(Clone, Copy)]
struct CheckCommand<'a> {
    /// The word of the target.
    target: &'a str,
    /// The word of the source file.
    source: &'a str,
    /// The word of the file with its functions allocated.
    allocated: &'a str,
}

/// Does all that the program does: reads its words, which are those after its name, treats the
/// documents of the file that they name one at a time, each before the next is read, and writes a
/// line that tells the status to `err`, where there is one. The words are refused first, then the
/// target, then each document in turn; for `check` those of the source file, and then those of the
/// other. The output of a document is made whole before any of it is written; `check` writes at its
/// end. After the first fault of `files` or `out` it calls neither again; a fault of `err` changes
/// nothing. Every form of `alloc` and of `trace`, and `gen`, tell the watchers each step of each run, in
/// order; the other commands leave them as they were. With Done each watcher was told one run for each
/// function of the file, in order, from the number 0 on; after a refusal it was told some steps, of
/// which the clause says no more. With Done a form of `trace` has written the watchers' lines as they
/// then stand.
#[tactic(auto, using(crate::proofs::Watched::words_told))]
pub fn top<F: Files, O: Sink, E: Sink, W: Watcher>(
    alloc: Global,
    words: &[String],
    files: &mut F,
    out: &mut O,
    err: &mut E,
    watchers: &mut Vec<W>,
) -> Status
    ensures contents { (n : List ℕ) → F.contents files.new n ≡ F.contents files.old n }
    ensures does { DoesAll (command_of (bytes_of words.now)) (F.contents files.old) (F.left files.new) (O.written out.old) (O.written out.new) (E.faults err.old) (E.faults err.new) (E.written err.old) (E.written err.new) result }
    ensures cause { HasStatusCause result (F.faults files.old) (F.faults files.new) (O.faults out.old) (O.faults out.new) }
    ensures leaves { tells_words (command_of (bytes_of words.now)) ≡ false → watchers.new ≡ watchers.old }
    ensures told { ToldWords W.next (command_of (bytes_of words.now)) (F.contents files.old) watchers.old.items watchers.new.items result }
    ensures traced { asks_trace (command_of (bytes_of words.now)) ≡ true → WritesLines (lines_of W.count W.text watchers.new.items) (O.written out.old) (O.written out.new) result }
    ensures words { asks_anything (command_of (bytes_of words.now)) ≡ false → (files.new ≡ files.old) × (out.new ≡ out.old) }
{
    match read_words(alloc, words) {
        Err(_) => tell(err, ends(alloc, Status::Memory), ""),
        Ok(None) => tell(err, ends(alloc, Status::Usage), ""),
        Ok(Some(Command::Alloc(allocator, target, file))) => {
            let job = Job::Alloc(allocator);
            let command = FileCommand { job, target, file };
            over_file(alloc, command, files, out, err, watchers)
        }
        Ok(Some(Command::VerifySource(target, file))) => {
            let job = Job::Verify(Form::Source);
            let command = FileCommand { job, target, file };
            over_file(alloc, command, files, out, err, watchers)
        }
        Ok(Some(Command::VerifyAllocated(target, file))) => {
            let job = Job::Verify(Form::Allocated);
            let command = FileCommand { job, target, file };
            over_file(alloc, command, files, out, err, watchers)
        }
        Ok(Some(Command::Run(target, file, name, n, seed))) => {
            let job = Job::Run(name, n, seed);
            let command = FileCommand { job, target, file };
            over_file(alloc, command, files, out, err, watchers)
        }
        Ok(Some(Command::Intervals(target, file))) => {
            let job = Job::Intervals;
            let command = FileCommand { job, target, file };
            over_file(alloc, command, files, out, err, watchers)
        }
        Ok(Some(Command::Trace(allocator, target, file))) => {
            let job = Job::Trace(allocator);
            let command = FileCommand { job, target, file };
            over_file(alloc, command, files, out, err, watchers)
        }
        Ok(Some(Command::Check(target, source, allocated))) => {
            let command = CheckCommand {
                target,
                source,
                allocated,
            };
            over_files(alloc, command, files, out, err)
        }
        Ok(Some(Command::Gen(seed))) => {
            let ending = generate(alloc, seed, out, watchers);
            tell(err, ending, "g")
        }
    }
}

/// Writes the line of an ending, for a file of a name, and answers the status. A fault changes
/// nothing.
fn tell<E: Sink>(err: &mut E, ending: ExitReport, file: &str) -> Status
    ensures status { result ≡ ending.status }
    ensures line { IsTold (E.faults err.old) (E.faults err.new) (E.written err.old) (E.written err.new) (line_of ending.status file.now ending.detail) }
{
    match write_line(err, ending.status, file, ending.detail.as_slice()) {
        Ok(()) => ending.status,
        Err(_) => ending.status,
    }
}

/// A command that treats the documents of a file in turn, over the target of a word.
fn over_file<F: Files, O: Sink, E: Sink, W: Watcher>(
    alloc: Global,
    command: FileCommand<'_>,
    files: &mut F,
    out: &mut O,
    err: &mut E,
    watchers: &mut Vec<W>,
) -> Status
    ensures contents { (n : List ℕ) → F.contents files.new n ≡ F.contents files.old n }
    ensures does { DoesJobAll command.entry.job command.entry.target.now command.entry.file.now (F.contents files.old) (F.left files.new) (O.written out.old) (O.written out.new) (E.faults err.old) (E.faults err.new) (E.written err.old) (E.written err.new) result }
    ensures cause { HasStatusCause result (F.faults files.old) (F.faults files.new) (O.faults out.old) (O.faults out.new) }
    ensures leaves { tells command.entry.job ≡ false → watchers.new ≡ watchers.old }
    ensures told { IfTells command.entry.job (ToldJob W.next command.entry.target.now (F.contents files.old command.entry.target.now) (F.contents files.old command.entry.file.now) watchers.old.items watchers.new.items result) }
    ensures traced { is_trace command.entry.job ≡ true → WritesLines (lines_of W.count W.text watchers.new.items) (O.written out.old) (O.written out.new) result }
{
    match named_target(alloc, command.target, files) {
        Err(ending) => tell(err, ending, command.target),
        Ok(read) => {
            let ending = over_target(alloc, &read, command, files, out, watchers);
            tell(err, ending, command.file)
        }
    }
}

/// The command `check` over the files of two words and the target of a word.
fn over_files<F: Files, O: Sink, E: Sink>(
    alloc: Global,
    command: CheckCommand<'_>,
    files: &mut F,
    out: &mut O,
    err: &mut E,
) -> Status
    ensures contents { (n : List ℕ) → F.contents files.new n ≡ F.contents files.old n }
    ensures does { DoesCheckAll command.entry.target.now command.entry.source.now command.entry.allocated.now (F.contents files.old) (F.left files.new) (O.written out.old) (O.written out.new) (E.faults err.old) (E.faults err.new) (E.written err.old) (E.written err.new) result }
    ensures cause { HasStatusCause result (F.faults files.old) (F.faults files.new) (O.faults out.old) (O.faults out.new) }
{
    let CheckCommand {
        target,
        source,
        allocated,
    } = command;
    match named_target(alloc, target, files) {
        Err(ending) => tell(err, ending, target),
        Ok(read) => {
            let (ending, file) = check(alloc, &read, source, allocated, files, out);
            tell(err, ending, file)
        }
    }
}

/// The same, over the target that was read. Its reader is made once for all documents.
fn over_target<F: Files, O: Sink, W: Watcher>(
    alloc: Global,
    target: &Target,
    command: FileCommand<'_>,
    files: &mut F,
    out: &mut O,
    watchers: &mut Vec<W>,
) -> ExitReport
    ensures contents { (n : List ℕ) → F.contents files.new n ≡ F.contents files.old n }
    ensures streamed { IfSome (F.contents files.old command.entry.file.now) (λ bytes. Streamed command.entry.job target.now bytes (F.left files.new) (O.written out.old) (O.written out.new) result.status result.detail) }
    ensures cause { HasStatusCause result.status (F.faults files.old) (F.faults files.new) (O.faults out.old) (O.faults out.new) }
    ensures leaves { tells command.entry.job ≡ false → watchers.new ≡ watchers.old }
    ensures told { tells command.entry.job ≡ true → ToldAs (W.next target.now) target.now (F.contents files.old command.entry.file.now) watchers.old.items watchers.new.items result.status }
    ensures traced { is_trace command.entry.job ≡ true → WritesLines (lines_of W.count W.text watchers.new.items) (O.written out.old) (O.written out.new) result.status }
{
    match DocReader::new(alloc, target) {
        Err(_) => ends(alloc, Status::Memory),
        Ok(reader) => {
            let task = Task {
                alloc,
                job: command.job,
                reader: &reader,
            };
            over_reader(task, command.file, files, out, watchers)
        }
    }
}

/// The same, with the reader over the target.
fn over_reader<F: Files, O: Sink, W: Watcher>(
    task: Task<'_>,
    file: &str,
    files: &mut F,
    out: &mut O,
    watchers: &mut Vec<W>,
) -> ExitReport
    ensures contents { (n : List ℕ) → F.contents files.new n ≡ F.contents files.old n }
    ensures streamed { IfSome (F.contents files.old file.now) (λ bytes. Streamed task.entry.job task.entry.reader.now bytes (F.left files.new) (O.written out.old) (O.written out.new) result.status result.detail) }
    ensures cause { HasStatusCause result.status (F.faults files.old) (F.faults files.new) (O.faults out.old) (O.faults out.new) }
    ensures leaves { tells task.entry.job ≡ false → watchers.new ≡ watchers.old }
    ensures told { tells task.entry.job ≡ true → ToldAs (W.next task.entry.reader.now) task.entry.reader.now (F.contents files.old file.now) watchers.old.items watchers.new.items result.status }
    ensures traced { is_trace task.entry.job ≡ true → WritesLines (lines_of W.count W.text watchers.new.items) (O.written out.old) (O.written out.new) result.status }
{
    match files.start(file) {
        Err(_) => ends(task.alloc, Status::ReadFault),
        Ok(()) => stream(task, files, out, watchers),
    }
}
