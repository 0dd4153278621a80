//! The two files of `check`.

ghost use Rattle.std.specs.Prelude.{◌≡◌, ◌++◌, ◌∷◌, [], ℕ, List, IfOk, IfErr, OnOk, IfSome};
ghost use Rattle.pipeline.specs.Guarded.Function.{IsTaken};
ghost use Rattle.ra_top.specs.Commands.Documents.{DocFits};
ghost use Rattle.ra_top.specs.Commands.Piece.{IfBy, IsOfMemory};
ghost use Rattle.ra_top.specs.Checked.{SourceRefuses, LimitRefuses, RefusesFunction, IsWithin, IsRead, IsSourceBroken, IsAllocatedBroken, ChecksFiles};
ghost use Rattle.ra_top.specs.Reading.{HasCauseOf, plain, AddsSource, AddsLine, SaysOfFile, EndsAs};
ghost use Rattle.ra_top.specs.Told.{HasStatusCause};

use crate::commands::pairs::{put_left, put_pair};
use crate::commands::refusal::refusal_of;
use crate::commands::verify::source_of;
use crate::commands::{Refusal, Status};
use crate::devices::{Files, Sink};
use crate::ending::ExitReport;
use crate::generated::write_text;
use crate::reading::{begin, next_document};
use crate::stream::ends;
use mir_func::Valid;
use mir_text::{Doc, DocReader};
use pipeline::guarded::within_limits;
use std::alloc::{AllocError, Global};
use target_base::{Bytes, Target};

/// Adds a function of the source file.
fn keep(sources: &mut Vec<Valid>, source: Valid) -> Result<(), Refusal>
    ensures ok { OnOk result (sources.new.items ≡ sources.old.items ++ source ∷ []) }
    ensures err { IfErr result IsOfMemory }
{
    match sources.push(source) {
        Ok(()) => Ok(()),
        Err(e) => Err(AllocError::from(e).into()),
    }
}

/// Adds the function of a document of the source file, if it has one. Refused is a function that
/// `verify source` refuses.
fn add_source(
    alloc: Global,
    reader: &DocReader,
    doc: Doc,
    sources: &mut Vec<Valid>,
) -> Result<(), Refusal>
    requires { DocFits reader.now doc }
    ensures ok { OnOk result (AddsSource reader.now doc sources.old.items sources.new.items) }
    ensures err { IfErr result (IfBy (RefusesFunction (SourceRefuses reader.now) doc)) }
{
    match doc {
        Doc::Function(_, f) => keep(sources, source_of(alloc, reader.target(), f)?),
        Doc::Ir(_) => Ok(()),
        Doc::Rest(_) => Ok(()),
    }
}

/// The functions of the source file of a name.
fn sources_of<F: Files>(
    alloc: Global,
    reader: &DocReader,
    name: &str,
    files: &mut F,
) -> Result<Vec<Valid>, Refusal>
    ensures contents { (n : List ℕ) → F.contents files.new n ≡ F.contents files.old n }
    ensures ok { IfOk result (λ sources. IfSome (F.contents files.old name.now) (λ bytes. IsRead (IsTaken reader.now) reader.now bytes (plain sources.items))) }
    ensures err { IfErr result (IfBy (λ s detail. IfSome (F.contents files.old name.now) (λ bytes. IsSourceBroken reader.now bytes (F.left files.new) s detail))) }
    ensures cause { HasCauseOf (F.faults files.old) (F.faults files.new) result }
{
    let mut reading = begin(alloc, name, files)?;
    let mut sources = Vec::new(alloc);
    'documents: loop {
        match next_document(alloc, reader, files, &mut reading)? {
            Some(doc) => add_source(alloc, reader, doc, &mut sources)?,
            None => return Ok(sources),
        }
    }
}

/// Adds the line of the function of a document of the second file, if it has one. Answers the
/// functions of the source file that have no partner yet. Refused is a function that passes a limit.
#[tactic(auto, using(crate::proofs::CommandLemmas::Causes::limit_refused))]
fn add_line<'a>(
    alloc: Global,
    reader: &DocReader,
    doc: Doc,
    left: &'a [Valid],
    lines: &mut Bytes,
) -> Result<&'a [Valid], Refusal>
    requires { DocFits reader.now doc }
    ensures ok { IfOk result (λ rest. AddsLine reader.now doc (plain left.now) (plain rest.now) lines.old lines.new) }
    ensures err { IfErr result (IfBy (RefusesFunction LimitRefuses doc)) }
{
    match doc {
        Doc::Function(_, g) => match within_limits(&g) {
            Ok(()) => Ok(put_pair(alloc, reader.target(), left, &g, lines)?),
            Err(stop) => Err(refusal_of(alloc, stop)),
        },
        Doc::Ir(_) => Ok(left),
        Doc::Rest(_) => Ok(left),
    }
}

/// What is said of the functions of the source file and of those of the second file, which has this
/// name.
fn lines_of<F: Files>(
    alloc: Global,
    reader: &DocReader,
    sources: &[Valid],
    name: &str,
    files: &mut F,
) -> Result<Bytes, Refusal>
    ensures contents { (n : List ℕ) → F.contents files.new n ≡ F.contents files.old n }
    ensures ok { IfOk result (SaysOfFile reader.now (plain sources.now) (F.contents files.old name.now)) }
    ensures err { IfErr result (IfBy (λ s detail. IfSome (F.contents files.old name.now) (λ bytes. IsAllocatedBroken reader.now bytes (F.left files.new) s detail))) }
    ensures cause { HasCauseOf (F.faults files.old) (F.faults files.new) result }
{
    let mut reading = begin(alloc, name, files)?;
    let mut lines = Bytes::new(alloc);
    let mut left = sources;
    'documents: loop {
        match next_document(alloc, reader, files, &mut reading)? {
            Some(doc) => left = add_line(alloc, reader, doc, left, &mut lines)?,
            None => break,
        }
    }
    put_left(left, &mut lines)?;
    Ok(lines)
}

/// Ends with a refusal.
fn report_refusal(alloc: Global, refusal: Refusal) -> ExitReport
    ensures { EndsAs refusal result.status result.detail }
{
    match refusal {
        Refusal::By(status, detail) => ExitReport { status, detail },
        Refusal::Memory(_) => ends(alloc, Status::Memory),
    }
}

/// Says of each function of the second file whether it is an allocation of its partner in the source
/// file, and of each function of either without a partner that it is alone. The source file is read
/// and refused first, as by `verify source`; then the second, for lengths, text and the limits of
/// blocks, instructions and virtual registers. The output is written at the end alone. Answers how
/// the run ends, with the name of the file that the ending is about.
pub fn check<'a, F: Files, O: Sink>(
    alloc: Global,
    target: &Target,
    source: &'a str,
    allocated: &'a str,
    files: &mut F,
    out: &mut O,
) -> (ExitReport, &'a str)
    ensures contents { (n : List ℕ) → F.contents files.new n ≡ F.contents files.old n }
    ensures checks { ChecksFiles target.now source.now allocated.now (F.contents files.old) (F.left files.new) (O.written out.old) (O.written out.new) result.0.status result.1.now result.0.detail }
    ensures cause { HasStatusCause result.0.status (F.faults files.old) (F.faults files.new) (O.faults out.old) (O.faults out.new) }
{
    match DocReader::new(alloc, target) {
        Ok(reader) => check_with_reader(alloc, &reader, source, allocated, files, out),
        Err(_) => (ends(alloc, Status::Memory), source),
    }
}

/// The same, by a reader over the target.
fn check_with_reader<'a, F: Files, O: Sink>(
    alloc: Global,
    reader: &DocReader,
    source: &'a str,
    allocated: &'a str,
    files: &mut F,
    out: &mut O,
) -> (ExitReport, &'a str)
    ensures contents { (n : List ℕ) → F.contents files.new n ≡ F.contents files.old n }
    ensures checks { ChecksFiles reader.now source.now allocated.now (F.contents files.old) (F.left files.new) (O.written out.old) (O.written out.new) result.0.status result.1.now result.0.detail }
    ensures cause { HasStatusCause result.0.status (F.faults files.old) (F.faults files.new) (O.faults out.old) (O.faults out.new) }
{
    let sources = match sources_of(alloc, reader, source, files) {
        Ok(sources) => sources,
        Err(refusal) => return (report_refusal(alloc, refusal), source),
    };
    match lines_of(alloc, reader, sources.as_slice(), allocated, files) {
        Ok(text) => (write_text(alloc, text, out), allocated),
        Err(refusal) => (report_refusal(alloc, refusal), allocated),
    }
}
