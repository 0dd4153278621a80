//! How far a file is read, and its documents for a command that writes nothing while it reads.

ghost use Rattle.std.specs.Prelude.{◌≡◌, ◌≤◌, ◌+◌, ◌++◌, ℕ, List, [], Some, IfOk, IfErr, IfSome};
ghost use Rattle.ra_top.specs.Commands.Spot.{file_most, first_spot};
ghost use Rattle.ra_top.specs.Commands.Documents.{DocFits};
ghost use Rattle.ra_top.specs.Due.{IsUnfinished};
ghost use Rattle.ra_top.specs.Reading.{HasCauseOf, IfUnbegun, AfterReading, MovesOn};
ghost use Rattle.ra_top.specs.declared.commands.refusal.Refusal.TheVariants as refusals;
ghost use Rattle.ra_top.specs.declared.commands.status.Status.TheVariants as status;

use crate::commands::piece::doc_at;
use crate::commands::{DocStart, Refusal, Status};
use crate::devices::moves::FileStop;
use crate::devices::{Chunk, Files, Pieces, read_piece};
use mir_text::{Doc, DocReader};
use std::alloc::{AllocError, Global};
use target_base::Bytes;

/// How far a file is read.
#[derive(Drop)]
pub struct FileReader {
    /// The bytes that were read and aren't taken yet.
    pub chunk: Chunk,
    /// The piece that was read last.
    pub piece: Pieces,
    /// Where the next document begins.
    pub spot: DocStart,
}

impl FileReader {
    /// Nothing of a file is read yet.
    pub fn new(alloc: Global) -> Result<FileReader, AllocError>
        ensures { IfOk result (λ r. (r.spot ≡ first_spot) × (r.chunk ≡ [])) }
    {
        Ok(FileReader {
            chunk: Chunk::new(alloc)?,
            piece: Pieces::new(alloc),
            spot: DocStart::first(),
        })
    }
}

/// A call of the files failed.
fn unread(alloc: Global) -> Refusal
    ensures { result ≡ refusals.By status.ReadFault [] }
{
    Refusal::By(Status::ReadFault, Bytes::new(alloc))
}

/// Begins to read the file of a name.
pub fn begin<F: Files>(alloc: Global, name: &str, files: &mut F) -> Result<FileReader, Refusal>
    ensures contents { (n : List ℕ) → F.contents files.new n ≡ F.contents files.old n }
    ensures left { IfSome (F.contents files.old name.now) (λ bytes. F.left files.new ≡ Some bytes) }
    ensures ok { IfOk result (λ r. (r.spot ≡ first_spot) × (r.chunk ≡ [])) }
    ensures err { IfErr result IfUnbegun }
    ensures cause { HasCauseOf (F.faults files.old) (F.faults files.new) result }
{
    match files.start(name) {
        Ok(()) => Ok(FileReader::new(alloc)?),
        Err(_) => Err(unread(alloc)),
    }
}

/// The next document of a file; None where the file ends. No read is made behind it.
pub fn next_document<F: Files>(
    alloc: Global,
    reader: &DocReader,
    files: &mut F,
    reading: &mut FileReader,
) -> Result<Option<Doc>, Refusal>
    requires line { reading.old.spot.line ≤ reading.old.spot.offset + 1 }
    requires within { reading.old.spot.offset ≤ file_most }
    ensures contents { (n : List ℕ) → F.contents files.new n ≡ F.contents files.old n }
    ensures read { IfSome (F.left files.old) (λ l. AfterReading reader.now reading.old.spot reading.new.spot (reading.old.chunk ++ l) (F.left files.new) reading.new.chunk result) }
    ensures fits { IfOk result (λ doc. IfSome doc (DocFits reader.now)) }
    ensures moves { IfOk result (MovesOn reading.old.spot reading.new.spot) }
    ensures cause { HasCauseOf (F.faults files.old) (F.faults files.new) result }
{
    reading.piece.clear();
    match read_piece(files, &mut reading.chunk, &mut reading.piece) {
        Ok(()) => {}
        Err(FileStop::Failed) => return Err(unread(alloc)),
        Err(FileStop::Memory(e)) => return Err(Refusal::Memory(e)),
    }
    let piece = reading.piece.bytes();
    if piece.is_empty() {
        return Ok(None);
    }
    let doc = doc_at(alloc, reader, reading.spot, piece)?;
    reading.spot = reading.spot.after(piece);
    Ok(Some(doc))
}
