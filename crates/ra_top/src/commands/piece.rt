//! The document that a piece of a file spells.

ghost use Rattle.std.specs.Prelude.{◌≡◌, ◌≤◌, ◌+◌, IfOk, IfErr};
ghost use Rattle.ra_top.specs.Commands.Spot.{file_most};
ghost use Rattle.ra_top.specs.Commands.Answer.{IsSpelled};
ghost use Rattle.ra_top.specs.Commands.Documents.{DocFits, IsDocWithin};
ghost use Rattle.ra_top.specs.Commands.Piece.{IfBy, IsUnspelled};

use crate::commands::refusal::Refusal;
use crate::commands::spot::DocStart;
use crate::commands::status::Status;
use crate::numbers::digits;
use mir_text::{Doc, DocReader, TextStop};
use std::alloc::Global;
use target_base::Bytes;

/// The document that a piece spells which begins at a spot; the piece may be 4,194,305 bytes long, which
/// are the first ones of a longer piece. Refused are a piece that passes a limit on lengths, and then one
/// that spells none.
#[tactic(auto, using(crate::proofs::CommandLemmas::Read::doc_fits, crate::proofs::CommandLemmas::Read::doc_within))]
pub(crate) fn doc_at(
    alloc: Global,
    reader: &DocReader,
    spot: DocStart,
    piece: &[u8],
) -> Result<Doc, Refusal>
    requires line { spot.line ≤ spot.offset + 1 }
    requires within { spot.offset ≤ file_most }
    ensures ok { IfOk result (IsSpelled reader.now spot piece.now) }
    ensures fits { IfOk result (DocFits reader.now) }
    ensures small { IfOk result IsDocWithin }
    ensures err { IfErr result (IfBy (IsUnspelled reader.now spot piece.now)) }
{
    if let Some(limit) = spot.length_fault(piece.len()) {
        return Err(Refusal::By(Status::Limit(limit), Bytes::new(alloc)));
    }
    match reader.read(alloc, spot.offset == 0, spot.line, piece) {
        Ok(doc) => Ok(doc),
        Err(TextStop::Fault(fault)) => {
            let detail = digits(alloc, fault.line as u128)?;
            Err(Refusal::By(Status::Text(fault), detail))
        }
        Err(TextStop::Memory(e)) => Err(Refusal::Memory(e)),
    }
}
