//! Where a document stands in its file.

ghost use Rattle.std.specs.Prelude.{◌≡◌, ◌==◌, ◌≤◌, ◌+◌, length, count_by, min, None, Some};
ghost use Rattle.ra_top.specs.Commands.Spot.{first_spot, after, newlines, length_fault, file_most};

use pipeline::guarded::LimitName;

/// The most bytes of a file.
const FILE_MOST: usize = 268_435_456;

/// The most bytes of a document.
const DOCUMENT_MOST: usize = 4_194_304;

/// Where a document begins in its file.
#[derive(Clone, Copy, Debug, PartialEq, Eq)]
pub struct DocStart {
    /// The number of its first line, from 1.
    pub line: u64,
    /// How many bytes stand before it.
    pub offset: usize,
}

impl DocStart {
    /// The first document of a file.
    pub fn first() -> DocStart
        ensures { result ≡ first_spot }
    {
        DocStart { line: 1, offset: 0 }
    }

    /// The document that follows on this one.
    pub fn after(self, piece: &[u8]) -> DocStart
        requires line { self.line ≤ self.offset + 1 }
        requires within { self.offset + length piece.now ≤ file_most }
        ensures value { result ≡ after self piece.now }
        ensures line { result.line ≤ result.offset + 1 }
    {
        DocStart {
            line: self.line + newlines(piece) as u64,
            offset: self.offset + piece.len(),
        }
    }

    /// The limit that a document of so many bytes passes: that of the file, of which the bytes
    /// through the document's end count, or through its first 4,194,305 bytes, or that of documents.
    pub fn length_fault(self, length: usize) -> Option<LimitName>
        requires { self.offset ≤ file_most }
        ensures { result ≡ length_fault self.offset length }
    {
        if self.offset + length.min(DOCUMENT_MOST + 1) > FILE_MOST {
            Some(LimitName::File)
        } else if length > DOCUMENT_MOST {
            Some(LimitName::Document)
        } else {
            None
        }
    }
}

/// How many newlines a text has.
fn newlines(text: &[u8]) -> usize
    ensures value { result ≡ newlines text.now }
    ensures within { result ≤ length text.now }
{
    text.iter().filter(|b| **b == b'\n').count()
}
