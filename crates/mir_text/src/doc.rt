//! Documents of a file, and why a text spells none.

use mir_func::Func;
pub use mir_read::TextKind;
use std::alloc::AllocError;
use target_base::Bytes;
use thiserror::Error;

/// The first line that can't stand after those before it, and the test that failed there.
#[derive(Clone, Copy, Debug, PartialEq, Eq)]
pub struct TextFault {
    /// The number of the line; the first line of a file is 1.
    pub line: u64,
    /// The first test that failed.
    pub kind: TextKind,
}

/// Why no document was read.
#[derive(Debug, Drop, Error)]
pub enum TextStop {
    /// The text spells no document.
    #[error("line {}: {:?}", .0.line, .0.kind)]
    Fault(TextFault),
    /// Memory ran out.
    #[error("out of memory")]
    Memory(AllocError),
}

impl From<AllocError> for TextStop {
    ghost use Rattle.mir_text.specs.declared.doc.TextStop.TheVariants.{Memory};
    ghost use Rattle.std.specs.Prelude.{◌≡◌};

    ghost from_gives = { λ x e. e ≡ Memory x };

    fn from(e: AllocError) -> TextStop {
        TextStop::Memory(e)
    }
}

/// A document of a file.
#[derive(Drop)]
pub enum Doc {
    /// An IR document: its lines and those before it, byte for byte.
    Ir(Bytes),
    /// The lines before a function document, and its function.
    Function(Bytes, Func),
    /// What stands after the last document, byte for byte.
    Rest(Bytes),
}
