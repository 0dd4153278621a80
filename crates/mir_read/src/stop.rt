//! Why a line can't stand.

use mir_lines::LineStop;
use std::alloc::AllocError;

/// The test of a line that failed.
#[derive(Clone, Copy, Debug, PartialEq, Eq)]
pub enum TextKind {
    /// A line of its form can't stand there.
    Layout,
    /// A part of the line isn't spelled well.
    Token,
    /// A name isn't the target's, or a block's name isn't the one of its header.
    Name,
    /// The file ends inside a document.
    End,
}

/// Why a line can't stand where it does.
#[derive(Debug, Drop)]
pub enum ReadStop {
    /// The first test that the line fails.
    Fault(TextKind),
    /// Memory ran out.
    Memory(AllocError),
}

impl From<AllocError> for ReadStop {
    ghost use Rattle.mir_read.specs.declared.stop.ReadStop.TheVariants.{Memory};
    ghost use Rattle.std.specs.Prelude.{◌≡◌};

    ghost from_gives = { λ x e. e ≡ Memory x };

    fn from(e: AllocError) -> ReadStop {
        ReadStop::Memory(e)
    }
}

impl From<LineStop> for ReadStop {
    ghost use Rattle.mir_read.specs.Reading.{as_token};
    ghost use Rattle.std.specs.Prelude.{◌≡◌};

    ghost from_gives = { λ x e. e ≡ as_token x };

    fn from(e: LineStop) -> ReadStop {
        match e {
            LineStop::Token => ReadStop::Fault(TextKind::Token),
            LineStop::Memory(e) => ReadStop::Memory(e),
        }
    }
}
