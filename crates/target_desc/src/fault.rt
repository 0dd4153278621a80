//! Why a text spells no target.

use std::alloc::AllocError;
use std::fmt;
use thiserror::Error;

/// The first test that a line of a target file fails, or that the file ends too early.
#[derive(Clone, Copy, Debug, PartialEq, Eq)]
pub enum TargetKind {
    /// The line has none of the forms that a line may have.
    Layout,
    /// A name isn't declared on an earlier line, or is declared twice.
    Name,
    /// A number, an order, a role or a width is against the rules.
    Rule,
    /// The file ends without a `target` line, or with a class that lacks a spill opcode, a reload
    /// opcode, an unreserved register, or the class of a part.
    End,
}

impl fmt::Display for TargetKind {
    fn fmt<W: fmt::Write>(&self, f: &mut fmt::Formatter<W>) -> fmt::Result {
        match self {
            TargetKind::Layout => write!(f, "layout"),
            TargetKind::Name => write!(f, "name"),
            TargetKind::Rule => write!(f, "rule"),
            TargetKind::End => write!(f, "end"),
        }
    }
}

/// The first fault of a text that spells no target.
#[derive(Clone, Copy, Debug, PartialEq, Eq)]
pub struct TargetFault {
    /// The line, counted from 1; for End the line after the last.
    pub line: u64,
    /// The test that fails there.
    pub kind: TargetKind,
}

/// Why no target was read.
#[derive(Debug, Drop, Error)]
pub enum TargetStop {
    /// The text spells no target.
    #[error("line {}: {}", .0.line, .0.kind)]
    Fault(TargetFault),
    /// Memory ran out.
    #[error("out of memory")]
    Memory(AllocError),
}

impl From<AllocError> for TargetStop {
    ghost use Rattle.std.specs.Prelude.{◌≡◌};
    ghost use Rattle.target_desc.specs.declared.fault.TargetStop.TheVariants.{Memory};

    ghost from_gives = { λ x e. e ≡ Memory x };

    fn from(e: AllocError) -> TargetStop {
        TargetStop::Memory(e)
    }
}

/// Why a line wasn't taken.
#[derive(Drop)]
pub(crate) enum TargetLineStop {
    /// The line can't follow those before it.
    Fault(TargetKind),
    /// Memory ran out.
    Memory(AllocError),
}

impl From<AllocError> for TargetLineStop {
    ghost use Rattle.std.specs.Prelude.{◌≡◌};
    ghost use Rattle.target_desc.specs.declared.fault.TargetLineStop.TheVariants.{Memory};

    ghost from_gives = { λ x e. e ≡ Memory x };

    fn from(e: AllocError) -> TargetLineStop {
        TargetLineStop::Memory(e)
    }
}
