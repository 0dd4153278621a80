//! Why a line can't be read.

use std::alloc::AllocError;

/// Why a line, or a part of it, can't be read.
#[derive(Debug, Drop)]
pub enum LineStop {
    /// It isn't spelled well.
    Token,
    /// Memory ran out.
    Memory(AllocError),
}

impl From<AllocError> for LineStop {
    ghost use Rattle.mir_lines.specs.declared.stop.LineStop.TheVariants.{Memory};
    ghost use Rattle.std.specs.Prelude.{◌≡◌};

    ghost from_gives = { λ x e. e ≡ Memory x };

    fn from(e: AllocError) -> LineStop {
        LineStop::Memory(e)
    }
}
