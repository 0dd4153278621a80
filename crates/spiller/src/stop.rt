//! How a run of the allocator ends.

use crate::slot_map::SlotMap;
use interference::Matrix;
use std::alloc::AllocError;

/// Why a run of the allocator doesn't come to its end.
#[derive(Debug, Drop)]
pub enum RunStop {
    /// More range numbers were given than the limit allows.
    Ranges,
    /// A loop came to the end of its count, a place has no solution, or a step would break a bound of
    /// the run.
    Unfinished,
    /// There was no memory.
    Memory(AllocError),
}

impl From<AllocError> for RunStop {
    ghost use Rattle.spiller.specs.declared.stop.RunStop.TheVariants.{Memory};
    ghost use Rattle.std.specs.Prelude.{◌≡◌};

    ghost from_gives = { λ x e. e ≡ Memory x };

    fn from(e: AllocError) -> RunStop {
        RunStop::Memory(e)
    }
}

/// The end of a run: the function, the register of each range, and the spill slots.
#[derive(Drop)]
pub struct Allocated {
    /// The function with the registers of its ranges.
    pub matrix: Matrix,
    /// The spill slots.
    pub slots: SlotMap,
}
