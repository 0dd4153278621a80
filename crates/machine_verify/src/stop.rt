//! Why a function isn't valid.

use mir_func::Place;
use std::alloc::AllocError;
use thiserror::Error;

/// The first fault of a function.
#[derive(Clone, Copy, Debug, PartialEq, Eq)]
pub struct Invalid {
    /// The first place in layout at which a rule fails.
    pub place: Place,
    /// The least rule that fails there, from 1 to 16.
    pub rule: u8,
}

/// Why a verifier doesn't say yes.
#[derive(Debug, Drop, Error)]
pub enum VerifyStop {
    /// A rule fails.
    #[error("bb.{}:{}: V{}", .0.place.block, .0.place.at, .0.rule)]
    Invalid(Invalid),
    /// Memory ran out.
    #[error("out of memory")]
    Memory(AllocError),
}

impl From<AllocError> for VerifyStop {
    ghost use Rattle.std.specs.Prelude.{◌≡◌};
    ghost use Rattle.machine_verify.specs.declared.stop.VerifyStop.TheVariants.{Memory};

    ghost from_gives = { λ x e. e ≡ Memory x };

    fn from(e: AllocError) -> VerifyStop {
        VerifyStop::Memory(e)
    }
}
