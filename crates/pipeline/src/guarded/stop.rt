//! Why a function isn't allocated.

ghost use Rattle.std.specs.Prelude.{◌≡◌};
ghost use Rattle.pipeline.specs.Guarded.Stops.{of_places, of_verifier};

use machine_verify::{Invalid, Place, VerifyStop};
use place_solve::PlaceStop;
use spiller::RunStop;
use std::alloc::AllocError;
use target_base::Bytes;

/// A number that the program's input may not pass.
#[derive(Clone, Copy, Debug, PartialEq, Eq)]
pub enum LimitName {
    /// 1,048,576 bytes of a target file.
    TargetBytes,
    /// 268,435,456 bytes of a file.
    File,
    /// 4,194,304 bytes of a document, with the lines before it.
    Document,
    /// 1,024 blocks of a function.
    Blocks,
    /// 16,384 instructions of a function.
    Instructions,
    /// 16,384 virtual registers of a function.
    Registers,
    /// 6 variables of a place.
    Variables,
    /// 1,048,576 range numbers given for one function.
    Ranges,
}

/// Why a function isn't allocated.
#[derive(Drop)]
pub enum FunctionStop {
    /// The function passes a limit.
    Limit(LimitName),
    /// The function of this name isn't valid in the form that is asked for.
    Invalid(Bytes, Invalid),
    /// A place of the function of this name admits no choice of registers.
    Unassignable(Bytes, Place),
    /// The run of the allocator came to no end, the checker of allocations didn't say Yes to what it
    /// made, or its text doesn't keep the source's.
    NotYet,
    /// Memory ran out.
    Memory(AllocError),
}

impl FunctionStop {
    /// The refusal of a function of this name by a verifier.
    pub(crate) fn of_verifier(name: Bytes, stop: VerifyStop) -> FunctionStop
        ensures { result ≡ of_verifier name stop }
    {
        match stop {
            VerifyStop::Invalid(invalid) => FunctionStop::Invalid(name, invalid),
            VerifyStop::Memory(e) => FunctionStop::Memory(e),
        }
    }

    /// The refusal of a function of this name for one of its places.
    pub(crate) fn of_places(name: Bytes, stop: PlaceStop) -> FunctionStop
        ensures { result ≡ of_places name stop }
    {
        match stop {
            PlaceStop::Variables(_) => FunctionStop::Limit(LimitName::Variables),
            PlaceStop::Unassignable(place) => FunctionStop::Unassignable(name, place),
            PlaceStop::Memory(e) => FunctionStop::Memory(e),
        }
    }
}

impl From<RunStop> for FunctionStop {
    ghost use Rattle.std.specs.Prelude.{◌≡◌};
    ghost use Rattle.pipeline.specs.Guarded.Stops.{of_run};

    ghost from_gives = { λ x e. e ≡ of_run x };

    fn from(stop: RunStop) -> FunctionStop {
        match stop {
            RunStop::Ranges => FunctionStop::Limit(LimitName::Ranges),
            RunStop::Unfinished => FunctionStop::NotYet,
            RunStop::Memory(e) => FunctionStop::Memory(e),
        }
    }
}

impl From<AllocError> for FunctionStop {
    ghost use Rattle.pipeline.specs.declared.guarded.stop.FunctionStop.TheVariants.{Memory};
    ghost use Rattle.std.specs.Prelude.{◌≡◌};

    ghost from_gives = { λ x e. e ≡ Memory x };

    fn from(e: AllocError) -> FunctionStop {
        FunctionStop::Memory(e)
    }
}
