//! Why a document isn't treated.

ghost use Rattle.std.specs.Prelude.{IfOk};
ghost use Rattle.ra_top.specs.Commands.Documents.{IsStatusOf, IsRefusalFor};
ghost use Rattle.ra_top.specs.Commands.Piece.{IfBy};

use crate::commands::answer::Answer;
use crate::commands::status::Status;
use crate::commands::words::{invalid_words, unassignable_words};
use pipeline::guarded::FunctionStop;
use std::alloc::{AllocError, Global};
use target_base::Bytes;

/// Why a document isn't treated.
#[derive(Drop)]
pub enum Refusal {
    /// It is refused by a status, with the detail of its line.
    By(Status, Bytes),
    /// Memory ran out.
    Memory(AllocError),
}

impl From<AllocError> for Refusal {
    ghost use Rattle.ra_top.specs.declared.commands.refusal.Refusal.TheVariants.{Memory};
    ghost use Rattle.std.specs.Prelude.{◌≡◌};

    ghost from_gives = { λ x e. e ≡ Memory x };

    fn from(e: AllocError) -> Refusal {
        Refusal::Memory(e)
    }
}

/// The status by which a function is refused for a cause, with the detail of its line.
fn status_of(alloc: Global, stop: FunctionStop) -> Result<(Status, Bytes), AllocError>
    ensures { IfOk result (λ by. IsStatusOf stop by.0 by.1) }
{
    match stop {
        FunctionStop::Limit(limit) => Ok((Status::Limit(limit), Bytes::new(alloc))),
        FunctionStop::Invalid(name, invalid) => {
            let detail = invalid_words(alloc, name.as_slice(), invalid)?;
            Ok((Status::Invalid(invalid), detail))
        }
        FunctionStop::Unassignable(name, place) => {
            let detail = unassignable_words(alloc, name.as_slice(), place)?;
            Ok((Status::Unassignable(place), detail))
        }
        FunctionStop::NotYet => Ok((Status::NotYet, Bytes::new(alloc))),
        FunctionStop::Memory(e) => Err(e),
    }
}

/// The refusal of a document for the cause that its function is refused for.
pub(crate) fn refusal_of(alloc: Global, stop: FunctionStop) -> Refusal
    ensures { IfBy (IsStatusOf stop) result }
{
    match status_of(alloc, stop) {
        Ok((status, detail)) => Refusal::By(status, detail),
        Err(e) => Refusal::Memory(e),
    }
}

/// The answer that refuses a function for a cause.
pub(crate) fn refused(alloc: Global, stop: FunctionStop) -> Result<Answer, AllocError>
    ensures { IfOk result (IsRefusalFor stop) }
{
    let (status, detail) = status_of(alloc, stop)?;
    Ok(Answer::Refused(status, detail))
}
