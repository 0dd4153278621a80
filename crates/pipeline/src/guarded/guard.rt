//! The guard: what is handed out of a function is only what the checker of allocations said Yes to and
//! what keeps the source's text, as it is read of the text that is printed.

ghost use Rattle.std.specs.Prelude.{IfOk, IfSome};
ghost use Rattle.pipeline.specs.Guarded.Function.{IsGuarded, IsTextFor};

use crate::guarded::spelled::{Allocation, print_and_read, same_text};
use alloc_check::check_reserved;
use mir_func::{Func, Valid};
use mir_text::DocReader;
use source_text::keeps_text;
use std::alloc::{AllocError, Global};

/// The allocated function with its text, where it has the source's name, the checker says Yes to what
/// the text spells beside the source, of reserved units too, and that keeps the source's names, blocks,
/// flags, tails, key lines and frame objects.
pub(crate) fn check_allocation(
    alloc: Global,
    reader: &DocReader,
    source: &Valid,
    allocated: Func,
) -> Result<Option<Allocation>, AllocError>
    ensures right { IfOk result (λ made. IfSome made (λ a. IsGuarded reader.now source.now.func a.func)) }
    ensures text { IfOk result (λ made. IfSome made (λ a. IsTextFor reader.now a.func a.text)) }
{
    let Some(made) = print_and_read(alloc, reader, allocated)? else {
        return Ok(None);
    };
    if !same_text(made.func.name.as_slice(), source.func.name.as_slice()) {
        return Ok(None);
    }
    let target = reader.target();
    if !check_reserved(alloc, target, source, &made.func)? {
        return Ok(None);
    }
    if !keeps_text(alloc, target, &source.func, &made.func)? {
        return Ok(None);
    }
    Ok(Some(made))
}
