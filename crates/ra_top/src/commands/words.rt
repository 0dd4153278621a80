//! What is said of a function that is refused.

ghost use Rattle.std.specs.Prelude.{◌≡◌, IfOk};
ghost use Rattle.ra_top.specs.Commands.Status.{place_words, invalid_words, unassignable_words};

use crate::numbers::put_number;
use machine_verify::Invalid;
use mir_func::Place;
use std::alloc::{AllocError, Global};
use target_base::Bytes;

/// A function's name and a place in it.
fn place_words(alloc: Global, name: &[u8], place: Place) -> Result<Bytes, AllocError>
    ensures { IfOk result (λ b. b ≡ place_words name.now place) }
{
    let mut out = Bytes::from_slice(alloc, name)?;
    out.extend(b": bb.")?;
    put_number(&mut out, place.block as u128)?;
    out.extend(b":")?;
    put_number(&mut out, place.at as u128)?;
    Ok(out)
}

/// A function's name, the place of its first fault, and the rule that is broken there.
pub fn invalid_words(alloc: Global, name: &[u8], invalid: Invalid) -> Result<Bytes, AllocError>
    ensures { IfOk result (λ b. b ≡ invalid_words name.now invalid) }
{
    let mut out = place_words(alloc, name, invalid.place)?;
    out.extend(b": V")?;
    put_number(&mut out, invalid.rule as u128)?;
    Ok(out)
}

/// A function's name and the place where operands have no registers.
pub fn unassignable_words(alloc: Global, name: &[u8], place: Place) -> Result<Bytes, AllocError>
    ensures { IfOk result (λ b. b ≡ unassignable_words name.now place) }
{
    let mut out = place_words(alloc, name, place)?;
    out.extend(b": no assignment")?;
    Ok(out)
}
