//! Texts, and numbers in decimal.

ghost use Rattle.std.specs.Prelude.{◌≡◌, ◌++◌, IfOk, OnOk};
ghost use Rattle.std.specs.Fmt.{decimal};

use itoa::Buffer;
use std::alloc::{AllocError, Global};
use target_base::Bytes;

/// Adds a text.
pub(crate) fn put(out: &mut Bytes, text: &str) -> Result<(), AllocError>
    ensures { OnOk result (out.new ≡ out.old ++ text.now) }
{
    out.extend(text.as_bytes())
}

/// Adds the decimal digits of a number.
pub(crate) fn put_number(out: &mut Bytes, n: u128) -> Result<(), AllocError>
    ensures { OnOk result (out.new ≡ out.old ++ decimal n) }
{
    let mut digits = Buffer::new();
    out.extend(digits.format(n).as_bytes())
}

/// Adds a text with a number behind it.
pub(crate) fn put_numbered(out: &mut Bytes, text: &str, n: u128) -> Result<(), AllocError>
    ensures { OnOk result (out.new ≡ out.old ++ (text.now ++ decimal n)) }
{
    out.extend(text.as_bytes())?;
    put_number(out, n)
}

/// The decimal digits of a number.
pub(crate) fn digits(alloc: Global, n: u128) -> Result<Bytes, AllocError>
    ensures { IfOk result (λ b. b ≡ decimal n) }
{
    let mut out = Bytes::new(alloc);
    put_number(&mut out, n)?;
    Ok(out)
}
