//! Parts of lines, added to a text.

ghost use Rattle.std.specs.Prelude.{◌≡◌, ◌++◌, OnOk};
ghost use Rattle.std.specs.Fmt.{decimal};
ghost use Rattle.watchers.specs.Lines.{name_of, range_text, ranges_text, register_text, optional_text, choice_text, choices_text, kind_text};

use crate::steps::Kind;
use std::alloc::AllocError;
use target_base::{Bytes, Reg, Target};

/// The name of a register of a target; none where it has no such register.
pub(crate) fn name_of(target: &Target, r: Reg) -> &[u8]
    ensures { result.now ≡ name_of target.now r }
{
    match target.regs.as_slice().get(r.0 as usize) {
        None => &[],
        Some(desc) => desc.name.as_slice(),
    }
}

pub(crate) fn put(out: &mut Bytes, text: &str) -> Result<(), AllocError>
    ensures { OnOk result (out.new ≡ out.old ++ text.now) }
{
    out.extend(text.as_bytes())
}

/// Adds the decimal digits of a number.
pub(crate) fn put_number(out: &mut Bytes, n: u64) -> Result<(), AllocError>
    ensures { OnOk result (out.new ≡ out.old ++ decimal n) }
{
    let text = n.to_string(out.allocator())?;
    put(out, text.as_str())
}

/// Adds a range, as ` %5`.
pub(crate) fn put_range(out: &mut Bytes, v: u32) -> Result<(), AllocError>
    ensures { OnOk result (out.new ≡ out.old ++ range_text v) }
{
    put(out, " %")?;
    put_number(out, v as u64)
}

/// Adds ranges.
pub(crate) fn put_ranges(out: &mut Bytes, ranges: &[u32]) -> Result<(), AllocError>
    ensures { OnOk result (out.new ≡ out.old ++ ranges_text ranges.now) }
{
    'written: for v in ranges {
        put_range(out, *v)?;
    }
    Ok(())
}

/// Adds a register, as ` $eax`.
pub(crate) fn put_register(out: &mut Bytes, target: &Target, r: Reg) -> Result<(), AllocError>
    ensures { OnOk result (out.new ≡ out.old ++ register_text target.now r) }
{
    put(out, " $")?;
    out.extend(name_of(target, r))
}

/// Adds a register, if there is one.
pub(crate) fn put_optional(
    out: &mut Bytes,
    target: &Target,
    r: Option<Reg>,
) -> Result<(), AllocError>
    ensures { OnOk result (out.new ≡ out.old ++ optional_text target.now r) }
{
    match r {
        None => Ok(()),
        Some(r) => put_register(out, target, r),
    }
}

/// Adds a range with its register.
fn put_choice(out: &mut Bytes, target: &Target, c: &(u32, Reg)) -> Result<(), AllocError>
    ensures { OnOk result (out.new ≡ out.old ++ choice_text target.now c.now) }
{
    put_range(out, c.0)?;
    put_register(out, target, c.1)
}

/// Adds ranges with their registers.
pub(crate) fn put_choices(
    out: &mut Bytes,
    target: &Target,
    choices: &[(u32, Reg)],
) -> Result<(), AllocError>
    ensures { OnOk result (out.new ≡ out.old ++ choices_text target.now choices.now) }
{
    'written: for c in choices {
        put_choice(out, target, c)?;
    }
    Ok(())
}

/// Adds the word of a kind of split.
pub(crate) fn put_word(out: &mut Bytes, kind: Kind) -> Result<(), AllocError>
    ensures { OnOk result (out.new ≡ out.old ++ kind_text kind) }
{
    match kind {
        Kind::Region => put(out, " region"),
        Kind::Block => put(out, " block"),
        Kind::Local => put(out, " local"),
    }
}
