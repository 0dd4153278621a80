//! The lines that declare new spill slots.

ghost use Rattle.std.specs.Prelude.{◌≡◌, ◌++◌, ◌∷◌, [], ◌+◌, ◌/◌, ◌<◌, ◌*◌, ◌^◌, sum, map, option_map, OnOk, IfOk};
ghost use Rattle.std.specs.Fmt.{decimal};
ghost use Rattle.target_base.specs.Storage.{class_widths, widths};
ghost use Rattle.source_text.specs.Slots.{bytes_of, alignment_of, line_start, alignment_part, line_end, size_of, and_rest, first_size, declared_slot, slots_behind, slots_in};

use mir_lines::lexer::behind_word;
use std::alloc::{AllocError, Global};
use target_base::classes::{first_units, width_of};
use target_base::{Bytes, ClassDesc, Reg, Target, Unit, UnitDesc};

/// A size of slots.
#[derive(Drop)]
pub(crate) struct SlotSize {
    /// The bytes that hold a register of a class.
    pub bytes: u128,
    /// How the line of such a slot ends, from its size on.
    pub ending: Bytes,
}

/// A new spill slot.
#[derive(Clone, Copy, Debug, PartialEq, Eq)]
pub(crate) struct NewSlot {
    /// Its number.
    pub number: u32,
    /// Its size in bytes.
    pub bytes: u128,
}

/// The width in bits of several units together.
fn total_width(units: &[UnitDesc], us: &[Unit]) -> u128
    ensures value { result ≡ sum (widths units.now us.now) }
    ensures fits { result + 7 < 2 ^ 128 }
{
    let mut total = 0u128;
    'units: for u in us {
        total += u128::from(width_of(units, *u));
    }
    total
}

/// The bytes that hold the first of these registers.
pub fn bytes_of_regs(target: &Target, regs: &[Reg]) -> u128
    ensures { result ≡ (sum (class_widths target.now.units target.now.regs regs.now) + 7) / 8 }
{
    let units = first_units(target.regs.as_slice(), regs);
    (total_width(target.units.as_slice(), units) + 7) / 8
}

/// The bytes that hold a register of a class.
pub(crate) fn bytes_of(target: &Target, class: &ClassDesc) -> u128
    ensures { result ≡ bytes_of target.now class.now }
{
    bytes_of_regs(target, class.regs.as_slice())
}

/// The least power of two that isn't less than the size, 16 at most.
fn alignment_of(bytes: u128) -> u32
    ensures { result ≡ alignment_of bytes }
{
    if bytes <= 1 {
        1
    } else if bytes <= 2 {
        2
    } else if bytes <= 4 {
        4
    } else if bytes <= 8 {
        8
    } else {
        16
    }
}

fn push_text(text: &mut Bytes, more: &str) -> Result<(), AllocError>
    ensures { OnOk result (text.new ≡ text.old ++ more.now) }
{
    text.extend(more.as_bytes())
}

fn push_number(text: &mut Bytes, n: u32) -> Result<(), AllocError>
    ensures { OnOk result (text.new ≡ text.old ++ decimal n) }
{
    let digits = n.to_string(text.allocator())?;
    push_text(text, digits.as_str())
}

fn push_bytes(text: &mut Bytes, n: u128) -> Result<(), AllocError>
    ensures { OnOk result (text.new ≡ text.old ++ decimal n) }
{
    let digits = n.to_string(text.allocator())?;
    push_text(text, digits.as_str())
}

/// How the line of a slot begins, up to its size.
pub fn line_start(alloc: Global, n: u32) -> Result<Bytes, AllocError>
    ensures { IfOk result (λ made. made ≡ line_start n) }
{
    let mut text = Bytes::new(alloc);
    push_text(&mut text, "  - { id: ")?;
    push_number(&mut text, n)?;
    push_text(&mut text, ", type: spill-slot, size: ")?;
    Ok(text)
}

/// What stands behind the size in the line of a slot.
fn alignment_part(alloc: Global, bytes: u128) -> Result<Bytes, AllocError>
    ensures { IfOk result (λ made. made ≡ alignment_part bytes) }
{
    let mut text = Bytes::new(alloc);
    push_text(&mut text, ", alignment: ")?;
    push_number(&mut text, alignment_of(bytes))?;
    push_text(&mut text, " }\n")?;
    Ok(text)
}

/// How the line of a slot ends, from its size on.
pub fn line_end(alloc: Global, bytes: u128) -> Result<Bytes, AllocError>
    ensures { IfOk result (λ made. made ≡ line_end bytes) }
{
    let mut text = Bytes::new(alloc);
    push_bytes(&mut text, bytes)?;
    let alignment = alignment_part(alloc, bytes)?;
    text.extend(alignment.as_slice())?;
    Ok(text)
}

/// The size of a class's slots.
fn size_of(alloc: Global, target: &Target, class: &ClassDesc) -> Result<SlotSize, AllocError>
    ensures { IfOk result (λ made. made ≡ size_of target.now class.now) }
{
    let bytes = bytes_of(target, class);
    let ending = line_end(alloc, bytes)?;
    Ok(SlotSize { bytes, ending })
}

/// The sizes of classes, in order.
fn sizes_of(
    alloc: Global,
    target: &Target,
    classes: &[ClassDesc],
) -> Result<Vec<SlotSize>, AllocError>
    ensures { IfOk result (λ made. made.items ≡ map (size_of target.now) classes.now) }
{
    let mut made = Vec::new(alloc);
    'each: for class in classes {
        made.push(size_of(alloc, target, class)?)?;
    }
    Ok(made)
}

/// The first of the sizes with the end of whose line the text begins, and the text behind it.
fn first_size<'a>(sizes: &[SlotSize], text: &'a [u8]) -> Option<(u128, &'a [u8])>
    ensures { option_map and_rest result ≡ first_size sizes.now text.now }
{
    'sizes: for s in sizes {
        if let Some(rest) = behind_word(text, s.ending.as_slice()) {
            return Some((s.bytes, rest));
        }
    }
    None
}

/// The size that the text declares for a slot, and the text behind the slot's line.
fn declared_slot<'a>(
    alloc: Global,
    sizes: &[SlotSize],
    n: u32,
    text: &'a [u8],
) -> Result<Option<(u128, &'a [u8])>, AllocError>
    ensures { IfOk result (λ made. option_map and_rest made ≡ declared_slot sizes.now n text.now) }
{
    let start = line_start(alloc, n)?;
    Ok(match behind_word(text, start.as_slice()) {
        None => None,
        Some(rest) => first_size(sizes, rest),
    })
}

/// The slots of these sizes and objects that the text declares.
fn slots_of(
    alloc: Global,
    sizes: &[SlotSize],
    objects: &[(u32, bool)],
    text: &[u8],
) -> Result<Option<Vec<NewSlot>>, AllocError>
    ensures { IfOk result (λ made. option_map (λ v. v.items) made ≡ slots_behind [] sizes.now objects.now text.now) }
{
    let mut made = Vec::new(alloc);
    let mut left = text;
    'objects: for o in objects {
        match declared_slot(alloc, sizes, o.0, left)? {
            None => return Ok(None),
            Some((bytes, rest)) => {
                made.push(NewSlot { number: o.0, bytes })?;
                left = rest;
            }
        }
    }
    match left {
        [] => Ok(Some(made)),
        [_, ..] => Ok(None),
    }
}

/// The slots of these objects that the text declares.
pub(crate) fn slots_in(
    alloc: Global,
    target: &Target,
    objects: &[(u32, bool)],
    text: &[u8],
) -> Result<Option<Vec<NewSlot>>, AllocError>
    ensures { IfOk result (λ made. option_map (λ v. v.items) made ≡ slots_in target.now objects.now text.now) }
{
    let sizes = sizes_of(alloc, target, target.classes.as_slice())?;
    slots_of(alloc, sizes.as_slice(), objects, text)
}
