//! Facts, and what they ask before the instructions that they stand behind.

ghost use Rattle.std.specs.Prelude.{◌≡◌, IfOk, OnOk};
ghost use Rattle.target_base.specs.Storage.{same_numbers};
ghost use Rattle.meaning.specs.Lanes.{filled, settled, through};
ghost use Rattle.meaning.specs.declared.types.Lane.{Lane};
ghost use Rattle.meaning.specs.Sameness.{same_constant, same_source};
ghost use Rattle.alloc_check.specs.Needs.{result_of, one_number, is_moved, or_lane, before_first, before_second, before_both, fits_first, fits_both};

use machine_verify::same_lane;
use meaning::{Constant, Fill, Lane, Source, Write};
use std::alloc::{AllocError, Global};
use target_base::{Copied, List};

/// A source of the first function is Undef or equals one of the second; with Undef as the second,
/// the first is Undef.
pub type Fact = (Source, Source);

/// Facts in any order.
pub type Facts = List<Fact>;

/// Whether two texts are equal, byte by byte.
pub fn same_bytes(a: &[u8], b: &[u8]) -> bool
    ensures { result ≡ same_numbers a.now b.now }
{
    a == b
}

fn same_constant(c: &Constant, d: &Constant) -> bool
    ensures { result ≡ same_constant c.now d.now }
{
    match (c, d) {
        (Constant::Immediate(m), Constant::Immediate(n)) => *m == *n,
        (Constant::StackAddress(m), Constant::StackAddress(n)) => *m == *n,
        (Constant::FixedStackAddress(m), Constant::FixedStackAddress(n)) => *m == *n,
        (Constant::SymbolAddress(x), Constant::SymbolAddress(y)) => {
            same_bytes(x.as_slice(), y.as_slice())
        }
        _ => false,
    }
}

/// Whether two sources are equal, so that they give equal bits in every state.
pub fn same_source(s: &Source, t: &Source) -> bool
    ensures { result ≡ same_source s.now t.now }
{
    match (s, t) {
        (Source::FromLane(a), Source::FromLane(b)) => same_lane(*a, *b),
        (Source::Undef, Source::Undef) => true,
        (Source::Bits(c, low, width), Source::Bits(d, from, to)) => {
            same_constant(c, d) && (*low == *from && *width == *to)
        }
        _ => false,
    }
}

/// Where the lane had its value before the writes; None where it isn't written.
fn settled_lane(alloc: Global, writes: &[Write], lane: Lane) -> Result<Option<Source>, AllocError>
    ensures { IfOk result (λ s. or_lane s lane ≡ settled (filled writes.now lane)) }
{
    for w in writes {
        if same_lane(w.lane, lane) {
            return settled_fill(alloc, &w.fill);
        }
    }
    Ok(None)
}

fn settled_fill(alloc: Global, fill: &Fill) -> Result<Option<Source>, AllocError>
    ensures { IfOk result (λ s. (l : Lane) → or_lane s l ≡ settled fill.now) }
{
    match fill {
        Fill::Moved(s) => Ok(Some(s.copied(alloc)?)),
        Fill::Computed(_) => Ok(Some(Source::Undef)),
    }
}

/// The number of the result that the lane gets.
fn lane_result(writes: &[Write], lane: Lane) -> Option<u32>
    ensures { result ≡ result_of (filled writes.now lane) }
{
    for w in writes {
        if same_lane(w.lane, lane) {
            return match w.fill {
                Fill::Moved(_) => None,
                Fill::Computed(i) => Some(i),
            };
        }
    }
    None
}

fn result_number(writes: &[Write], source: &Source) -> Option<u32>
    ensures { result ≡ result_of (through writes.now source.now) }
{
    match source {
        Source::FromLane(l) => lane_result(writes, *l),
        Source::Undef => None,
        Source::Bits(_, _, _) => None,
    }
}

/// Puts where it was before the writes in a source's place.
fn settle(alloc: Global, source: &mut Source, writes: &[Write]) -> Result<(), AllocError>
    ensures { OnOk result (source.new ≡ settled (through writes.now source.old)) }
{
    if let Source::FromLane(l) = source {
        if let Some(s) = settled_lane(alloc, writes, *l)? {
            *source = s;
        }
    }
    Ok(())
}

fn one_number(a: Option<u32>, b: Option<u32>) -> bool
    ensures { result ≡ one_number a b }
{
    match (a, b) {
        (Some(i), Some(j)) => i == j,
        _ => false,
    }
}

/// Whether no result of the first function alone is asked for.
pub fn fits_first(writes: &[Write], fact: &Fact) -> bool
    ensures { result ≡ fits_first writes.now fact.now }
{
    result_number(writes, &fact.0).is_none()
}

/// Whether no result of the first function alone is asked for, behind writes of both.
pub fn fits_both(first: &[Write], second: &[Write], fact: &Fact) -> bool
    ensures { result ≡ fits_both first.now second.now fact.now }
{
    match result_number(first, &fact.0) {
        None => true,
        Some(i) => one_number(Some(i), result_number(second, &fact.1)),
    }
}

/// Takes a fact to the place before writes of the first function.
pub fn back_first(alloc: Global, writes: &[Write], fact: &mut Fact) -> Result<(), AllocError>
    ensures { OnOk result (fact.new ≡ before_first writes.now fact.old) }
{
    settle(alloc, &mut fact.0, writes)
}

/// Takes a fact to the place before writes of the second function.
pub fn back_second(alloc: Global, writes: &[Write], fact: &mut Fact) -> Result<(), AllocError>
    ensures { OnOk result (fact.new ≡ before_second writes.now fact.old) }
{
    settle(alloc, &mut fact.1, writes)
}

/// Takes a fact to the place before writes of both. Of lanes that get one result nothing is asked.
pub fn back_both(
    alloc: Global,
    first: &[Write],
    second: &[Write],
    fact: &mut Fact,
) -> Result<(), AllocError>
    ensures { OnOk result (fact.new ≡ before_both first.now second.now fact.old) }
{
    let left = result_number(first, &fact.0);
    let right = result_number(second, &fact.1);
    if one_number(left, right) {
        *fact = (Source::Undef, Source::Undef);
        return Ok(());
    }
    settle(alloc, &mut fact.0, first)?;
    settle(alloc, &mut fact.1, second)
}
