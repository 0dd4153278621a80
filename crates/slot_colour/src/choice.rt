//! Which slot each spill slot goes to.

ghost use Rattle.std.specs.Prelude.{◌≡◌, ◌≤◌, [], ◌++◌, ◌∷◌, length, nat_le, position, IfOk, OnOk};
ghost use Rattle.std.specs.List.{position_or_len};
ghost use Rattle.live_lanes.specs.Looks.{InOrder};
ghost use Rattle.slot_colour.specs.Clashes.{is_clash};
ghost use Rattle.slot_colour.specs.Colouring.{with_spill, spill_slots, text_of, refuses, is_refused, may_join, home, placed, taken_on, home_of, is_gone};

use crate::clashes::is_clash;
use crate::lines::FrameLine;
use live_lanes::LiveFunc;
use mir_lines::lexer::is;
use std::alloc::{AllocError, Global};
use target_base::{Bytes, List};

/// A spill slot that is taken.
#[derive(Drop)]
pub(crate) struct TakenSlot {
    /// Its number.
    pub number: u32,
    /// What stands behind its number in the line that declares it.
    pub text: Bytes,
    /// The slot that it goes to, as a member of it; a kept slot goes to itself.
    pub kept: u32,
}

/// The first place of a number that isn't less.
fn find_place(numbers: &[u32], n: u32) -> Option<usize>
    ensures { result ≡ position (nat_le n) numbers.now }
{
    numbers.iter().position(|x| n <= *x)
}

/// The place of a number in a list that rises.
#[tactic(auto, using(mir_func::proofs::Places::places))]
fn place_of(numbers: &[u32], n: u32) -> usize
    ensures within { result ≤ length numbers.now }
    ensures place { result ≡ position_or_len (nat_le n) numbers.now }
{
    find_place(numbers, n).unwrap_or(numbers.len())
}

/// Puts a frame object that is a spill slot into a list that rises.
#[tactic(auto, using(crate::proofs::Rising::insert_rising))]
fn put_spill(rising: &mut Vec<u32>, object: (u32, bool)) -> Result<(), AllocError>
    ensures { OnOk result (rising.new.items ≡ with_spill object rising.old.items) }
{
    if object.1 {
        let at = place_of(rising.as_slice(), object.0);
        rising.insert(at, object.0)?;
    }
    Ok(())
}

/// The spill slots among frame objects, by rising number.
pub(crate) fn spill_slots(alloc: Global, frames: &[(u32, bool)]) -> Result<Vec<u32>, AllocError>
    ensures { IfOk result (λ made. made.items ≡ spill_slots frames.now) }
{
    let mut rising: Vec<u32> = Vec::new(alloc);
    'objects: for object in frames {
        put_spill(&mut rising, *object)?;
    }
    Ok(rising)
}

/// What stands behind the number of a frame object in the line that declares it.
fn text_of(declared: &[FrameLine], n: u32) -> &[u8]
    ensures { result.now ≡ text_of declared.now n }
{
    'lines: for d in declared {
        if d.number == n {
            return d.text.as_slice();
        }
    }
    &[]
}

/// Whether a slot that is taken is a member of a kept one, and clashes with another slot.
fn refuses(live: &LiveFunc, r: &TakenSlot, n: u32, kept: u32) -> bool
    ensures { InOrder live.now.table → result ≡ refuses (is_clash live.now.table) n kept r.now }
{
    r.kept == kept && is_clash(live, n, r.number)
}

/// Whether a slot clashes with a member of a kept one.
fn is_refused(live: &LiveFunc, taken: &[TakenSlot], n: u32, kept: u32) -> bool
    ensures { InOrder live.now.table → result ≡ is_refused (is_clash live.now.table) taken.now n kept }
{
    'slots: for r in taken {
        if refuses(live, r, n, kept) {
            return true;
        }
    }
    false
}

/// Whether a slot, of this text, may become a member of another one: of a kept one that is alike and
/// with none of whose members it clashes.
fn may_join(live: &LiveFunc, taken: &[TakenSlot], n: u32, text: &[u8], other: &TakenSlot) -> bool
    ensures { InOrder live.now.table → result ≡ may_join (is_clash live.now.table) taken.now n text.now other.now }
{
    other.kept == other.number
        && is(other.text.as_slice(), text)
        && !is_refused(live, taken, n, other.number)
}

/// The first kept slot that a slot of this text may join; else the slot itself.
fn home(live: &LiveFunc, taken: &[TakenSlot], n: u32, text: &[u8]) -> u32
    ensures { InOrder live.now.table → result ≡ home (is_clash live.now.table) taken.now n text.now }
{
    'slots: for other in taken {
        if may_join(live, taken, n, text, other) {
            return other.number;
        }
    }
    n
}

/// A slot with its text and the slot that it goes to.
fn place_slot(
    alloc: Global,
    live: &LiveFunc,
    declared: &[FrameLine],
    taken: &[TakenSlot],
    n: u32,
) -> Result<TakenSlot, AllocError>
    ensures { InOrder live.now.table → IfOk result (λ made. made ≡ placed (is_clash live.now.table) declared.now taken.now n) }
{
    let text = text_of(declared, n);
    let kept = home(live, taken, n, text);
    let text = List::from_slice(alloc, text)?;
    Ok(TakenSlot {
        number: n,
        text,
        kept,
    })
}

/// Slots, taken one after another, each with the slot that it goes to.
pub(crate) fn taken_from(
    alloc: Global,
    live: &LiveFunc,
    declared: &[FrameLine],
    slots: &[u32],
) -> Result<Vec<TakenSlot>, AllocError>
    ensures { InOrder live.now.table → IfOk result (λ made. made.items ≡ taken_on (is_clash live.now.table) declared.now [] slots.now) }
{
    let mut taken = Vec::new(alloc);
    'slots: for n in slots {
        let slot = place_slot(alloc, live, declared, taken.as_slice(), *n)?;
        taken.push(slot)?;
    }
    Ok(taken)
}

/// The slot that a frame object goes to; any object that isn't taken stays.
pub(crate) fn home_of(taken: &[TakenSlot], n: u32) -> u32
    ensures { result ≡ home_of taken.now n }
{
    'slots: for r in taken {
        if r.number == n {
            return r.kept;
        }
    }
    n
}

/// Whether a slot went to another one.
pub(crate) fn is_gone(taken: &[TakenSlot], n: u32) -> bool
    ensures { result ≡ is_gone taken.now n }
{
    home_of(taken, n) != n
}
