//! What an allocated function keeps of its source beside what runs.

ghost use Rattle.std.specs.Prelude.{◌≡◌, option_map, IfOk};
ghost use Rattle.source_text.specs.Keeps.{new_slots, keeps_objects, keeps_frames, keeps_text};

use crate::blocks::keep_blocks;
use crate::frames::{are_new, new_objects};
use crate::instructions::same_text;
use crate::keys::added_lines;
use crate::slots::{NewSlot, slots_in};
use crate::stored::blocks_fit;
use mir_func::Func;
use std::alloc::{AllocError, Global};
use target_base::Target;

/// The new slots with their sizes, where the key lines of the allocated function are the source's and
/// declare these slots besides.
fn new_slots(
    alloc: Global,
    target: &Target,
    source: &Func,
    allocated: &Func,
    new: &[(u32, bool)],
) -> Result<Option<Vec<NewSlot>>, AllocError>
    ensures { IfOk result (λ made. option_map (λ v. v.items) made ≡ new_slots target.now source.now allocated.now new.now) }
{
    let (head, other) = (source.head.as_slice(), allocated.head.as_slice());
    match new {
        [] => {
            if same_text(head, other) {
                Ok(Some(Vec::new(alloc)))
            } else {
                Ok(None)
            }
        }
        [_, ..] => match added_lines(alloc, head, other)? {
            None => Ok(None),
            Some(text) => slots_in(alloc, target, new, text),
        },
    }
}

/// Whether these objects are new slots, which the key lines declare, and all that is stored to a slot
/// or reloaded from one lies in one of them.
fn keeps_objects(
    alloc: Global,
    target: &Target,
    source: &Func,
    allocated: &Func,
    new: &[(u32, bool)],
) -> Result<bool, AllocError>
    ensures { IfOk result (λ yes. yes ≡ keeps_objects target.now source.now allocated.now new.now) }
{
    if !are_new(source, new) {
        return Ok(false);
    }
    match new_slots(alloc, target, source, allocated, new)? {
        None => Ok(false),
        Some(slots) => Ok(blocks_fit(target, slots.as_slice(), allocated.blocks.as_slice())),
    }
}

/// Whether the frame objects of the allocated function are the source's and new spill slots.
fn keeps_frames(
    alloc: Global,
    target: &Target,
    source: &Func,
    allocated: &Func,
) -> Result<bool, AllocError>
    ensures { IfOk result (λ yes. yes ≡ keeps_frames target.now source.now allocated.now) }
{
    match new_objects(source.frames.as_slice(), allocated.frames.as_slice()) {
        None => Ok(false),
        Some(new) => keeps_objects(alloc, target, source, allocated, new),
    }
}

/// Whether an allocated function, whoever made it, keeps all that is printed of its source beside what
/// runs: the name; the numbers, names, texts and successors of its blocks, with their probabilities,
/// and the live-ins of the entry block; the flags and tails of its instructions; its key lines and its
/// frame objects. What it has more are new spill slots, each declared by the line that the rules of
/// the text give a class of the target, and of a number that the source neither declares nor names;
/// each store to a slot and each reload from one lies in a new slot. Instructions that were put in
/// have no flags and no tail.
///
/// It doesn't ask what the instructions do, for which the checker of allocations is there, nor which
/// operands are `renamable`.
#[tactic(auto, unfolding(crate::specs::Keeps::keeps_text))]
pub fn keeps_text(
    alloc: Global,
    target: &Target,
    source: &Func,
    allocated: &Func,
) -> Result<bool, AllocError>
    ensures { IfOk result (λ yes. yes ≡ keeps_text target.now source.now allocated.now) }
{
    if !same_text(source.name.as_slice(), allocated.name.as_slice())
        || !keep_blocks(
            target,
            source.blocks.as_slice(),
            allocated.blocks.as_slice(),
        )
    {
        return Ok(false);
    }
    keeps_frames(alloc, target, source, allocated)
}
