//! The coloured function.

ghost use Rattle.std.specs.Prelude.{◌≡◌, IfOk};
ghost use Rattle.mir_meaning.specs.declared.Form.TheVariants as forms;
ghost use Rattle.mir_meaning.specs.Valid.{IsValid};
ghost use Rattle.live_lanes.specs.Looks.{InOrder};
ghost use Rattle.live_laws.specs.Effects.Shaped.{AreClasses};
ghost use Rattle.slot_colour.specs.Clashes.{is_clash};
ghost use Rattle.slot_colour.specs.Colouring.{chosen, merged, IsColoured};
ghost use Rattle.slot_colour.specs.Kept.{AreOnce, IsKept};

use crate::choice::{TakenSlot, spill_slots, taken_from};
use crate::lines::{declared_in, kept_in};
use crate::renamed::{kept_frames, rename_blocks};
use live_lanes::LiveFunc;
use mir_func::Func;
use std::alloc::{AllocError, Global};
use target_base::Target;

/// The spill slots of a function with the slots that they go to.
fn choose_slots(alloc: Global, live: &LiveFunc) -> Result<Vec<TakenSlot>, AllocError>
    ensures { InOrder live.now.table → IfOk result (λ made. made.items ≡ chosen (is_clash live.now.table) live.now.func) }
{
    let f = live.func();
    let declared = declared_in(alloc, f.head.as_slice())?;
    let slots = spill_slots(alloc, f.frames.as_slice())?;
    taken_from(alloc, live, declared.as_slice(), slots.as_slice())
}

/// The function in which each of these slots went where it goes: members are renamed, and those that
/// aren't kept leave the frame objects and the key lines.
fn merge_slots(alloc: Global, taken: &[TakenSlot], f: Func) -> Result<Func, AllocError>
    ensures { IfOk result (λ g. g ≡ merged taken.now f) }
{
    let Func {
        name,
        head,
        classes,
        frames,
        mut blocks,
        next_id,
    } = f;
    let head = kept_in(alloc, taken, head.as_slice())?;
    let frames = kept_frames(alloc, taken, frames.as_slice())?;
    rename_blocks(taken, &mut blocks);
    Ok(Func {
        name,
        head,
        classes,
        frames,
        blocks,
        next_id,
    })
}

/// The function coloured by the clashes that the table of its live lanes tells.
fn colour_function(alloc: Global, target: &Target, f: Func) -> Result<Func, AllocError>
    ensures { AreClasses target.now f → IsValid target.now forms.Allocated f → IfOk result (IsColoured target.now f) }
{
    let live = LiveFunc::compute(alloc, target, f)?;
    let taken = choose_slots(alloc, &live)?;
    merge_slots(alloc, taken.as_slice(), live.into_func())
}

/// The function, which is valid as an allocated one, with fewer spill slots or as many: slots are taken
/// by rising number, and each becomes a member of the first kept slot whose line in the `stack` key is
/// equal but for the number and with none of whose members it clashes; else it is kept. Two slots clash
/// where at one point a lane of each is live or occupied. Where each spill slot is declared by one line,
/// what is answered is valid as an allocated function and does what the function did.
pub fn colour_slots(alloc: Global, target: &Target, f: Func) -> Result<Func, AllocError>
    ensures is { AreClasses target.now f → IsValid target.now forms.Allocated f → IfOk result (IsColoured target.now f) }
    ensures kept { AreClasses target.now f → IsValid target.now forms.Allocated f → AreOnce f → IfOk result (IsKept target.now f) }
{
    // that ids are distinct is known once a field is read
    let _next = f.next_id;
    colour_function(alloc, target, f)
}
