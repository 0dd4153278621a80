//! The sides of copies, and instructions by their ids.

ghost use Rattle.std.specs.Prelude.{◌≡◌, option_copied};
ghost use Rattle.mir_func.specs.Value.{IsFunction};
ghost use Rattle.live_lanes.specs.Touching.{FindsInstrs};
ghost use Rattle.live_edits.specs.Folded.{copy_sides};
ghost use Rattle.join_laws.specs.Joined.{copies_ranges, two_ranges};
ghost use Rattle.coalescer.specs.Coalescing.{MayCoalesce, instr_of, sides_in};

use live_edits::copy_sides;
use live_lanes::LiveFunc;
use mir_func::{Instr, Loc, RegOp};
use target_base::Target;

/// The ranges of a copy between two different ranges.
pub(crate) fn two_ranges(to: Loc, from: Loc) -> Option<(u32, u32)>
    ensures { result ≡ two_ranges to from }
{
    match to {
        Loc::Virtual(a) => match from {
            Loc::Virtual(b) => { if a == b { None } else { Some((a, b)) } }
            Loc::Fixed(_) => None,
        },
        Loc::Fixed(_) => None,
    }
}

/// Whether an instruction copies between two different ranges.
pub(crate) fn copies_ranges(target: &Target, instr: &Instr) -> bool
    ensures { result ≡ copies_ranges target.now instr.now }
{
    match copy_sides(target, instr) {
        Some((to, from)) => two_ranges(to.loc, from.loc).is_some(),
        None => false,
    }
}

/// The instruction of an id, where it stands in the function.
pub(crate) fn instr_of(live: &LiveFunc, id: u32) -> Option<&Instr>
    ensures { FindsInstrs live.now.table live.now.func.blocks → IsFunction live.now.func.blocks live.now.func.next_id
        → option_copied result ≡ instr_of live.now.func id }
{
    let instr = live
        .func()
        .instr_at(live.position_of(id) as usize, live.place_of(id))?;
    if instr.id == id { Some(instr) } else { None }
}

/// The sides of the copy of an id, where it stands in the function.
pub(crate) fn sides_at(target: &Target, live: &LiveFunc, id: u32) -> Option<(RegOp, RegOp)>
    ensures { MayCoalesce target.now live.now → result ≡ sides_in target.now (instr_of live.now.func id) }
{
    match instr_of(live, id) {
        Some(instr) => copy_sides(target, instr),
        None => None,
    }
}
