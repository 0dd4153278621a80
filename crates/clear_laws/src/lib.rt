//! Laws of registers without clashes: what a run does to its function and to the registers of ranges leaves none.
//!
//! Each is the contract of a function, so that a check proves it. A run begins with `nothing_law`, gives and takes registers by
//! `assign_law` and `unassign_law`, splits by `split_law`, spills by `spill_law`, and ends with `end_law`.
#![tactic(auto)]

ghost use Rattle.clear_laws.specs.Apart.{AssignKeepsApart, EndIsClear, NothingIsApart, PointsKeepApart, SetChangesOne, UnassignKeepsApart};
ghost use Rattle.clear_laws.specs.Edits.{SplitKeepsApart, SplitKeepsPoints};
ghost use Rattle.clear_laws.specs.Spills.{SpillKeepsApart, SpillKeepsPoints, SpillKeepsSlots, SpillKeepsStarts};

/// Where no range has a register there are no clashes.
pub fn nothing_law()
    ensures { NothingIsApart }
{}

/// There are none still where a range gets a register with which it clashes with nothing,
pub fn assign_law()
    ensures { AssignKeepsApart }
{}

/// or loses its register.
pub fn unassign_law()
    ensures { UnassignKeepsApart }
{}

/// To set one element of the list of registers is such a change.
pub fn set_law()
    ensures { SetChangesOne }
{}

/// An edit of a range without register leaves no clashes, where it makes other ranges and units live nowhere else.
pub fn points_law()
    ensures { PointsKeepApart }
{}

/// A split makes other ranges and units live nowhere else,
pub fn split_points_law()
    ensures { SplitKeepsPoints }
{}

/// so that it leaves no clashes, where the range has no register and its parts get none.
pub fn split_law()
    ensures { SplitKeepsApart }
{}

/// A spill to a slot that is apart from the range makes other ranges and units live nowhere else,
pub fn spill_points_law()
    ensures { SpillKeepsPoints }
{}

/// and lanes of slots neither, but for those that take the range's place, where no reload has an early-clobber definition.
pub fn spill_slots_law()
    ensures { SpillKeepsSlots }
{}

/// At the start of each block it makes no unit live, and no range, those that are made included.
pub fn spill_starts_law()
    ensures { SpillKeepsStarts }
{}

/// So it leaves no clashes, where the range has no register and the ranges that are made get none.
pub fn spill_law()
    ensures { SpillKeepsApart }
{}

/// Where each range that is named has a register, the registers are those by which a function is rewritten.
pub fn end_law()
    ensures { EndIsClear }
{}
