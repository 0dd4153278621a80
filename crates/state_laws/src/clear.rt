//! Laws of registers: a matrix of a state of an allocation is as edits ask, and tells what is free.

ghost use Rattle.state_laws.specs.Clear.{EvictedIsFree, FreeIsFreeFor, FreeMayBeHeld, StateStandsClear};

/// No two ranges hold a unit at one point.
pub fn clear_law()
    ensures { StateStandsClear }
{}

/// A register that the lists tell as free is free for the range,
pub fn free_law()
    ensures { FreeIsFreeFor }
{}

/// and the range may be assigned to it.
pub fn held_law()
    ensures { FreeMayBeHeld }
{}

/// Where those in its way have lost their register, it is free.
pub fn evicted_law()
    ensures { EvictedIsFree }
{}
