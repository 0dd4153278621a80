//! Laws of slots that go to other slots, as slot colouring has it: no two of them hold something at one
//! point.
//!
//! Each is the contract of a function, so that a check proves it. Begin with the functions here.
#![tactic(auto)]

ghost use Rattle.slot_laws.specs.Homes.{MovingKeepsCount, MovingKeepsValid, MovingRefines};

/// The function has no more spill slots than it had.
pub fn count_law()
    ensures { MovingKeepsCount }
{}

/// It does what it did, and did what it does.
pub fn refines_law()
    ensures { MovingRefines }
{}

/// It is valid as an allocated function.
pub fn valid_law()
    ensures { MovingKeepsValid }
{}
