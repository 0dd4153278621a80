//! What is true of the pieces that are marked live.

ghost use Rattle.live_lanes.specs.Laws.{StartLaw, WritingLaw, EndLaw, RightLaw, LookLaw, EnteringLaw, MadeLaw};
ghost use Rattle.live_lanes.specs.Growth.{PieceLaw};
ghost use Rattle.live_lanes.specs.Occupied.{HeldLaw};

/// Exactly the pieces at whose start their lane is live are marked so.
pub(crate) fn marks_are_exact()
    ensures start { StartLaw }
    ensures writing { WritingLaw }
    ensures piece { PieceLaw }
{}

/// A lane is live at the points of a piece up to its end, which is told by causes and readings.
pub(crate) fn ends_are_exact()
    ensures reached { EndLaw }
    ensures right { RightLaw }
    ensures look { LookLaw }
{}

/// What a table tells of live and occupied lanes is what its code does.
pub(crate) fn occupied_is_exact()
    ensures { HeldLaw }
{}

/// Entering the instructions of all blocks one after the other gives each lane its pieces.
pub(crate) fn entering_gives_pieces()
    ensures { EnteringLaw }
{}

/// Rows, order and ways that are made of a function's blocks are a table of its code.
pub(crate) fn made_is_a_table()
    ensures { MadeLaw }
{}
