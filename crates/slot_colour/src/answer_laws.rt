//! Laws of the coloured function: what it keeps.

ghost use Rattle.slot_colour.specs.Kept.{KeepsAll, KeepsCount};

/// The coloured function has no more spill slots than the function, whatever the test of clashes.
pub fn count_law()
    ensures { KeepsCount }
{}

/// Where the test answers true of each two slots that clash, it is valid and does what the function does.
pub fn kept_law()
    ensures { KeepsAll }
{}
