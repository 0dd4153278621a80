//! What is true of the units that are found live.

ghost use Rattle.rewriter.specs.Laws.{EntersLaw, StartsLaw, UnitsLaw};

/// In a computed table a lane has points that begin with a block exactly where it is marked live at the
/// block's start.
pub fn enters_law()
    ensures { EntersLaw }
{}

/// In a computed table of a function that keeps the rules, these are the lanes that are live there.
pub fn starts_law()
    ensures { StartsLaw }
{}

/// Of a computed table of a function that keeps the rules, the units that are found live at the start of
/// a block are those that hold something which is live there.
pub fn units_law()
    ensures { UnitsLaw }
{}
