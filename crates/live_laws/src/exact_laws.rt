//! Laws of the table of live lanes: what it marks is what the meaning of the function says.

ghost use Rattle.live_laws.specs.Exact.Laws.{ComputedLaw, InsideLaw, QuietLaw, StartsLaw};
ghost use Rattle.live_laws.specs.Exact.Occupied.{PointsLaw, TellsOccupiedLaw, TellsRangeLaw};

/// A grown table marks a lane at a block's start exactly where the lane is live there.
pub fn starts_law()
    ensures { StartsLaw }
{}

/// Where terminators stand last in their blocks, nothing is written behind them that phis read.
pub fn quiet_law()
    ensures { QuietLaw }
{}

/// A computed table marks a lane at a block's start exactly where the lane is live there.
pub fn computed_law()
    ensures { ComputedLaw }
{}

/// A computed table tells at the entry and at the exit of each instruction exactly which lanes are
/// live there.
pub fn inside_law()
    ensures { InsideLaw }
{}

/// A computed table tells of each lane that has a number exactly at which points it is live or
/// occupied.
pub fn occupied_law()
    ensures { TellsOccupiedLaw }
{}

/// A computed table tells of each range exactly at which points one of its lanes that have numbers
/// is live or occupied.
pub fn range_law()
    ensures { TellsRangeLaw }
{}

/// A computed table's count of a range is the number of points at which some lane of it is live or
/// occupied; so all that counting it asks of the table holds.
pub fn points_law()
    ensures { PointsLaw }
{}
