//! Laws of extents: which points they cover, and when two of them meet.

ghost use Rattle.point_laws.specs.Laws.{CoveredLaw, OverlapLaw};

/// The extents of a lane in a computed table cover exactly the points at which it is live or
/// occupied.
pub fn covered_law()
    ensures { CoveredLaw }
{}

/// Two stretches of numbers that begin at points of one block meet exactly where they have a point
/// in common.
pub fn overlap_law()
    ensures { OverlapLaw }
{}
