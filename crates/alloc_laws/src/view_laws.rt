//! Laws of what offers of splits ask: it is what the meaning of the function says.

ghost use Rattle.alloc_laws.specs.Views.{BundlesShownLaw, HeldShownLaw, LiveShownLaw, PointsShownLaw};

/// A computed table tells of each range at which points of the function some lane of it is live.
pub fn live_shown_law()
    ensures { LiveShownLaw }
{}

/// And at which points some lane of it is live or occupied.
pub fn points_shown_law()
    ensures { PointsShownLaw }
{}

/// And which borders of blocks are of one edge bundle.
pub fn bundles_shown_law()
    ensures { BundlesShownLaw }
{}

/// A matrix whose table is computed and whose lists are what ranges hold tells of each unit of the
/// target that isn't reserved at which points something else than the range holds it.
pub fn held_shown_law()
    ensures { HeldShownLaw }
{}
