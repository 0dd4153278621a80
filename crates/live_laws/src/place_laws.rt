//! Laws of live lanes: what holds of lanes by their numbers holds of the lanes of a function.

ghost use Rattle.live_laws.specs.Places.{StandsLaw};

/// A lane is live at a place exactly where its number is at the steps that stand for it.
pub fn stands_law()
    ensures { StandsLaw }
{}
