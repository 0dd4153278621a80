//! A law of slots: what a table of live lanes tells of their clashes is what the meaning of the
//! function says.

ghost use Rattle.slot_colour.specs.Clashes.{ClashLaw};

/// A computed table tells exactly which slots clash: those of which lanes are live or occupied at one
/// point.
pub fn clash_law()
    ensures { ClashLaw }
{}
