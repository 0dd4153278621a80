//! Laws of what splits ask of a table of live lanes: a computed one has it.

ghost use Rattle.alloc_laws.specs.Offers.{PiecesFoundLaw, PlacesFoundLaw, WaysFoundLaw};

/// In a computed table places are found: points stand in order, instructions are found, those that
/// touch a range are named, and blocks end in their terminators.
pub fn places_found_law()
    ensures { PlacesFoundLaw }
{}

/// In a computed table the pieces of lanes begin and are read in their blocks, and end in turn.
pub fn pieces_found_law()
    ensures { PiecesFoundLaw }
{}

/// In a computed table the ways between blocks are those of the function, and each edge leads to a
/// block.
pub fn ways_found_law()
    ensures { WaysFoundLaw }
{}
