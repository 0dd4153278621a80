//! Laws of the tests of places: where the table of live lanes is computed they are exact.

ghost use Rattle.place_solve.specs.Laws.{CopyLaw, LoweredLaw, OwnLaw, PlaceLaw};

/// The place of a copy admits a choice of registers just where one serves by the table.
pub fn copy_law()
    ensures { CopyLaw }
{}

/// So does the place of counted instructions.
pub fn place_law()
    ensures { PlaceLaw }
{}

/// In a valid source so does the own place of each instruction.
pub fn own_law()
    ensures { OwnLaw }
{}

/// And the places of the copies that lowering makes of it.
pub fn lowered_law()
    ensures { LoweredLaw }
{}
