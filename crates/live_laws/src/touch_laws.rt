//! Laws of the instructions that touch a range: which they are by the table of live lanes.

ghost use Rattle.live_laws.specs.Acts.{ActsLaw, BeginsLaw};
ghost use Rattle.live_laws.specs.Touch.{IsTouchedLaw, KnownLaw, NamingLaw, TouchedLaw};

/// A valid function has no excluded opcode.
pub fn known_law()
    ensures { KnownLaw }
{}

/// An instruction touches a range exactly where it reads, moves or writes a lane of it.
pub fn naming_law()
    ensures { NamingLaw }
{}

/// A computed table tells exactly which instructions touch a range, in layout order, and where each
/// of them stands.
pub fn touched_law()
    ensures { TouchedLaw }
{}

/// A range is touched exactly where the list of the instructions that touch it isn't empty.
pub fn is_touched_law()
    ensures { IsTouchedLaw }
{}

/// A computed table tells exactly which lanes each instruction writes, which of these early, and which
/// it reads.
pub fn acts_law()
    ensures { ActsLaw }
{}

/// The pieces of a computed table begin with instructions of their blocks.
pub fn begins_law()
    ensures { BeginsLaw }
{}
