//! Laws of tables of live lanes before and after edits: where the lanes that edits concern are right,
//! the whole table is.

ghost use Rattle.edit_laws.specs.Codes.{AllCodesLaw, CodesLaw};
ghost use Rattle.edit_laws.specs.Further.{DoesSameLaw, FurtherLanesLaw, FurtherRangesLaw, NumbersGrow};
ghost use Rattle.edit_laws.specs.Kept.{KeptLaw};
ghost use Rattle.edit_laws.specs.Numbers.{NumbersLaw};
ghost use Rattle.edit_laws.specs.Steps.{EndsLaw, GrownLaw};
ghost use Rattle.edit_laws.specs.Tables.{AllTableLaw, TableLaw};

/// The codes of a function and of the edited one differ at the lanes alone that the edit concerns.
pub fn codes_law()
    ensures { CodesLaw }
{}

/// So do they after edits one after the other.
pub fn all_codes_law()
    ensures { AllCodesLaw }
{}

/// Causes are grown after edits where those of the lanes concerned are right, and all others kept.
pub fn grown_law()
    ensures { GrownLaw }
{}

/// The ends of the pieces of all other lanes stay right.
pub fn ends_law()
    ensures { EndsLaw }
{}

/// A computed table is one of the edited function where the lanes concerned are right, and all others
/// are as they were.
pub fn kept_law()
    ensures { KeptLaw }
{}

/// So a table that was computed for a function is computed for the edited one where it is right at
/// the lanes that the edit concerns, and all others are as they were.
pub fn table_law()
    ensures { TableLaw }
{}

/// The same of edits one after the other.
pub fn all_table_law()
    ensures { AllTableLaw }
{}

/// A computed table stays so where more lanes get numbers, by which instructions do what they did.
pub fn numbers_law()
    ensures { NumbersLaw }
{}

/// Where lanes keep their numbers while others get some, instructions do by them what they did.
pub fn does_same_law()
    ensures { DoesSameLaw }
{}

/// So a computed table stays so where further lanes get numbers.
pub fn further_lanes_law()
    ensures { FurtherLanesLaw }
{}

/// It is one of a function with further classes where the lanes of their ranges get numbers.
pub fn further_ranges_law()
    ensures { FurtherRangesLaw }
{}

/// Worked rows: numbers that lanes keep.
pub fn rows()
    ensures { NumbersGrow }
{}
