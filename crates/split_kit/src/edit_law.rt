//! Laws of splits: the edits that split a range, and what a table of live lanes tells of it.

ghost use Rattle.split_kit.specs.PartEdits.{FurtherRulesLaw, ShownPartsLaw, SplitEditsLaw};

/// Where these edits are done one after the other, the range is split.
pub fn split_edits_law()
    ensures { SplitEditsLaw }
{}

/// A computed table shows where the range is live at the gaps of blocks, and where marks and
/// instructions stand.
pub fn shown_parts_law()
    ensures { ShownPartsLaw }
{}

/// A function with further classes keeps the rules on which liveness rests.
pub fn further_rules_law()
    ensures { FurtherRulesLaw }
{}
