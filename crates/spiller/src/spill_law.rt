//! Laws of spills: the edits that spill a range, and the facts that they rest on.

ghost use Rattle.spiller.specs.EditLaw.{FactsLaw, SpillEditsLaw};

/// Where the edits of the plan for a whole function are done one after the other, the range is spilled.
pub fn spill_edits_law()
    ensures { SpillEditsLaw }
{}

/// What spilling asks of the paths of a function can be told of any range.
pub fn facts_law()
    ensures { FactsLaw }
{}
