//! Laws of the points of functions before and after edits.

ghost use Rattle.edit_laws.specs.Laws.{EditedLaw, EditsLaw, LeadingLaw, PassingLaw};
ghost use Rattle.edit_laws.specs.Rows.{AnswerChanges, EditsMake, StoreGoes, ValueChanges};

/// An edit changes the live points of no lane but those that it concerns, which the edited instruction
/// reads, writes or gives to others otherwise than it did, and those that lead to them through copies.
pub fn edited_law()
    ensures { EditedLaw }
{}

/// Where a lane is live before an edit and not after it, or the reverse, it is one of these.
pub fn leading_law()
    ensures { LeadingLaw }
{}

/// The same of edits one after the other.
pub fn edits_law()
    ensures { EditsLaw }
{}

/// At an instruction that comes or goes, a lane that it doesn't name is live at both points or at
/// neither.
pub fn passing_law()
    ensures { PassingLaw }
{}

/// Worked rows: what edits make of a function, and which lanes lead to them.
pub fn rows()
    ensures edits_make { EditsMake }
    ensures store_goes { StoreGoes }
    ensures answer_changes { AnswerChanges }
    ensures value_changes { ValueChanges }
{}
