//! Laws of what documents spell: what is true of each function that a text spells for a target.

ghost use Rattle.mir_text.specs.Laws.{ClassesLaw, FewLaw};

/// The classes of a spelled function's virtual registers are classes of the target.
pub fn classes_law()
    ensures { ClassesLaw }
{}

/// The virtual registers of a function that is as small as a read one are no more than 2^32.
pub fn few_law()
    ensures { FewLaw }
{}
