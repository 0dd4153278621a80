//! Laws of the key lines in which new slots are found.

ghost use Rattle.source_text.specs.Laws.{LawOfParts, LawOfLines};

/// What is added to the source's key lines stands between their two parts.
pub fn parts_law()
    ensures { LawOfParts }
{}

/// The text that declares slots is their lines.
pub fn lines_law()
    ensures { LawOfLines }
{}
