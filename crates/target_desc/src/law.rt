//! Laws of the definitions that the reader answers by.

ghost use Rattle.target_desc.specs.Laws.{SpellsOrFails, MiniIsSpelled, PrintedIsSpelled};

/// A text spells a target exactly where each of its lines stands after those before it and nothing
/// lacks at the end. Else its fault is the first: all lines before it stand, and the next doesn't.
pub fn reads_line_by_line()
    ensures { SpellsOrFails }
{}

/// The file examples/mini.target spells the built-in target.
pub fn mini_is_spelled()
    ensures { MiniIsSpelled }
{}

/// The printed text of a target, line by line in target order, spells that target.
pub fn printed_is_spelled()
    ensures { PrintedIsSpelled }
{}
