//! When an item is a step over numbered lanes.

ghost use Rattle.instr_effects.specs.Laws.{CountedLaw, PlainLaw};

/// An item whose moves are all of lanes that it reads in any case is a step that moves none.
pub fn plain_law()
    ensures { PlainLaw }
{}

/// A counted instruction is such an item.
pub fn counted_law()
    ensures { CountedLaw }
{}
