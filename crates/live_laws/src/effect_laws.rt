//! Laws of what instructions do to lanes: each does to numbered lanes what its item does to lanes.

ghost use Rattle.live_laws.specs.Effects.Laws.{FunctionLaw, InstrLaw, MatchedLaw, MovingLaw, NumberLaw, OccupiedLaw, TableLaw, ValidLaw};

/// An item that only moves lanes is the step that moves their numbers.
pub fn moving_law()
    ensures { MovingLaw }
{}

/// Each instruction of the right shape is the step that is entered for it.
pub fn instr_law()
    ensures { InstrLaw }
{}

/// The blocks of a function over numbered lanes stand for its code.
pub fn function_law()
    ensures { FunctionLaw }
{}

/// A lane with a number is live at a point exactly where its number is.
pub fn number_law()
    ensures { NumberLaw }
{}

/// A table that numbers all lanes of a function gives each a number of its own.
pub fn table_law()
    ensures { TableLaw }
{}

/// A valid function keeps the rules that liveness rests on.
pub fn valid_law()
    ensures { ValidLaw }
{}

/// Each step of a function moves a lane into the one lane whose writing says so.
pub fn matched_law()
    ensures { MatchedLaw }
{}

/// A lane with a number is occupied at a point exactly where its number is.
pub fn occupied_law()
    ensures { OccupiedLaw }
{}
