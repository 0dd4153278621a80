//! Laws of passes: each state of an allocation may be spilled and split, and steps leave its ways and classes.

ghost use Rattle.state_laws.specs.Passes.{StateMaySpill, StateMaySplit, StepKeepsClasses, StepKeepsWays};

/// Each range with a class may be spilled,
pub fn spill_law()
    ensures { StateMaySpill }
{}

/// and may be split by labels in layout order.
pub fn split_law()
    ensures { StateMaySplit }
{}

/// A step leaves the blocks and the ways between them,
pub fn ways_law()
    ensures { StepKeepsWays }
{}

/// and the classes of ranges.
pub fn classes_law()
    ensures { StepKeepsClasses }
{}
