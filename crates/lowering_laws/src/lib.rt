//! Laws of lowering: a function that was lowered does what it did, and is in lowered form.
//!
//! Each is the contract of a function, so that a check proves it. Begin with `lowered_law`, which is of
//! both passes; `phis_law` and `tied_law` are of each. `splittable_law` has what splits of ranges ask of the
//! function to start from.
#![tactic(auto)]

ghost use Rattle.lowering_laws.specs.Blocks.{LoweredClasses, LoweredKeepBlockRules, LoweredNames, LoweredOpcodes, PhisKeepBlockRules};
ghost use Rattle.lowering_laws.specs.Laws.{IdsAreDistinct, LoweredForm, LoweredPhisRefine, LoweredRefine, LoweredTiedRefine, NoneLoweredAway, PhisAreGone};
ghost use Rattle.lowering_laws.specs.Named.{LoweredTouchesNamed};
ghost use Rattle.lowering_laws.specs.Shapes.{LoweredDefinitions, LoweredIsSplittable, LoweredKeepsRules, LoweredOperands, LoweredShapes, LoweredWidths};

/// A valid source without its phis does what it did.
pub fn phis_law()
    ensures { LoweredPhisRefine }
{}

/// It has no phi.
pub fn gone_law()
    ensures { PhisAreGone }
{}

/// In two-address form a function without phis does what it did.
pub fn tied_law()
    ensures { LoweredTiedRefine }
{}

/// Behind it no instruction is left that is lowered away.
pub fn away_law()
    ensures { NoneLoweredAway }
{}

/// A valid source behind both passes, phis first and then ties, does what it did.
pub fn lowered_law()
    ensures { LoweredRefine }
{}

/// And each of its instructions is in lowered form: none is lowered away, no definition is `undef`, no COPY
/// has an `undef` source, and each tied use has its definition's register and index.
pub fn form_law()
    ensures { LoweredForm }
{}

/// Its ids are distinct.
pub fn ids_law()
    ensures { IdsAreDistinct }
{}

/// A valid source without its phis keeps the rules on blocks.
pub fn phi_blocks_law()
    ensures { PhisKeepBlockRules }
{}

/// Behind both passes they hold too, where the classes are the target's.
pub fn blocks_law()
    ensures { LoweredKeepBlockRules }
{}

/// Its classes are the target's, where those of the source are.
pub fn classes_law()
    ensures { LoweredClasses }
{}

/// Each of its opcodes is known, and none is lowered away.
pub fn opcodes_law()
    ensures { LoweredOpcodes }
{}

/// Each register that its instructions name has a class, and its index fits it.
pub fn names_law()
    ensures { LoweredNames }
{}

/// No instruction names a range in `undef` uses alone.
pub fn named_law()
    ensures { LoweredTouchesNamed }
{}

/// Rule 1: its operands fit the roles of its opcode in number, kind and value.
pub fn operands_law()
    ensures { LoweredOperands }
{}

/// Rule 2: its registers lie in the classes that roles ask for, and what is copied has equal widths.
pub fn widths_law()
    ensures { LoweredWidths }
{}

/// Rule 12: its definitions are apart from each other and, where they are early, from uses.
pub fn definitions_law()
    ensures { LoweredDefinitions }
{}

/// So each of its instructions meets the rules on operands, widths, classes, indexes and definitions.
pub fn shaped_law()
    ensures { LoweredShapes }
{}

/// And it keeps the rules on which liveness rests.
pub fn kept_law()
    ensures { LoweredKeepsRules }
{}

/// A valid source with a block is, behind both passes, in the form in which ranges are split.
pub fn splittable_law()
    ensures { LoweredIsSplittable }
{}
