//! Laws of validity: a function in physical form is valid as an allocated one.
//!
//! Each is the contract of a function, so that a check proves it. Begin with `rewritten_law` and `valid_law`,
//! which are of all rules. Those before them are of a rule or a group of rules each, and those behind them
//! of what lowering, joins, splits and spills keep of what these two ask for.
#![tactic(auto)]

ghost use Rattle.valid_laws.specs.Kept.{AlikeKeepsBlocks, JoinKeepsBlocks, JoinKeepsFlags, JoinKeepsStart, JoinKeepsUnits, JoinedKeepsBlocks, JoinedKeepsStart, LoweredHasBlocks, LoweredHasFlags, SpillKeepsFlags, SplitKeepsFlags};
ghost use Rattle.valid_laws.specs.Rules.{FoundUnitsTell, PhysicalBlocks, PhysicalClasses, PhysicalDefinitions, PhysicalIndexes, PhysicalLiveUnits, PhysicalLiveins, PhysicalLowered, PhysicalNames, PhysicalOperands, PhysicalSlots, PhysicalTerminators, PhysicalTies, PhysicalWidths, SlotsByEffect};
ghost use Rattle.valid_laws.specs.Valid.{ReadyStands, RewriteIsValid, RewrittenIsValid};

/// Rule 1: its operands fit the roles of their opcodes in number, kind and value.
pub fn operands_law()
    ensures { PhysicalOperands }
{}

/// Rule 2: its registers lie in the classes that roles ask for, and what is copied has equal widths.
pub fn widths_law()
    ensures { PhysicalWidths }
{}

/// Rule 3: each virtual register that it names has a class.
pub fn classes_law()
    ensures { PhysicalClasses }
{}

/// Rule 4: its registers have no indexes.
pub fn indexes_law()
    ensures { PhysicalIndexes }
{}

/// Rule 14: it names no virtual register.
pub fn names_law()
    ensures { PhysicalNames }
{}

/// Rule 7: no instruction is PHI, REG_SEQUENCE or INSERT_SUBREG.
pub fn lowered_law()
    ensures { PhysicalLowered }
{}

/// Rule 8: behind a terminator stand terminators only.
pub fn terminators_law()
    ensures { PhysicalTerminators }
{}

/// Rules 5, 6, 9, 10 and 16: blocks have numbers of their own and lead to their successors, none leads to the first, the last
/// ends, and none is an entry of a handler.
pub fn blocks_law()
    ensures { PhysicalBlocks }
{}

/// Rule 11: flags are the opcode's, and tied operands are one register.
pub fn ties_law()
    ensures { PhysicalTies }
{}

/// Rule 15: slot operands name spill slots, and no other operands do.
pub fn slots_law()
    ensures { PhysicalSlots }
{}

/// Rule 12: its definitions are apart from each other and, where they are early, from uses, and none is `undef`.
pub fn definitions_law()
    ensures { PhysicalDefinitions }
{}

/// The units that are live at the start of a block are those that held something live there: themselves, or a lane of a range.
pub fn units_law()
    ensures { PhysicalLiveUnits }
{}

/// The units that are found live by a computed table hold what is live.
pub fn tells_law()
    ensures { FoundUnitsTell }
{}

/// Rule 13: blocks list their live units, the first as it did and each other one by their cover.
pub fn liveins_law()
    ensures { PhysicalLiveins }
{}

/// Where stores to slots and reloads name the slots, and no other instructions do, they do so by roles.
pub fn slot_effects_law()
    ensures { SlotsByEffect }
{}

/// A function at the end of its allocation, whose instructions are in lowered form, has what the rules ask of that.
pub fn stands_law()
    ensures { ReadyStands }
{}

/// So its physical form is valid as an allocated function.
pub fn valid_law()
    ensures { RewriteIsValid }
{}

/// And so it is with the units that a computed table tells.
pub fn rewritten_law()
    ensures { RewrittenIsValid }
{}

/// Blocks that end alike, with the same numbers, texts and successors, keep the further rules on blocks.
pub fn alike_law()
    ensures { AlikeKeepsBlocks }
{}

/// A valid source has them behind lowering.
pub fn lowered_blocks_law()
    ensures { LoweredHasBlocks }
{}

/// And its flags and ties that are written are the opcodes'.
pub fn lowered_flags_law()
    ensures { LoweredHasFlags }
{}

/// A join keeps the rules on blocks,
pub fn join_blocks_law()
    ensures { JoinKeepsBlocks }
{}

/// and the rule on flags.
pub fn join_flags_law()
    ensures { JoinKeepsFlags }
{}

/// So do all joins, one after the other.
pub fn joined_law()
    ensures { JoinedKeepsBlocks }
{}

/// A split keeps the rule on flags.
pub fn split_flags_law()
    ensures { SplitKeepsFlags }
{}

/// So does a spill.
pub fn spill_flags_law()
    ensures { SpillKeepsFlags }
{}

/// Units are live at the starts of the blocks behind a join where they were.
pub fn join_units_law()
    ensures { JoinKeepsUnits }
{}

/// So no range is live at the start of the first block, which lists the units that are, behind a join
pub fn join_start_law()
    ensures { JoinKeepsStart }
{}

/// and behind all joins.
pub fn joined_start_law()
    ensures { JoinedKeepsStart }
{}
