//! Joins: which copies are tried, in which order, and when two ranges may be one; and the laws that a function
//! does what it did behind them.
//!
//! Each law is the contract of a function, so that a check proves it. Begin with `joined_law`, which is of all
//! joins one after the other; the others are of one. They are of functions in lowered form without `undef`
//! definitions and without copies of an `undef` source, as each valid source is behind lowering.
#![tactic(auto)]

ghost use Rattle.join_laws.specs.Laws.{JoinKeepsLowered, JoinKeepsNamed, JoinRefines, JoinSharesWidths, JoinedRefines, LoweredHasPlainUndefs, LoweredIsNamed};

/// A valid source behind lowering has no `undef` definition, and no copy of an `undef` source.
pub fn plain_law()
    ensures { LoweredHasPlainUndefs }
{}

/// The function after a join is in the form in which ranges are joined and split.
pub fn kept_law()
    ensures { JoinKeepsLowered }
{}

/// No instruction of a valid source behind lowering names a range in `undef` uses alone, and none does behind
/// joins.
pub fn named_law()
    ensures lowered { LoweredIsNamed }
    ensures joined { JoinKeepsNamed }
{}

/// And it does what it did.
pub fn join_law()
    ensures { JoinRefines }
{}

/// Ranges that are joined as wholes have the same lanes.
pub fn widths_law()
    ensures { JoinSharesWidths }
{}

/// After all joins, one after the other, it does what it did.
pub fn joined_law()
    ensures { JoinedRefines }
{}
