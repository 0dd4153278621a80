//! Laws of writing: a function that can be printed and read back stays one through the passes.
//!
//! `specs/Writable.antt` says which functions these are. Each law is the contract of a function, so that a check
//! proves it.
#![tactic(auto)]

ghost use Rattle.writable_laws.specs.Examples.{BoundsImmediates, RefusesHead, RefusesHeaders, RefusesOperands, RefusesText, TakesFunction, TakesHead, TakesSymbols, TakesText};
ghost use Rattle.writable_laws.specs.Laws.{JoinStaysWritable, JoinedStaysWritable, LoweredStaysWritable, PhisStayWritable, PhysicalStaysWritable, PhysicalWithoutSlots, SpillStaysWritable, SplitStaysWritable, TiesStayWritable};

/// A valid source that is writable stays so without its phis.
pub fn phis_law()
    ensures { PhisStayWritable }
{}

/// So does a function in two-address form.
pub fn tied_law()
    ensures { TiesStayWritable }
{}

/// And behind both passes of lowering, phis first and then ties.
pub fn lowered_law()
    ensures { LoweredStaysWritable }
{}

/// So does a lowered function behind a join, and behind all joins, one after the other.
pub fn joined_law()
    ensures one { JoinStaysWritable }
    ensures all { JoinedStaysWritable }
{}

/// And behind a split.
pub fn split_law()
    ensures { SplitStaysWritable }
{}

/// And behind a spill.
pub fn spill_law()
    ensures { SpillStaysWritable }
{}

/// And in physical form, where its key lines give its frame objects.
pub fn physical_law()
    ensures slots { PhysicalStaysWritable }
    ensures without_slots { PhysicalWithoutSlots }
{}

/// What the definition takes and what it refuses.
pub fn examples_law()
    ensures function { TakesFunction }
    ensures head { TakesHead }
    ensures no_head { RefusesHead }
    ensures text { TakesText }
    ensures no_text { RefusesText }
    ensures immediates { BoundsImmediates }
    ensures no_operands { RefusesOperands }
    ensures symbols { TakesSymbols }
    ensures no_header { RefusesHeaders }
{}
