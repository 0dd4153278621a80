//! Laws of a run: a valid source is lowered, its copies are joined, and then its ranges are split and spilled.
//!
//! Each law is the contract of a function, so that a check proves it. Begin with `run_law`: behind any number of
//! splits and spills the function is in the form that joins, splits, spills and edits ask; `editable_law` and the two
//! behind it say what they can take from that. Where no range is spilled, `splits_law` says that it does what it did.
#![tactic(auto)]

ghost use Rattle.run_laws.specs.Form.{InRunIsEditable, InRunMayBeEdited, InRunMaySplit, JoinKeepsUndefs, JoinedKeepsUndefs, SplitKeepsUndefs};
ghost use Rattle.run_laws.specs.Offers.{OfferedIsInTurn, OfferedIsStep};
ghost use Rattle.run_laws.specs.Runs.{JoinedIsInRun, LoweredIsInRun, RunKeepsForm, RunWithoutSpillsRefines, StepIsInRun};

/// A join keeps lowered form of instructions, and that each `undef` use is tied or a physical register.
pub fn join_undefs_law()
    ensures { JoinKeepsUndefs }
{}

/// So do all joins, one after the other,
pub fn joined_undefs_law()
    ensures { JoinedKeepsUndefs }
{}

/// and a split.
pub fn split_undefs_law()
    ensures { SplitKeepsUndefs }
{}

/// A valid source, lowered, is the function of a run.
pub fn lowered_law()
    ensures { LoweredIsInRun }
{}

/// So it is behind all joins,
pub fn joined_law()
    ensures { JoinedIsInRun }
{}

/// and behind each split and each spill,
pub fn step_law()
    ensures { StepIsInRun }
{}

/// and so behind any number of them.
pub fn run_law()
    ensures { RunKeepsForm }
{}

/// Each split that is offered to a range is such a step, by labels that stand in layout order, as splitting asks.
pub fn offered_law()
    ensures step { OfferedIsStep }
    ensures turn { OfferedIsInTurn }
{}

/// The function of a run meets what edits, joins and splits ask of it alone:
pub fn editable_law()
    ensures { InRunIsEditable }
{}

/// it may be edited,
pub fn edited_law()
    ensures { InRunMayBeEdited }
{}

/// and each of its ranges may be split.
pub fn split_law()
    ensures { InRunMaySplit }
{}

/// A run without spills does what the source does.
pub fn splits_law()
    ensures { RunWithoutSpillsRefines }
{}
