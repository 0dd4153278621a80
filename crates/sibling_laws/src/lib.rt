//! Laws of siblings, ranges that come from one range: they share its slot, and are apart from it and from each other.
//!
//! Each is the contract of a function, so that a check proves it. Begin with `apart_law`: in a run each range is apart from
//! its slot, as its spill asks. `run_law` is of any number of steps, and `split_law` and `spill_law` are of one.
#![tactic(auto)]

ghost use Rattle.sibling_laws.specs.Siblings.{FirstSiblingsApart, SiblingsGiveSlotApart};
ghost use Rattle.sibling_laws.specs.Spills.{SpillKeepsSiblings};
ghost use Rattle.sibling_laws.specs.Splits.{PartsAreAdopted, SplitKeepsSiblings, SplitSharesPoints};
ghost use Rattle.sibling_laws.specs.Steps.{OriginalsStepIsSlotStep, ReachedFromIsReachedWith, RunKeepsSiblings, RunKeepsSlotApart};

/// Where siblings are apart, each range is apart from the slot that it has, or that it would get.
pub fn slot_law()
    ensures { SiblingsGiveSlotApart }
{}

/// A run begins with siblings apart: each range is its own original.
pub fn first_law()
    ensures { FirstSiblingsApart }
{}

/// At each point of a function with a range split one part at most is live or written, where the range was.
pub fn points_law()
    ensures { SplitSharesPoints }
{}

/// Parts that get the range's original, one after the other, are so many further ranges with it.
pub fn parts_law()
    ensures { PartsAreAdopted }
{}

/// A split keeps siblings apart, where the parts have the range's original,
pub fn split_law()
    ensures { SplitKeepsSiblings }
{}

/// and so does a spill, where lanes are live or occupied behind it at most as before.
pub fn spill_law()
    ensures { SpillKeepsSiblings }
{}

/// Steps with originals are steps with slots,
pub fn step_law()
    ensures { OriginalsStepIsSlotStep }
{}

/// and lead where these lead.
pub fn reached_law()
    ensures { ReachedFromIsReachedWith }
{}

/// Any number of steps keeps siblings apart, where no reload of the target has an early-clobber definition.
pub fn run_law()
    ensures { RunKeepsSiblings }
{}

/// So in a run each range is apart from the slot that it has, or that it would get.
pub fn apart_law()
    ensures { RunKeepsSlotApart }
{}
