//! Laws of a run: its function meets what rewriting asks of it but for its registers.
//!
//! Each is the contract of a function, so that a check proves it. Begin with `computed_law`: at the end of a run, with any number
//! of splits and spills, the function is ready to be rewritten, for any assignment without clashes, where no range is live at the
//! start of its first block, which lists the units that are. `run_law` asks the rules of a source of the start instead. What a run
//! keeps is said of its beginning by `joined_law` and of a step by `step_law`; the laws before these are of blocks, of frame
//! objects and of the start. `apart_run_law` needs nothing of the start, where each spill's slot is
//! apart from its range.
#![tactic(auto)]

ghost use Rattle.ready_laws.specs.Frames.{FirstHasFrames, FramesFit, JoinedHasNoSlots, LoweredHasNoSlots, SpillKeepsFrames, SplitKeepsFrames};
ghost use Rattle.ready_laws.specs.Listed.{ApartIsReached, ApartRunIsReady, RunIsListed, SpillKeepsListed};
ghost use Rattle.ready_laws.specs.LoweredStarts.{LoweredIsListed, PhisKeepStart, TiesKeepLive};
ghost use Rattle.ready_laws.specs.Runs.{ComputedRunIsReady, JoinedIsReady, ReachedWithIsReached, RunIsReady, RunWithoutSpillsIsListed, SplitsKeepStart, StepKeepsReady};
ghost use Rattle.ready_laws.specs.Starts.{JoinedKeepsListed, ListedHasStart, SplitKeepsListed, StartIsListed, WithinKeepsListed};
ghost use Rattle.ready_laws.specs.Steps.{SpillKeepsBlocks, SplitKeepsBlocks, SplitKeepsStart};

/// A split keeps the rules on blocks,
pub fn split_blocks_law()
    ensures { SplitKeepsBlocks }
{}

/// and so does a spill.
pub fn spill_blocks_law()
    ensures { SpillKeepsBlocks }
{}

/// A valid source, lowered, has no spill slot, no store to one and no reload,
pub fn lowered_slots_law()
    ensures { LoweredHasNoSlots }
{}

/// and has none behind all joins.
pub fn joined_slots_law()
    ensures { JoinedHasNoSlots }
{}

/// So a run begins with frame objects of the prepared function alone,
pub fn first_frames_law()
    ensures { FirstHasFrames }
{}

/// a split keeps what is asked of frame objects,
pub fn split_frames_law()
    ensures { SplitKeepsFrames }
{}

/// and so does a spill, with the slot that it may give.
pub fn spill_frames_law()
    ensures { SpillKeepsFrames }
{}

/// Then slot operands name the slots that were given, and no other operands do.
pub fn frames_law()
    ensures { FramesFit }
{}

/// Behind a split no range is live at the start of the first block, which lists the units that are, where that held before,
pub fn split_start_law()
    ensures { SplitKeepsStart }
{}

/// and so it is behind any number of them.
pub fn splits_start_law()
    ensures { SplitsKeepStart }
{}

/// In one direction, as a run can keep it: at the start of a source no range is live, and its first block lists the units that are;
pub fn listed_law()
    ensures { StartIsListed }
{}

/// so it is where what is live was live before,
pub fn within_law()
    ensures { WithinKeepsListed }
{}

/// as behind all joins
pub fn joined_listed_law()
    ensures { JoinedKeepsListed }
{}

/// and behind a split;
pub fn split_listed_law()
    ensures { SplitKeepsListed }
{}

/// and where a table is computed, the start keeps the rules of a source.
pub fn listed_start_law()
    ensures { ListedHasStart }
{}

/// Steps with what is known of slots are those of a run.
pub fn reached_law()
    ensures { ReachedWithIsReached }
{}

/// A valid source, lowered and joined, keeps what rewriting asks for but for registers and the start,
pub fn joined_law()
    ensures { JoinedIsReady }
{}

/// and so does each step.
pub fn step_law()
    ensures { StepKeepsReady }
{}

/// So the function at the end of a run is ready to be rewritten, where its start keeps the rules of a source.
pub fn run_law()
    ensures { RunIsReady }
{}

/// It is ready with its computed table, where no range is live at its start and its first block lists the units that are.
pub fn computed_law()
    ensures { ComputedRunIsReady }
{}

/// Without spills that is so behind a run where it is so behind lowering.
pub fn run_listed_law()
    ensures { RunWithoutSpillsIsListed }
{}

/// What is live at the start of a block in two-address form was live there.
pub fn ties_live_law()
    ensures { TiesKeepLive }
{}

/// What is live where a valid source begins without its phis was live there.
pub fn phis_live_law()
    ensures { PhisKeepStart }
{}

/// So at the start of a valid source, lowered, no range is live, and its first block lists the units that are.
pub fn lowered_listed_law()
    ensures { LoweredIsListed }
{}

/// Where a spill makes no more live at the starts of blocks, it keeps what is live where the function begins.
pub fn spill_listed_law()
    ensures { SpillKeepsListed }
{}

/// Runs whose spills go to slots that are apart from their ranges are runs.
pub fn apart_law()
    ensures { ApartIsReached }
{}

/// At their ends no range is live at the start, and the first block lists the units that are.
pub fn run_starts_law()
    ensures { RunIsListed }
{}

/// So a run with spills leads to a function that is ready to be rewritten.
pub fn apart_run_law()
    ensures { ApartRunIsReady }
{}
