//! Laws of cells that are made anew after edits, with the causes and the ends of before.

ghost use Rattle.edit_laws.specs.LetGo.{LanesEditedLaw};
ghost use Rattle.edit_laws.specs.LaneSteps.{LaneStepsLaw, MergedLaw, RemadeLaw, ToldLaw};
ghost use Rattle.edit_laws.specs.Rebuilt.{RebuiltLaw, RebuiltRowsLaw, UntouchedLaw};

/// Entering the instructions of a block one after the other gives a lane its pieces there.
pub fn rebuilt_law()
    ensures { RebuiltLaw }
{}

/// Rows whose cells are made so, or stay, are a table of the new code with the causes and ends of before.
pub fn rebuilt_rows_law()
    ensures { RebuiltRowsLaw }
{}

/// So are rows of which some lanes are let go, since the new code names them nowhere; what is live keeps
/// its cause.
pub fn lanes_edited_law()
    ensures { LanesEditedLaw }
{}

/// Where no instruction of a block is touched at a lane, the code still has the lane's pieces there.
pub fn untouched_law()
    ensures { UntouchedLaw }
{}

/// A cell is made anew from what those instructions do to its lane that do anything.
pub fn lane_steps_law()
    ensures { LaneStepsLaw }
{}

/// What instructions that aren't touched did before, and the notes of the others, in the order of the
/// new code, are what its instructions do to the lane.
pub fn merged_law()
    ensures { MergedLaw }
{}

/// A table tells of each lane in each block what the instructions do to it.
pub fn told_law()
    ensures { ToldLaw }
{}

/// A cell into which the notes and what the cell of before tells are entered in order is made anew.
pub fn remade_law()
    ensures { RemadeLaw }
{}
