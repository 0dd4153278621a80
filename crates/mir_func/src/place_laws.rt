//! Laws of edits at places: beside edits by id and by gap, and taken back.

ghost use Rattle.mir_func.specs.PlaceLaws.{PutLaw, StandsLaw, GapLaw, RemovedLaw, ReplacedLaw, RetractedLaw, RestoredLaw, DeletedTwiceLaw, DeletedChangedLaw, DeletedPutLaw};

/// To put an instruction at the place of a gap is to put it into the gap, where it then stands; and
/// the gap before an instruction is at its place.
pub fn put_law()
    ensures put { PutLaw }
    ensures stands { StandsLaw }
    ensures gap { GapLaw }
{}

/// To take out the instruction at a place is to delete that of its id.
pub fn removed_law()
    ensures { RemovedLaw }
{}

/// To replace what the instruction at a place does is to replace what that of its id does.
pub fn replaced_law()
    ensures { ReplacedLaw }
{}

/// What was put last is taken back at its place, and what was replaced is given back there.
pub fn taken_back_law()
    ensures retracted { RetractedLaw }
    ensures restored { RestoredLaw }
{}

/// A deletion may come after edits that follow it, where they don't name its instruction.
pub fn deleted_later_law()
    ensures twice { DeletedTwiceLaw }
    ensures changed { DeletedChangedLaw }
    ensures put { DeletedPutLaw }
{}
