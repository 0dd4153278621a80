//! Laws of splits: a function in which a range became several, with copies between them, does what it
//! did.
//!
//! Each is the contract of a function, so that a check proves it. Begin with `split_law`, which is of one
//! split; `splits_law` is of many, and `lowered_splits_law` of many behind lowering. `block_law` and the
//! three behind it are of the labels that each kind of offered split gives.
#![tactic(auto)]

ghost use Rattle.split_laws.specs.Laws.{LoweredSplitsRefine, PartsKeepShape, SplitKeepsLowered, SplitKeepsOthers, SplitRefines, SplitSharesRange, SplitsRefine};
ghost use Rattle.split_laws.specs.Offers.{BlockLabelsAgree, CutLabelsAgree, LocalLabelsAgree, RegionLabelsAgree};
ghost use Rattle.split_laws.specs.Turns.{BlockLabelsInTurn, CutLabelsInTurn, LocalLabelsInTurn, RegionLabelsInTurn, SplitKeepsNamed};

/// A function with a range split does what it did, where labels agree on the ways between blocks.
pub fn split_law()
    ensures { SplitRefines }
{}

/// It is in the form in which ranges are split, so that ranges of it can be split in turn.
pub fn kept_law()
    ensures { SplitKeepsLowered }
{}

/// After any number of splits, one after the other, a function does what it did.
pub fn splits_law()
    ensures { SplitsRefine }
{}

/// A valid source, lowered and then with any number of splits, does what it did.
pub fn lowered_splits_law()
    ensures { LoweredSplitsRefine }
{}

/// Other ranges, units and slots are live and occupied where they were.
pub fn others_law()
    ensures { SplitKeepsOthers }
{}

/// Where a range was live one of its parts is, and no other part.
pub fn parts_law()
    ensures { SplitSharesRange }
{}

/// An instruction with a part in the range's place keeps the rules on its operands.
pub fn shape_law()
    ensures { PartsKeepShape }
{}

/// The labels of a block split that is offered agree on the ways between blocks.
pub fn block_law()
    ensures { BlockLabelsAgree }
{}

/// So do those of a region split,
pub fn region_law()
    ensures { RegionLabelsAgree }
{}

/// those of a region split at least cost,
pub fn cut_law()
    ensures { CutLabelsAgree }
{}

/// and those of a local split.
pub fn local_law()
    ensures { LocalLabelsAgree }
{}

/// The labels of each split that is offered stand in layout order, as splitting asks.
pub fn turns_law()
    ensures block { BlockLabelsInTurn }
    ensures region { RegionLabelsInTurn }
    ensures cut { CutLabelsInTurn }
    ensures local { LocalLabelsInTurn }
{}

/// Where no instruction names a range in `undef` uses alone, none does behind a split.
pub fn named_law()
    ensures { SplitKeepsNamed }
{}
