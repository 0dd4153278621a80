//! Laws about what code means: when one code does what another does, what is live, and what a checker
//! of two codes may believe.
//!
//! Each is the contract of a function, so that a check proves it; begin with the functions here, whose
//! statements are in `specs/`. No code is run by them.
#![tactic(auto)]

ghost use Rattle.meaning.specs.InStep.{LawOfPlaces};
ghost use Rattle.meaning.specs.Matched.{LawOfSteps};
ghost use Rattle.meaning.specs.Fold.{LawOfFolds};
ghost use Rattle.meaning.specs.Clash.{LawOfRewriting};
ghost use Rattle.meaning.specs.Agree.{AgreementRefines, RowsRefine};
ghost use Rattle.laws.specs.Preorder.{RefinesItself, RefinementComposes};
ghost use Rattle.laws.specs.Constants.{SourcesHaveTheirBits};
ghost use Rattle.laws.specs.Monotone.{PerformIsMonotone};

/// Codes in step, place by place, refine.
pub fn places_law()
    ensures { LawOfPlaces }
{}

/// Codes that match item by item under one map of lanes refine each other.
pub fn steps_law()
    ensures { LawOfSteps }
{}

/// A code and its fold by a quiet map refine each other.
pub fn folds_law()
    ensures { LawOfFolds }
{}

/// A code and its rewriting by a map without clashes refine each other.
pub fn rewriting_law()
    ensures { LawOfRewriting }
{}

/// Agreement with any family of facts implies refinement.
pub fn agreement_law()
    ensures { AgreementRefines }
{}

/// The same for rows that anybody laid out.
pub fn rows_law()
    ensures { RowsRefine }
{}

/// A function refines itself.
pub fn refines_itself()
    ensures { RefinesItself }
{}

/// What refines a refinement refines.
pub fn refinement_composes()
    ensures { RefinementComposes }
{}

/// An operation does at least as much where more of its values are defined.
pub fn monotone_law()
    ensures { PerformIsMonotone }
{}

/// The source of some bits of a constant has these bits.
pub fn constants_law()
    ensures { SourcesHaveTheirBits }
{}
