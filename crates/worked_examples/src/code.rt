//! Examples of what code means and of its laws, proved: each is the contract of a function.

ghost use Rattle.worked_examples.specs.Code.Runs.{AddsToItself, ZeroTraps, UndefinedDivisor, HalfUndefined, PhisSwap, CopiesAtOnce, SlotsKeepTheirWidth, CallsAnswer, ConditionsHold, OpaqueAsks, OpaqueDecides, AnswersInTurn};
ghost use Rattle.worked_examples.specs.Code.Refuted.{LanesStay, EventsStay, EndsStay, CountsStay, DivisorsStay, UndefinedAsksNothing};
ghost use Rattle.worked_examples.specs.Code.Premises.{FoldsACopy, QuietMatters, RewritesACopy, ClashMatters, FixesMatters, OnlyMatters, LayoutMatters, NoPhisMatters, StartsMatter, SpillsInStep, StepsFromAnotherStart, AgreesOverALoop, FineMatters};
ghost use Rattle.worked_examples.specs.Code.Liveness.{IdleCopies, ReadCopies, StoresAreRead};
ghost use Rattle.worked_examples.specs.Code.Operations.{OperationsGive};

/// What small functions do, run by the definitions.
pub fn runs()
    ensures adds_to_itself { AddsToItself }
    ensures zero_traps { ZeroTraps }
    ensures undefined_divisor { UndefinedDivisor }
    ensures half_undefined { HalfUndefined }
    ensures phis_swap { PhisSwap }
    ensures copies_at_once { CopiesAtOnce }
    ensures slots_keep_their_width { SlotsKeepTheirWidth }
    ensures calls_answer { CallsAnswer }
    ensures conditions_hold { ConditionsHold }
    ensures opaque_asks { OpaqueAsks }
    ensures opaque_decides { OpaqueDecides }
    ensures answers_in_turn { AnswersInTurn }
    ensures operations_give { OperationsGive }
{}

/// What refinement asks, and what it doesn't: pairs that differ in one thing.
pub fn refinement()
    ensures lanes_stay { LanesStay }
    ensures events_stay { EventsStay }
    ensures ends_stay { EndsStay }
    ensures counts_stay { CountsStay }
    ensures divisors_stay { DivisorsStay }
    ensures undefined_asks_nothing { UndefinedAsksNothing }
{}

/// The law of folds speaks of something, and needs each of its premises.
pub fn folding()
    ensures folds_a_copy { FoldsACopy }
    ensures quiet_matters { QuietMatters }
    ensures fixes_matters { FixesMatters }
    ensures only_matters { OnlyMatters }
    ensures layout_matters { LayoutMatters }
    ensures no_phis_matters { NoPhisMatters }
    ensures starts_matter { StartsMatter }
{}

/// The law of rewriting speaks of something, and asks that no ranges which live at once get one unit.
pub fn rewriting()
    ensures rewrites_a_copy { RewritesACopy }
    ensures clash_matters { ClashMatters }
{}

/// The laws of passes, of the checker and of operations speak of something, and need their premises.
pub fn laws()
    ensures spills_in_step { SpillsInStep }
    ensures steps_from_another_start { StepsFromAnotherStart }
    ensures agrees_over_a_loop { AgreesOverALoop }
    ensures fine_matters { FineMatters }
{}

/// Which lanes of small codes are live.
pub fn live_lanes()
    ensures idle_copies { IdleCopies }
    ensures read_copies { ReadCopies }
    ensures stores_are_read { StoresAreRead }
{}
