//! Worked examples of what functions of machine instructions mean, over the built-in target: each
//! is the contract of a function.

ghost use Rattle.worked_examples.specs.MachineCode.Runs.{AddsToItself, ZeroTraps, NegativesFillTheirLanes, UndefinedDivisor, HalfUndefined, PhisSwap, PartsMoveAtOnce};

/// What functions do when they run.
pub fn runs()
    ensures adds_to_itself { AddsToItself }
    ensures zero_traps { ZeroTraps }
    ensures negatives_fill_their_lanes { NegativesFillTheirLanes }
    ensures undefined_divisor { UndefinedDivisor }
    ensures half_undefined { HalfUndefined }
    ensures phis_swap { PhisSwap }
    ensures parts_move_at_once { PartsMoveAtOnce }
{}

ghost use Rattle.worked_examples.specs.MachineCode.Liveness.{SwapLives, TwoLanesLive, CallInLoopLives, IdleLoopLives, UndefBegins, DeadFlags};

/// Which lanes are live or occupied, and where.
pub fn live_lanes()
    ensures swap_lives { SwapLives }
    ensures two_lanes_live { TwoLanesLive }
    ensures call_in_loop_lives { CallInLoopLives }
    ensures idle_loop_lives { IdleLoopLives }
    ensures undef_begins { UndefBegins }
    ensures dead_flags { DeadFlags }
{}

ghost use Rattle.worked_examples.specs.MachineCode.Validity.{TiedAddsAreValid, NeverWritten, LiveAcross, Covers, RulesFail};

/// Which functions are valid, and the first fault of others.
pub fn validity()
    ensures tied_adds_are_valid { TiedAddsAreValid }
    ensures never_written { NeverWritten }
    ensures live_across { LiveAcross }
    ensures covers { Covers }
    ensures rules_fail { RulesFail }
{}

ghost use Rattle.worked_examples.specs.MachineCode.Choices.{NothingServes, FirstChoices};

/// Which choices of registers places admit.
pub fn choices()
    ensures nothing_serves { NothingServes }
    ensures first_choices { FirstChoices }
{}

ghost use Rattle.mir_meaning.specs.Points.{LawOfPoints};
ghost use Rattle.mir_meaning.specs.Valid.{LawOfFaults};
ghost use Rattle.mir_meaning.specs.Agreement.{LawOfDoubts};
ghost use Rattle.mir_meaning.specs.Renaming.{LawOfRenaming};

/// Laws that show the definitions to be whole. Without phis the code whose live lanes are those of a
/// function is the code of its runs. A function has at most one first fault, and none where it is
/// valid; two functions have at most one first place in doubt, and none where they agree. Renaming
/// the registers of an instruction renames its item.
pub fn laws()
    ensures law_of_points { LawOfPoints }
    ensures law_of_faults { LawOfFaults }
    ensures law_of_doubts { LawOfDoubts }
    ensures law_of_renaming { LawOfRenaming }
{}
