//! Laws of a whole allocation: its end does what the source does, and is valid.
//!
//! Each is the contract of a function, so that a check proves it. Begin with `refines_end_law`, `valid_end_law` and
//! `moved_end_law`, the last three: a valid source is lowered and joined; its ranges get registers and lose them, are split and
//! are spilled; and once each range that is named has a register, the function in physical form does what the source does, and
//! is a valid allocated function, also where slots go to others behind that. `state_law` says what each state on the way keeps,
//! and `step_law` what a step does. They ask that no reload of the target has an early-clobber
//! definition.
#![tactic(auto)]

ghost use Rattle.run_end_laws.specs.Allocating.{AllocatingIsReached};
ghost use Rattle.run_end_laws.specs.Ends.{AllocatedIsValid, AllocatedRefines, MovedIsCorrect};
ghost use Rattle.run_end_laws.specs.States.{AllocatingKeepsState, AllocatingRefines, PreparedKeepsState, StepKeepsState, StepRefines};

/// But for registers, the steps of an allocation are those of a run.
pub fn reached_law()
    ensures { AllocatingIsReached }
{}

/// A prepared function is in order,
pub fn prepared_law()
    ensures { PreparedKeepsState }
{}

/// each step keeps it so,
pub fn step_law()
    ensures { StepKeepsState }
{}

/// and so each state is.
pub fn state_law()
    ensures { AllocatingKeepsState }
{}

/// A step keeps what the function does,
pub fn refines_step_law()
    ensures { StepRefines }
{}

/// and so the function of each state does what the source does.
pub fn refines_state_law()
    ensures { AllocatingRefines }
{}

/// Once each range that is named has a register, so does the function in physical form,
pub fn refines_end_law()
    ensures { AllocatedRefines }
{}

/// and it is valid.
pub fn valid_end_law()
    ensures { AllocatedIsValid }
{}

/// So it is where slots go to others behind that.
pub fn moved_end_law()
    ensures { MovedIsCorrect }
{}
