//! What a run keeps of its steps, to see that it doesn't go round: which ranges were spilled, and how
//! many more times tinies may be placed.

ghost use Rattle.std.specs.Prelude.{◌≡◌, ◌≤◌, ◌+◌, ◌++◌, ◌∷◌, [], ◌||◌, ℕ, List, false, not, nat_eq, IfOk, OnOk};
ghost use Rattle.watchers.specs.declared.steps.Step.{Step};
ghost use Rattle.greedy_core.specs.Ledgers.{has, Records};

use spiller::RunStop;
use std::alloc::{AllocError, Global};
use std::collections::BTreeSet;
use watchers::{Step, Steps};

/// What is kept of the steps that were done.
#[derive(Drop)]
pub(crate) struct StepBudget {
    /// The ranges that were spilled.
    spilled: BTreeSet<u32>,
    /// The tinies that were made, less the steps that placed some.
    spare: u64,
}

impl StepBudget {
    /// No step was done.
    pub fn new(alloc: Global) -> StepBudget
        ensures { Records result [] }
    {
        StepBudget {
            spilled: BTreeSet::new(alloc),
            spare: 0,
        }
    }

    /// Puts steps behind those that were done. Unfinished comes where one of them begins a run, where
    /// one spills a range that was spilled before, or where tinies were placed as often as there are
    /// tinies.
    pub fn enter_all(&mut self, steps: &Steps) -> Result<(), RunStop>
        ensures { OnOk result ((done : List Step) → Records self.old done → Records self.new (done ++ steps.now)) }
    {
        'steps: for step in steps.as_slice() {
            self.enter(step)?;
        }
        Ok(())
    }

    /// Puts a step behind those that were done.
    fn enter(&mut self, step: &Step) -> Result<(), RunStop>
        ensures { OnOk result ((done : List Step) → Records self.old done → Records self.new (done ++ step.now ∷ [])) }
    {
        match step {
            // a run begins once, before its first step
            Step::Begin(_) => Err(RunStop::Unfinished),
            Step::Spill(v, tinies) => self.enter_spill(*v, tinies.len()),
            Step::Place(_) => self.enter_place(),
            _ => Ok(()),
        }
    }

    /// A range is spilled, which leaves this many tinies.
    fn enter_spill(&mut self, v: u32, count: usize) -> Result<(), RunStop>
        ensures first { OnOk result (has self.old v ≡ false) }
        ensures spilled { OnOk result ((w : ℕ) → has self.new w ≡ (nat_eq w v || has self.old w)) }
        ensures spare { OnOk result (self.new.spare ≤ self.old.spare + count) }
    {
        if !self.add(v)? {
            return Err(RunStop::Unfinished);
        }
        self.spare = self.spare.saturating_add(count as u64);
        Ok(())
    }

    /// Puts a range among those that were spilled, and answers whether it is new there.
    fn add(&mut self, v: u32) -> Result<bool, AllocError>
        ensures new { IfOk result (λ is_new. is_new ≡ not (has self.old v)) }
        ensures spilled { OnOk result ((w : ℕ) → has self.new w ≡ (nat_eq w v || has self.old w)) }
        ensures spare { OnOk result (self.new.spare ≡ self.old.spare) }
    {
        Ok(self.spilled.insert(v)?)
    }

    /// Tinies are placed.
    fn enter_place(&mut self) -> Result<(), RunStop>
        ensures spilled { OnOk result ((w : ℕ) → has self.new w ≡ has self.old w) }
        ensures spare { OnOk result (self.new.spare + 1 ≡ self.old.spare) }
    {
        if self.spare == 0 {
            return Err(RunStop::Unfinished);
        }
        self.spare -= 1;
        Ok(())
    }
}
