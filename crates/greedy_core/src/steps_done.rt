//! The steps of a run: for the range that comes first, the first of them that applies is done.

ghost use Rattle.std.specs.Prelude.{◌++◌, List, OnOk, OnErr};
ghost use Rattle.watchers.specs.declared.steps.Step.{Step};
ghost use Rattle.watchers.specs.Told.{AllTold, PartTold};
ghost use Rattle.greedy_core.specs.Ledgers.{Records};

use crate::ledger::StepBudget;
use crate::run::{Policy, Run};
use evictor::{Stage, candidates, cheapest_of, first_free};
use interference::{Clash, Tinies, Tiny};
use place_solve::solve;
use spiller::{RunStop, spill};
use std::alloc::AllocError;
use std::collections::BTreeSet;
use target_base::{Numbers, Reg, Target};
use watchers::{Choices, Step, Steps, Watcher, tell_steps};

impl Run {
    /// Does a step for a range, and tells all watchers of it, in order.
    pub fn step<W: Watcher>(
        &mut self,
        target: &Target,
        v: u32,
        ledger: &mut StepBudget,
        watchers: &mut Vec<W>,
    ) -> Result<(), RunStop>
        ensures told { OnOk result ((steps : List Step) × AllTold (W.next target.now) steps watchers.old.items watchers.new.items
            × ((done : List Step) → Records ledger.old done → Records ledger.new (done ++ steps))) }
        ensures part { OnErr result ((steps : List Step) × PartTold (W.next target.now) steps watchers.old.items watchers.new.items) }
    {
        let done = self.steps(v)?;
        ledger.enter_all(&done)?;
        tell_steps(watchers, target, &done)?;
        Ok(())
    }

    /// Does what the policy does for a range, and answers what is told of it.
    fn steps(&mut self, v: u32) -> Result<Steps, RunStop> {
        match self.policy {
            Policy::Greedy | Policy::Cut => {
                let done = self.first_step(v)?;
                Ok(self.alone(done)?)
            }
            Policy::Basic => self.basic_steps(v),
        }
    }

    /// A step, as the only one that is told.
    pub fn alone(&self, done: Step) -> Result<Steps, AllocError> {
        let mut steps = Steps::new(self.alloc);
        steps.push(done)?;
        Ok(steps)
    }

    /// Does the first step that applies, and answers it.
    fn first_step(&mut self, v: u32) -> Result<Step, RunStop> {
        if let Some(done) = self.step_in_registers(v)? {
            return Ok(done);
        }
        match self.stage(v) {
            Stage::New => Ok(self.defer(v)?),
            Stage::Split => self.divide_or_spill(v),
            Stage::Tiny => self.place(v),
        }
    }

    /// Gives a range a free register, or that of cheaper ranges.
    fn step_in_registers(&mut self, v: u32) -> Result<Option<Step>, AllocError> {
        let found = candidates(self.alloc, &self.matrix, v, &self.freqs)?;
        if let Some(r) = first_free(&self.matrix, v, found.as_slice()) {
            return Ok(Some(self.take(v, r)?));
        }
        if self.stage(v) == Stage::Split {
            return Ok(None);
        }
        self.step_by_eviction(v, found.as_slice())
    }

    /// Gives a range a free register.
    pub fn take(&mut self, v: u32, r: Reg) -> Result<Step, AllocError> {
        self.matrix.assign(v, r)?;
        Ok(Step::Assign(v, r))
    }

    /// Gives a range the register of cheaper ranges.
    fn step_by_eviction(&mut self, v: u32, found: &[Reg]) -> Result<Option<Step>, AllocError> {
        match cheapest_of(self.alloc, &self.matrix, v, &self.freqs, &self.ranks, found)? {
            Some((r, victims)) => Ok(Some(self.evict(v, r, victims)?)),
            None => Ok(None),
        }
    }

    /// Gives a range the register of others, which wait again.
    fn evict(&mut self, v: u32, r: Reg, victims: Numbers) -> Result<Step, AllocError> {
        self.push_out(v, victims.as_slice());
        self.matrix.assign(v, r)?;
        self.enqueue_all(victims.as_slice())?;
        Ok(Step::Evict(v, r, victims))
    }

    /// Takes ranges out of their register, and gives them the cascade number of the one that evicts.
    fn push_out(&mut self, v: u32, victims: &[u32]) {
        let number = self.ranks.number(v);
        self.ranks.greatest = self.ranks.greatest.max(number);
        self.set_cascade(v, number);
        'unassigned: for w in victims {
            self.matrix.unassign(*w);
            self.set_cascade(*w, number);
        }
    }

    /// Lets ranges wait, one after another, each at its own stage.
    pub fn enqueue_all(&mut self, ranges: &[u32]) -> Result<(), AllocError> {
        'ranges: for w in ranges {
            self.enqueue(*w)?;
        }
        Ok(())
    }

    /// Lets a range wait for a split or a spill.
    fn defer(&mut self, v: u32) -> Result<Step, AllocError> {
        self.set_stage(v, Stage::Split);
        self.enqueue(v)?;
        Ok(Step::Defer(v))
    }

    fn divide_or_spill(&mut self, v: u32) -> Result<Step, RunStop> {
        match self.divide(v)? {
            Some(done) => Ok(done),
            None => self.spill_alone(v),
        }
    }

    /// Spills a range. The ranges of its places wait.
    pub fn spill_alone(&mut self, v: u32) -> Result<Step, RunStop> {
        let done = self.spill(v)?;
        self.enqueue_tinies(&done)?;
        Ok(done)
    }

    /// Spills a range. The ranges of its places are known, and don't wait yet.
    pub fn spill(&mut self, v: u32) -> Result<Step, RunStop> {
        let tinies = spill(self.alloc, &mut self.matrix, &mut self.slots, v)?;
        self.forget_uses(v);
        let numbers = self.add_tinies(&tinies)?;
        Ok(Step::Spill(v, numbers))
    }

    /// The ranges that a spill made wait.
    pub fn enqueue_tinies(&mut self, spilled: &Step) -> Result<(), AllocError> {
        match spilled {
            Step::Spill(_, tinies) => self.enqueue_all(tinies.as_slice()),
            _ => Ok(()),
        }
    }

    /// The ranges of places become known. Answers their numbers.
    fn add_tinies(&mut self, tinies: &Tinies) -> Result<Numbers, AllocError> {
        self.add_ranges()?;
        let mut numbers = Numbers::new(self.alloc);
        'tinies: for tiny in tinies.as_slice() {
            self.add_tiny(*tiny)?;
            numbers.push(tiny.range)?;
        }
        Ok(numbers)
    }

    fn add_tiny(&mut self, tiny: Tiny) -> Result<(), AllocError> {
        self.set_stage(tiny.range, Stage::Tiny);
        if let Some(place) = self.places.get_mut(tiny.range as usize) {
            *place = Some(tiny.at);
        }
        self.add_to_place(tiny)
    }

    fn add_to_place(&mut self, tiny: Tiny) -> Result<(), AllocError> {
        match self.tinies.get_mut(&tiny.at) {
            Some(there) => there.push(tiny.range)?,
            None => {
                let mut there = Vec::new(self.alloc);
                there.push(tiny.range)?;
                self.tinies.insert(tiny.at, there)?;
            }
        }
        Ok(())
    }

    /// The tinies of the place of one, by their numbers.
    fn tinies_beside(&self, v: u32) -> Result<Tinies, AllocError> {
        let mut found = Tinies::new(self.alloc);
        let Some(at) = self.places.get(v as usize).copied().unwrap_or(None) else {
            return Ok(found);
        };
        if let Some(there) = self.tinies.get(&at) {
            'there: for range in there {
                found.push(Tiny { range: *range, at })?;
            }
        }
        Ok(found)
    }

    /// Gives the tinies of a place their registers together. The ranges in their way wait again.
    pub fn place(&mut self, v: u32) -> Result<Step, RunStop> {
        let tinies = self.tinies_beside(v)?;
        let Some(choices) = solve(self.alloc, &self.matrix, &tinies)? else {
            return Err(RunStop::Unfinished);
        };
        self.place_as(&choices)?;
        Ok(Step::Place(choices))
    }

    fn place_as(&mut self, choices: &Choices) -> Result<(), AllocError> {
        self.release(choices);
        let clashers = self.clashers_of(choices)?;
        self.unassign_all(clashers.as_slice());
        self.assign_all(choices)?;
        self.enqueue_all(clashers.as_slice())
    }

    /// Takes ranges out of their registers. One that has none stays as it is.
    pub fn unassign_all(&mut self, ranges: &[u32]) {
        'ranges: for w in ranges {
            self.matrix.unassign(*w);
        }
    }

    /// Takes the ranges of a place out of their registers and out of the queue.
    fn release(&mut self, choices: &Choices) {
        'choices: for (v, _) in choices.as_slice() {
            self.matrix.unassign(*v);
            self.queue.remove(*v);
        }
    }

    /// The ranges in the way of these choices, by their numbers.
    fn clashers_of(&self, choices: &Choices) -> Result<Vec<u32>, AllocError> {
        let mut found = BTreeSet::new(self.alloc);
        'choices: for (v, r) in choices.as_slice() {
            self.add_clashers(*v, *r, &mut found)?;
        }
        self.numbers_of(&found)
    }

    fn numbers_of(&self, found: &BTreeSet<u32>) -> Result<Vec<u32>, AllocError> {
        let mut numbers = Vec::new(self.alloc);
        'found: for w in found {
            numbers.push(*w)?;
        }
        Ok(numbers)
    }

    fn add_clashers(&self, v: u32, r: Reg, found: &mut BTreeSet<u32>) -> Result<(), AllocError> {
        if let Clash::Ranges(ranges) = self.matrix.clashers(v, r)? {
            'ranges: for w in ranges.as_slice() {
                found.insert(*w)?;
            }
        }
        Ok(())
    }

    fn assign_all(&mut self, choices: &Choices) -> Result<(), AllocError> {
        'choices: for (v, r) in choices.as_slice() {
            self.matrix.assign(*v, *r)?;
        }
        Ok(())
    }
}
