//! The steps of the basic allocator: the range that comes first gets a free register, ousts lighter
//! ranges, is spilled, or gets the registers of its place.

use crate::run::Run;
use basic_alloc::{Choice, choice_of};
use evictor::{Stage, candidates, weight_by};
use spiller::RunStop;
use std::alloc::AllocError;
use watchers::{Step, Steps};

/// What the priority of a tiny has more than its weight. Weights are less than that.
const TINY_FIRST: u128 = 1 << 127;

impl Run {
    /// Does the first case that applies, and answers what is told of it.
    pub fn basic_steps(&mut self, v: u32) -> Result<Steps, RunStop> {
        match self.basic_choice(v)? {
            Choice::Take(r) => {
                let done = self.take(v, r)?;
                Ok(self.alone(done)?)
            }
            Choice::Oust(_, clashers) => self.oust(v, clashers.as_slice()),
            Choice::Neither => {
                let done = self.spill_or_place(v)?;
                Ok(self.alone(done)?)
            }
        }
    }

    fn basic_choice(&self, v: u32) -> Result<Choice, AllocError> {
        let found = candidates(self.alloc, &self.matrix, v, &self.freqs)?;
        choice_of(
            self.alloc,
            &self.matrix,
            v,
            &self.freqs,
            &self.ranks,
            found.as_slice(),
        )
    }

    /// Spills the ranges in the way of one, in order. Then their tinies wait, and it waits again.
    fn oust(&mut self, v: u32, clashers: &[u32]) -> Result<Steps, RunStop> {
        self.unassign_all(clashers);
        let done = self.spill_all(clashers)?;
        'spilled: for step in done.as_slice() {
            self.enqueue_tinies(step)?;
        }
        self.enqueue(v)?;
        Ok(done)
    }

    fn spill_all(&mut self, ranges: &[u32]) -> Result<Steps, RunStop> {
        let mut done = Steps::new(self.alloc);
        'ranges: for w in ranges {
            let step = self.spill(*w)?;
            done.push(step)?;
        }
        Ok(done)
    }

    fn spill_or_place(&mut self, v: u32) -> Result<Step, RunStop> {
        if self.stage(v) == Stage::Tiny {
            self.place(v)
        } else {
            self.spill_alone(v)
        }
    }

    /// The priority of a range: tinies come first, and then the heavier one of two.
    pub fn basic_priority(&self, v: u32) -> Result<u128, AllocError> {
        let known = self.ranks.known_uses(v);
        let own = weight_by(self.alloc, self.matrix.live(), v, &self.freqs, known)?;
        let own = own.min(TINY_FIRST - 1);
        Ok(if self.stage(v) == Stage::Tiny {
            TINY_FIRST + own
        } else {
            own
        })
    }
}
