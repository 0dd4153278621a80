//! The watcher that counts the steps of each kind.

ghost use Rattle.std.specs.Prelude.{◌≡◌, ◌++◌, OnOk, OnErr, IfOk};
ghost use Rattle.std.specs.Fmt.{decimal};
ghost use Rattle.watchers.specs.Counts.{one_more, no_counts, counted, counts_line};

use crate::steps::Step;
use crate::telling::Watcher;
use crate::text::{put, put_number};
use std::alloc::{AllocError, Global};
use std::marker::Model;
use target_base::{Bytes, Target};

/// How often each kind of step was told, but for the beginnings of runs. A count that has reached
/// 2^64 - 1 stands there.
#[derive(Drop)]
pub struct CountWatcher {
    assigned: u64,
    evicted: u64,
    deferred: u64,
    divided: u64,
    spilled: u64,
    placed: u64,
}

impl Model for CountWatcher {
    ghost use Rattle.watchers.specs.Counts.{Counts};

    ghost Value = { Counts };

    ghost view = { λ s. record { assigned = s.assigned; evicted = s.evicted; deferred = s.deferred; divided = s.divided; spilled = s.spilled; placed = s.placed } };
}

impl CountWatcher {
    /// It was told no step.
    pub fn new() -> CountWatcher
        ensures { result ≡ no_counts }
    {
        CountWatcher {
            assigned: 0,
            evicted: 0,
            deferred: 0,
            divided: 0,
            spilled: 0,
            placed: 0,
        }
    }
}

/// One more than a count.
pub(crate) fn next_count(n: u64) -> u64
    ensures { result ≡ one_more n }
{
    n.saturating_add(1)
}

/// Adds a word and a count.
fn put_count(line: &mut Bytes, word: &str, n: u64) -> Result<(), AllocError>
    ensures { OnOk result (line.new ≡ line.old ++ (word.now ++ decimal n)) }
{
    put(line, word)?;
    put_number(line, n)
}

impl Watcher for CountWatcher {
    ghost use Rattle.watchers.specs.Counts.{counted, counts_line};

    ghost next = { λ t s step. counted s step };

    ghost count = { λ s. 1 };

    ghost text = { λ s k. counts_line s };

    fn tell(&mut self, _target: &Target, step: &Step) -> Result<(), AllocError> {
        match step {
            Step::Begin(_) => {}
            Step::Assign(_, _) => self.assigned = next_count(self.assigned),
            Step::Evict(_, _, _) => self.evicted = next_count(self.evicted),
            Step::Defer(_) => self.deferred = next_count(self.deferred),
            Step::Divide(_, _, _, _) => self.divided = next_count(self.divided),
            Step::Spill(_, _) => self.spilled = next_count(self.spilled),
            Step::Place(_) => self.placed = next_count(self.placed),
        }
        Ok(())
    }

    fn lines(&self) -> u64 {
        1
    }

    fn line(&self, alloc: Global, _k: u64) -> Result<Bytes, AllocError> {
        let mut line = Bytes::new(alloc);
        put_count(&mut line, "assign ", self.assigned)?;
        put_count(&mut line, " evict ", self.evicted)?;
        put_count(&mut line, " defer ", self.deferred)?;
        put_count(&mut line, " split ", self.divided)?;
        put_count(&mut line, " spill ", self.spilled)?;
        put_count(&mut line, " place ", self.placed)?;
        Ok(line)
    }
}
