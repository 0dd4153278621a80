//! What is told the steps of runs.

ghost use Rattle.std.specs.Prelude.{◌≡◌, ℕ, List, OnOk, OnErr, IfOk, map};
ghost use Rattle.target_base.specs.declared.types.Target.{Target};
ghost use Rattle.watchers.specs.declared.steps.Step.{Step};
ghost use Rattle.watchers.specs.Told.{FirstBecame, AllTold, PartTold};

use crate::steps::{Step, Steps};
use std::alloc::{AllocError, Global};
use target_base::{Bytes, Target};

/// What is told the steps of runs, and has lines to show for it.
pub trait Watcher: Drop {
    /// What it is after a step under a target.
    ghost next: { Target → Self → Step → Self };

    /// The number of its lines.
    ghost count: { Self → ℕ };

    /// The line of a number.
    ghost text: { Self → ℕ → List ℕ };

    /// Tells a step under a target. After a refusal the watcher is unchanged.
    fn tell(&mut self, target: &Target, step: &Step) -> Result<(), AllocError>
        ensures ok { OnOk result (self.new ≡ next target.now self.old step.now) }
        ensures err { OnErr result (self.new ≡ self.old) };

    /// The number of its lines.
    fn lines(&self) -> u64
        ensures { result ≡ count self.now };

    /// The line of a number below that, from 0.
    fn line(&self, alloc: Global, k: u64) -> Result<Bytes, AllocError>
        ensures { IfOk result (λ line. line ≡ text self.now k) };
}

/// A watcher behind a box, so that watchers of several kinds stand in one list.
impl Watcher for Box<dyn Watcher> {
    ghost next = { λ t b step. record b { value = (Watcher-box b).next t b.value step } };

    ghost count = { λ b. (Watcher-box b).count b.value };

    ghost text = { λ b k. (Watcher-box b).text b.value k };

    fn tell(&mut self, target: &Target, step: &Step) -> Result<(), AllocError> {
        (**self).tell(target, step)
    }

    fn lines(&self) -> u64 {
        (**self).lines()
    }

    fn line(&self, alloc: Global, k: u64) -> Result<Bytes, AllocError> {
        (**self).line(alloc, k)
    }
}

/// Tells a step to all watchers, in order. After a refusal some of the first were told.
pub fn tell_all<W: Watcher>(
    watchers: &mut Vec<W>,
    target: &Target,
    step: &Step,
) -> Result<(), AllocError>
    ensures ok { OnOk result (watchers.new.items ≡ map (λ w. W.next target.now w step.now) watchers.old.items) }
    ensures err { OnErr result (FirstBecame (λ w. W.next target.now w step.now) watchers.old.items watchers.new.items) }
{
    'watchers: for watcher in watchers.iter_mut() {
        watcher.tell(target, step)?;
    }
    Ok(())
}

/// Tells steps to all watchers, in order. After a refusal each was told a first part of them.
pub fn tell_steps<W: Watcher>(
    watchers: &mut Vec<W>,
    target: &Target,
    steps: &Steps,
) -> Result<(), AllocError>
    ensures ok { OnOk result (AllTold (W.next target.now) steps.now watchers.old.items watchers.new.items) }
    ensures err { OnErr result (PartTold (W.next target.now) steps.now watchers.old.items watchers.new.items) }
{
    'steps: for step in steps.as_slice() {
        tell_all(watchers, target, step)?;
    }
    Ok(())
}
