//! The run: its state, and its steps until no range waits.

ghost use Rattle.std.specs.Prelude.{◌∷◌, List, OnOk, OnErr};
ghost use Rattle.watchers.specs.declared.steps.Step.{Step};
ghost use Rattle.watchers.specs.Told.{AllTold, PartTold};
ghost use Rattle.greedy_core.specs.Bounds.{AreBounded};

use crate::ledger::StepBudget;
use crate::queue::Queue;
use block_freq::Freqs;
use evictor::{Ranks, Stage, Stages, UseSums, use_sum};
use interference::Matrix;
use live_lanes::LiveFunc;
use mir_func::{Block, Func, Loc, Operand};
use spiller::{Allocated, RunStop, SlotMap};
use split_choose::Bundles;
use std::alloc::{AllocError, Global};
use std::collections::BTreeMap;
use target_base::{Copied, Numbers, Target};
use watchers::{Step, Watcher, tell_all};

/// Which allocator runs.
#[derive(Clone, Copy, Debug, PartialEq, Eq)]
pub enum Policy {
    /// The greedy one (LLVM's RegAllocGreedy).
    Greedy,
    /// The greedy one, with region splits of least cost, which a cut and a flow certify.
    Cut,
    /// The basic one (LLVM's RegAllocBasic): a range gets a free register, ousts lighter ranges, or is
    /// spilled.
    Basic,
}

/// The state of a run.
#[derive(Drop)]
pub(crate) struct Run {
    pub alloc: Global,
    pub policy: Policy,
    /// The frequencies of blocks, by which ranges weigh.
    pub freqs: Freqs,
    pub matrix: Matrix,
    /// The edge bundles of the function.
    pub bundles: Bundles,
    pub slots: SlotMap,
    pub ranks: Ranks,
    /// How often a range comes from a split, by range.
    pub depths: Vec<u32>,
    /// The place of each tiny, by range.
    pub places: Vec<Option<u32>>,
    /// The tinies of each place.
    pub tinies: BTreeMap<u32, Vec<u32>>,
    pub queue: Queue,
}

/// Runs the allocator over a function from its first state to the one in which no range waits.
/// Each watcher is told every step, in order, from the beginning of the run over the function of
/// this number. Ranges comes where a step gives more range numbers than the limit allows. After a
/// refusal each watcher was told a first part of the steps. Behind the beginning no run begins, each
/// range is spilled at most once, and tinies are placed at most as often as there are tinies:
/// Unfinished would come before a step that breaks this.
pub fn allocate<W: Watcher>(
    alloc: Global,
    target: &Target,
    f: LiveFunc,
    freqs: &Freqs,
    policy: Policy,
    number: u32,
    watchers: &mut Vec<W>,
) -> Result<Allocated, RunStop>
    ensures told { OnOk result ((steps : List Step) × AllTold (W.next target.now) (Step.Begin number ∷ steps) watchers.old.items watchers.new.items × AreBounded steps) }
    ensures part { OnErr result ((steps : List Step) × PartTold (W.next target.now) steps watchers.old.items watchers.new.items) }
{
    let mut run = Run::new(alloc, policy, f, freqs)?;
    let mut ledger = StepBudget::new(alloc);
    tell_all(watchers, target, &Step::Begin(number))?;
    'steps: for _ in 0..u64::MAX {
        let Some(v) = run.queue.pop() else {
            return Ok(run.into_allocated());
        };
        run.step(target, v, &mut ledger, watchers)?;
    }
    Err(RunStop::Unfinished)
}

/// Sets the flags of the ranges that operands name.
fn mark_named(operands: &[Operand], named: &mut Vec<bool>) {
    'operands: for operand in operands {
        if let Operand::Reg(op) = operand {
            if let Loc::Virtual(v) = op.loc {
                if let Some(place) = named.get_mut(v as usize) {
                    *place = true;
                }
            }
        }
    }
}

/// Sets the flags of the ranges that operands of a block name.
fn mark_block(block: &Block, named: &mut Vec<bool>) {
    'instrs: for instr in block.instrs.as_slice() {
        let instr = instr.get();
        mark_named(instr.operands.as_slice(), named);
    }
}

/// Whether each range is named by an operand.
fn named_ranges(alloc: Global, f: &Func) -> Result<Vec<bool>, AllocError> {
    let mut named = Vec::from_elem(alloc, false, f.classes.len())?;
    'blocks: for block in f.blocks.as_slice() {
        mark_block(block, &mut named);
    }
    Ok(named)
}

impl Run {
    fn new(alloc: Global, policy: Policy, f: LiveFunc, freqs: &Freqs) -> Result<Run, AllocError> {
        let named = named_ranges(alloc, f.func())?;
        let mut run = Run::empty(alloc, policy, f, freqs)?;
        run.add_ranges()?;
        run.enqueue_named(named.as_slice())?;
        Ok(run)
    }

    /// A run that knows of no range.
    fn empty(alloc: Global, policy: Policy, f: LiveFunc, freqs: &Freqs) -> Result<Run, AllocError> {
        let slots = SlotMap::new(alloc, f.func())?;
        let bundles = Bundles::of(alloc, &f)?;
        Ok(Run {
            alloc,
            policy,
            freqs: freqs.copied(alloc)?,
            bundles,
            matrix: Matrix::new(alloc, f)?,
            slots,
            ranks: Ranks {
                stages: Stages::new(alloc),
                cascades: Numbers::new(alloc),
                greatest: 0,
                uses: UseSums::new(alloc),
            },
            depths: Vec::new(alloc),
            places: Vec::new(alloc),
            tinies: BTreeMap::new(alloc),
            queue: Queue::new(alloc),
        })
    }

    /// Lets the ranges wait that operands name.
    fn enqueue_named(&mut self, named: &[bool]) -> Result<(), AllocError> {
        let mut v = 0u32;
        'named: for is_named in named {
            if *is_named {
                self.enqueue(v)?;
            }
            v = v.saturating_add(1);
        }
        Ok(())
    }

    fn into_allocated(self) -> Allocated {
        let Run { matrix, slots, .. } = self;
        Allocated { matrix, slots }
    }

    /// Gives each new range a stage, a cascade number and a depth.
    pub fn add_ranges(&mut self) -> Result<(), AllocError> {
        'ranges: for _ in self.depths.len()..self.matrix.live().func().classes.len() {
            self.add_range()?;
        }
        Ok(())
    }

    fn add_range(&mut self) -> Result<(), AllocError> {
        self.ranks.stages.push(Stage::New)?;
        self.ranks.cascades.push(0)?;
        self.ranks.uses.push(None)?;
        self.places.push(None)?;
        self.depths.push(0)?;
        Ok(())
    }

    /// The stage of a range.
    pub fn stage(&self, v: u32) -> Stage {
        self.ranks.stage(v)
    }

    /// Gives a range a stage; a number that no range has changes nothing.
    pub fn set_stage(&mut self, v: u32, stage: Stage) {
        let at = v as usize;
        if at < self.ranks.stages.len() {
            *self.ranks.stages.get_mut(at) = stage;
        }
    }

    /// Gives a range a cascade number; a number that no range has changes nothing.
    pub fn set_cascade(&mut self, v: u32, cascade: u32) {
        let at = v as usize;
        if at < self.ranks.cascades.len() {
            *self.ranks.cascades.get_mut(at) = cascade;
        }
    }

    /// Finds the use sum of a range, where it isn't known yet. It stays what it is as long as the range
    /// isn't split or spilled, since other edits leave the operands that name it, and their blocks.
    fn learn_uses(&mut self, v: u32) -> Result<(), AllocError> {
        let at = v as usize;
        if at < self.ranks.uses.len() && self.ranks.known_uses(v).is_none() {
            let uses = use_sum(self.alloc, self.matrix.live(), v, &self.freqs)?;
            *self.ranks.uses.get_mut(at) = Some(uses);
        }
        Ok(())
    }

    /// Forgets the use sum of a range that was split or spilled: no operand names it any more.
    pub fn forget_uses(&mut self, v: u32) {
        let at = v as usize;
        if at < self.ranks.uses.len() {
            *self.ranks.uses.get_mut(at) = None;
        }
    }

    /// Lets a range wait, with the priority that it has now.
    pub fn enqueue(&mut self, v: u32) -> Result<(), AllocError> {
        self.learn_uses(v)?;
        let priority = self.priority(v)?;
        self.queue.add(v, priority)
    }

    /// The priority of a range under the policy.
    fn priority(&self, v: u32) -> Result<u128, AllocError> {
        match self.policy {
            Policy::Greedy | Policy::Cut => Ok(self.greedy_priority(v)? as u128),
            Policy::Basic => self.basic_priority(v),
        }
    }

    /// The priority of a range: tinies come first, then ranges of several blocks, the largest first,
    /// then ranges of one block in layout order, then those that are to be split or spilled.
    fn greedy_priority(&self, v: u32) -> Result<u64, AllocError> {
        let live = self.matrix.live();
        Ok(match self.stage(v) {
            Stage::Tiny => 1 << 31,
            Stage::Split => live.points(v).min(1 << 28),
            Stage::New if live.is_in_two_blocks(v) => {
                (1 << 30) + live.points(v).min((1 << 30) - 1)
            }
            Stage::New => (1 << 29) - 1 - live.first_number(self.alloc, v)?.min((1 << 29) - 1),
        })
    }
}
