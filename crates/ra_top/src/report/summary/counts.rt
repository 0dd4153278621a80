//! What is counted of a source and of its allocation, and of their runs.

ghost use Rattle.std.specs.Prelude.{◌≡◌, length, count_by};
ghost use Rattle.ra_top.specs.Report.Summary.Summary.{instr_count, size_of, ran_of};

use mir_func::{Block, Func};
use mir_interp::{End, Outcome};

/// How much there is of a function.
#[derive(Clone, Copy, Debug, PartialEq, Eq)]
pub struct FuncSize {
    /// The number of its blocks.
    pub blocks: usize,
    /// The number of its instructions.
    pub instrs: u128,
    /// The number of its virtual registers.
    pub registers: usize,
    /// The number of its spill slots.
    pub slots: usize,
}

/// What a run came to.
#[derive(Clone, Copy, Debug, PartialEq, Eq)]
pub struct RunSummary {
    /// The number of its events.
    pub events: usize,
    /// How it ended.
    pub end: End,
}

/// The number of instructions of blocks.
#[tactic(auto, using(std::proofs::lemmas::List::Sums::sum_by_more))]
fn instr_count(blocks: &[Block]) -> u128
    ensures { result ≡ instr_count blocks.now }
{
    let mut count = 0u128;
    'layout: for block in blocks {
        count = count.saturating_add(block.instrs.len() as u128);
    }
    count
}

/// How much there is of a function.
pub(crate) fn size_of(f: &Func) -> FuncSize
    ensures { result ≡ size_of f.now }
{
    FuncSize {
        blocks: f.blocks.len(),
        instrs: instr_count(f.blocks.as_slice()),
        registers: f.classes.len(),
        slots: f.frames.as_slice().iter().filter(|frame| frame.1).count(),
    }
}

/// What an outcome shows of a run.
pub(crate) fn ran_of(outcome: &Outcome) -> RunSummary
    ensures { result ≡ ran_of outcome.now }
{
    RunSummary {
        events: outcome.events.len(),
        end: outcome.end,
    }
}
