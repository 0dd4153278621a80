//! The watcher that writes a line for each step.

ghost use Rattle.std.specs.Prelude.{◌≡◌, ◌++◌, [], codes, OnOk, IfOk};
ghost use Rattle.watchers.specs.Lines.{range_text, ranges_text, register_text, optional_text, choices_text, kind_text, step_line};

use crate::steps::{Kind, Step};
use crate::telling::Watcher;
use crate::text::{
    put, put_choices, put_number, put_optional, put_range, put_ranges, put_register, put_word,
};
use std::alloc::{AllocError, Global};
use std::marker::Model;
use target_base::{Bytes, Copied, Reg, Target};

/// One line for each step that it was told.
#[derive(Drop)]
pub struct TraceWatcher {
    alloc: Global,
    lines: Vec<Bytes>,
}

impl Model for TraceWatcher {
    ghost use Rattle.std.specs.Prelude.{ℕ, List};

    ghost Value = { List (List ℕ) };

    ghost view = { λ s. s.lines.items };
}

impl TraceWatcher {
    /// It was told no step.
    pub fn new(alloc: Global) -> TraceWatcher
        ensures { result ≡ [] }
    {
        TraceWatcher {
            alloc,
            lines: Vec::new(alloc),
        }
    }
}

impl Watcher for TraceWatcher {
    ghost use Rattle.std.specs.Prelude.{◌++◌, ◌∷◌, [], length, slice_get, unwrap_or};
    ghost use Rattle.watchers.specs.Lines.{step_line};

    ghost next = { λ t s step. s ++ step_line t step ∷ [] };

    ghost count = { λ s. length s };

    ghost text = { λ s k. unwrap_or (slice_get s k) [] };

    fn tell(&mut self, target: &Target, step: &Step) -> Result<(), AllocError> {
        let line = line_of(self.alloc, target, step)?;
        self.lines.push(line)?;
        Ok(())
    }

    fn lines(&self) -> u64 {
        self.lines.len() as u64
    }

    fn line(&self, alloc: Global, k: u64) -> Result<Bytes, AllocError> {
        match self.lines.get(k as usize) {
            Some(line) => line.copied(alloc),
            None => Ok(Bytes::new(alloc)),
        }
    }
}

/// Adds a split.
fn put_split(
    line: &mut Bytes,
    target: &Target,
    kind: Kind,
    r: Option<Reg>,
    children: &[u32],
) -> Result<(), AllocError>
    ensures { OnOk result (line.new ≡ line.old ++ (kind_text kind ++ (optional_text target.now r ++ (codes " ->" ++ ranges_text children.now)))) }
{
    put_word(line, kind)?;
    put_optional(line, target, r)?;
    put(line, " ->")?;
    put_ranges(line, children)
}

/// Adds a word, a range and a register.
fn put_given(
    line: &mut Bytes,
    target: &Target,
    word: &str,
    v: u32,
    r: Reg,
) -> Result<(), AllocError>
    ensures { OnOk result (line.new ≡ line.old ++ (word.now ++ (range_text v ++ register_text target.now r))) }
{
    put(line, word)?;
    put_range(line, v)?;
    put_register(line, target, r)
}

/// Adds the line of a step.
fn put_step(line: &mut Bytes, target: &Target, step: &Step) -> Result<(), AllocError>
    ensures { OnOk result (line.new ≡ line.old ++ step_line target.now step.now) }
{
    match step {
        Step::Begin(number) => {
            put(line, "function ")?;
            put_number(line, *number as u64)
        }
        Step::Assign(v, r) => put_given(line, target, "assign", *v, *r),
        Step::Evict(v, r, victims) => {
            put_given(line, target, "evict", *v, *r)?;
            put_ranges(line, victims.as_slice())
        }
        Step::Defer(v) => {
            put(line, "defer")?;
            put_range(line, *v)
        }
        Step::Divide(v, kind, r, children) => {
            put(line, "split")?;
            put_range(line, *v)?;
            put_split(line, target, *kind, *r, children.as_slice())
        }
        Step::Spill(v, tinies) => {
            put(line, "spill")?;
            put_range(line, *v)?;
            put(line, " ->")?;
            put_ranges(line, tinies.as_slice())
        }
        Step::Place(choices) => {
            put(line, "place")?;
            put_choices(line, target, choices.as_slice())
        }
    }
}

/// The line of a step.
fn line_of(alloc: Global, target: &Target, step: &Step) -> Result<Bytes, AllocError>
    ensures { IfOk result (λ line. line ≡ step_line target.now step.now) }
{
    let mut line = Bytes::new(alloc);
    put_step(&mut line, target, step)?;
    Ok(line)
}
