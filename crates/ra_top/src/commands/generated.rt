//! The command `gen`.

ghost use Rattle.std.specs.Prelude.{IfOk, OnErr};
ghost use Rattle.target_base.specs.Mini.{mini_target};
ghost use Rattle.pipeline.specs.Guarded.Told.{ToldPart};
ghost use Rattle.ra_top.specs.Commands.Told.{ToldOne};
ghost use Rattle.ra_top.specs.Commands.Generated.{IsGenAnswer};

use crate::commands::answer::Answer;
use crate::commands::refusal::refused;
use crate::report::summary::text_of_gen;
use std::alloc::{AllocError, Global};
use watchers::Watcher;

/// What is answered for the function that is generated for a seed: its summary, or why it is refused.
pub fn gen_answer<W: Watcher>(
    alloc: Global,
    seed: u64,
    watchers: &mut Vec<W>,
) -> Result<Answer, AllocError>
    ensures answer { IfOk result (IsGenAnswer seed) }
    ensures told { IfOk result (ToldOne (W.next mini_target) 0 watchers.old.items watchers.new.items) }
    ensures part { OnErr result (ToldPart (W.next mini_target) watchers.old.items watchers.new.items) }
{
    match text_of_gen(alloc, seed, watchers) {
        Ok(text) => Ok(Answer::Last(text)),
        Err(stop) => refused(alloc, stop),
    }
}
