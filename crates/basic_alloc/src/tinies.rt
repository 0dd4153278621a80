//! What a run of the basic allocator knows of ranges besides their registers: which are tinies.

ghost use Rattle.std.specs.Prelude.{◌≡◌, [], slice_set, IfOk};
ghost use Rattle.evictor.specs.Settings.{ranking_of};
ghost use Rattle.evictor.specs.declared.ranks.Stage.TheVariants.{Tiny};
ghost use Rattle.basic_alloc.specs.Basic.{stages_of, tiny_ranking};

use evictor::{Ranks, Stage, Stages, UseSums};
use std::alloc::{AllocError, Global};
use target_base::{List, Numbers};

/// Gives a range the stage of a tiny; a number that no range has changes nothing.
fn mark(stages: &mut Vec<Stage>, v: u32)
    ensures { stages.new.items ≡ slice_set stages.old.items v Tiny }
{
    if let Some(place) = stages.get_mut(v as usize) {
        *place = Stage::Tiny;
    }
}

/// The stages of this many ranges, of which those of these numbers are tinies.
#[tactic(auto, using(crate::proofs::Staged::staged))]
fn stages_of(alloc: Global, count: usize, tinies: &[u32]) -> Result<Stages, AllocError>
    ensures { IfOk result (λ stages. stages ≡ stages_of count tinies.now) }
{
    let mut stages = Vec::from_elem(alloc, Stage::New, count)?;
    'tinies: for v in tinies {
        mark(&mut stages, *v);
    }
    Ok(List::from_vec(stages))
}

/// What is known of this many ranges, of which those of these numbers are tinies: no other stage than
/// that, and no cascade.
pub fn ranks_of(alloc: Global, count: usize, tinies: &Numbers) -> Result<Ranks, AllocError>
    ensures ranking { IfOk result (λ ranks. ranking_of ranks ≡ tiny_ranking count tinies.now) }
    ensures uses { IfOk result (λ ranks. ranks.uses ≡ []) }
{
    let stages = stages_of(alloc, count, tinies.as_slice())?;
    Ok(Ranks {
        stages,
        cascades: Numbers::new(alloc),
        greatest: 0,
        uses: UseSums::new(alloc),
    })
}
