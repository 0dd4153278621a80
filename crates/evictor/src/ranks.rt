//! What a run knows of each range besides its register.

ghost use Rattle.std.specs.Prelude.{◌≡◌, ◌+◌, ◌<◌, ◌^◌, slice_get, unwrap_or};
ghost use Rattle.evictor.specs.declared.ranks.Stage.TheVariants.{New};
ghost use Rattle.evictor.specs.Settings.{ranking_of, known_uses};
ghost use Rattle.evictor.specs.Cheapest.{is_tiny, cascade, number};

use std::alloc::{AllocError, Global};
use target_base::{Copied, List, Numbers};

/// How far a range has come in its run.
#[derive(Clone, Copy, Debug, PartialEq, Eq)]
pub enum Stage {
    /// It waits for a register for the first time, or lost one.
    New,
    /// It is to be split or spilled.
    Split,
    /// It was made by spilling, for one place.
    Tiny,
}

impl Copied for Stage {
    fn copied(&self, _alloc: Global) -> Result<Stage, AllocError> {
        Ok(*self)
    }
}

/// Stages by range.
pub type Stages = List<Stage>;

/// Use sums by range, where they are known.
pub type UseSums = List<Option<u128>>;

/// The stages and cascade numbers of ranges, by their numbers.
#[derive(Drop)]
pub struct Ranks {
    /// The stages.
    pub stages: Stages,
    /// The cascade numbers; 0 where none was given. A range evicts only ranges with lower ones.
    pub cascades: Numbers,
    /// The greatest number that was given.
    pub greatest: u32,
    /// Use sums that were found before. Edits of other ranges don't change them; a range that is split
    /// or spilled has none.
    pub uses: UseSums,
}

impl Ranks {
    /// The stage of a range; New where none is known.
    pub fn stage(&self, v: u32) -> Stage
        ensures { result ≡ unwrap_or (slice_get self.now.stages v) New }
    {
        self.stages
            .as_slice()
            .get(v as usize)
            .copied()
            .unwrap_or(Stage::New)
    }

    /// Whether a range was made by spilling, for one place.
    pub fn is_tiny(&self, v: u32) -> bool
        ensures { result ≡ is_tiny (ranking_of self.now) v }
    {
        match self.stage(v) {
            Stage::Tiny => true,
            _ => false,
        }
    }

    /// The cascade number of a range.
    pub fn cascade(&self, v: u32) -> u32
        ensures { result ≡ cascade (ranking_of self.now) v }
    {
        self.cascades
            .as_slice()
            .get(v as usize)
            .copied()
            .unwrap_or(0)
    }

    /// The use sum of a range, where it is known.
    pub fn known_uses(&self, v: u32) -> Option<u128>
        ensures { result ≡ known_uses self.now.uses v }
    {
        self.uses
            .as_slice()
            .get(v as usize)
            .copied()
            .unwrap_or(None)
    }

    /// The number that a range compares with the cascade numbers of others.
    #[tactic(auto, using(crate::proofs::Ranked::number_is))]
    pub fn number(&self, v: u32) -> u32
        ensures { self.now.greatest + 1 < 2 ^ 32 → result ≡ number (ranking_of self.now) v }
    {
        let own = self.cascade(v);
        if own == 0 {
            self.greatest.saturating_add(1)
        } else {
            own
        }
    }
}
