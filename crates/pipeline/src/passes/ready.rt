//! A function made ready for the run.

ghost use Rattle.std.specs.Prelude.{◌≡◌, ◌≤◌, ◌*◌, ◌^◌, IfOk};
ghost use Rattle.block_freq.specs.Frequencies.{frequencies_of};
ghost use Rattle.phi_elim.specs.Bulk.{bulk};
ghost use Rattle.two_address.specs.Lowered.{lowered};
ghost use Rattle.pipeline.specs.Passes.Ready.{IsPrepared, MayPrepare};

use block_freq::{Freqs, frequencies};
use coalescer::coalesce;
use live_lanes::LiveFunc;
use mir_func::{Func, Valid};
use phi_elim::lower_phis;
use std::alloc::{AllocError, Global};
use target_base::Target;
use two_address::lower_tied;

/// A function in lowered form whose copies were tried for joins.
#[derive(Drop)]
pub struct PreparedFunc {
    /// The function with what is live in it.
    pub live: LiveFunc,
    /// How often its blocks run.
    pub freqs: Freqs,
}

/// The function in lowered form: without phis first, and then without tied operands of two registers,
/// `undef` operands, REG_SEQUENCE and INSERT_SUBREG.
pub fn lower_source(alloc: Global, target: &Target, source: Valid) -> Result<Func, AllocError>
    ensures value { bulk source.func ≤ 2 ^ 24 → IfOk result (λ g. g ≡ lowered target.now source.func) }
    ensures bulk { IfOk result (λ g. bulk g ≤ 64 * bulk source.func) }
{
    lower_tied(alloc, target, lower_phis(alloc, target, source)?)
}

/// The function lowered, and then its copies joined by the frequencies of its blocks, which stay the
/// same. What was live in it before is let go, and its share of the target is kept.
pub fn prepare(alloc: Global, target: &Target, source: LiveFunc) -> Result<PreparedFunc, AllocError>
    ensures freqs { bulk source.func ≤ 2 ^ 24 → IfOk result (λ made. made.freqs ≡ frequencies_of (lowered target.now source.func).blocks) }
    ensures prepared { MayPrepare target.now source → IfOk result (IsPrepared target.now source.func) }
{
    let (own_target, func) = source.into_parts();
    let f = lower_source(alloc, target, Valid { func })?;
    let freqs = frequencies(alloc, &f)?;
    let live = LiveFunc::compute_within(alloc, own_target, f)?;
    let (live, _) = coalesce(alloc, target, live, &freqs)?;
    Ok(PreparedFunc { live, freqs })
}
