//! The places of a source.

ghost use Rattle.std.specs.Prelude.{◌≡◌, IfErr, IfOk, OnOk};
ghost use Rattle.mir_meaning.specs.Places.{Admits, FirstPlace, PlacesServe, TooMany};
ghost use Rattle.mir_meaning.specs.declared.Form.TheVariants as forms;
ghost use Rattle.mir_meaning.specs.Valid.{IsValid};
ghost use Rattle.live_laws.specs.Effects.Shaped.{AreClasses};
ghost use Rattle.live_lanes.specs.Doing.{IsComputed};
ghost use Rattle.place_solve.specs.Own as own;

use live_lanes::LiveFunc;
use machine_verify::LiveSource;
use place_solve::{PlaceStop, check_live_places};
use std::alloc::Global;
use target_base::{Shared, Target};

/// A source with what is live in it, where each of its places has few enough variables and admits a
/// choice; else the first place that has too many, or that admits none.
pub fn check_source_places(
    alloc: Global,
    target: &Shared<Target>,
    source: LiveSource,
) -> Result<LiveFunc, PlaceStop>
    requires { IsComputed target.now source.source.func source.table.table }
    ensures func { IfOk result (λ live. live.func ≡ source.source.func) }
    ensures target { IfOk result (λ live. live.target ≡ target.now) }
    ensures variables { IfErr result (own.IfVariables (FirstPlace target.now source.source.func TooMany)) }
    ensures few_at_ok { OnOk result (own.HasFew target.now source.source.func) }
    ensures few_at_unassignable { IfErr result (own.IfUnassignable (λ _. own.HasFew target.now source.source.func)) }
    ensures serve_at_ok { OnOk result (AreClasses target.now source.source.func → IsValid target.now forms.Source source.source.func → PlacesServe target.now source.source.func) }
    ensures unassignable { IfErr result (own.IfUnassignable (λ p. AreClasses target.now source.source.func → IsValid target.now forms.Source source.source.func → FirstPlace target.now source.source.func (λ q. Admits target.now source.source.func q → ⊥) p)) }
{
    let live = source.into_live(target)?;
    match check_live_places(alloc, &live) {
        Ok(()) => Ok(live),
        Err(stop) => Err(stop),
    }
}
