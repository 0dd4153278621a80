//! What is known where a function starts.

ghost use Rattle.std.specs.Prelude.{◌≡◌};
ghost use Rattle.meaning.specs.Facts.{all_known, known_at_start};
ghost use Rattle.meaning.specs.declared.types.Lane.TheVariants.{UnitLane};
ghost use Rattle.meaning.specs.declared.types.Source.TheVariants.{FromLane};
ghost use Rattle.mir_meaning.specs.Codes.{is_given, given_of};

use crate::facts::{Fact, same_source};
use instr_effects::masks::have_unit;
use meaning::{Lane, Source};
use mir_func::Func;
use target_base::Target;

/// Whether the unit has a value at the function's start: it is reserved, or the entry block lists it.
fn is_given(t: &Target, f: &Func, u: u32) -> bool
    ensures { result ≡ is_given t.now f.now.blocks u }
{
    match f.blocks.as_slice() {
        [] => t.is_reserved_unit(u),
        [b, ..] => t.is_reserved_unit(u) || have_unit(t, b.liveins.as_slice(), u),
    }
}

/// Whether a unit, where it is given, has its value in a source of the second function.
#[tactic(auto, using(crate::proofs::Rested::unit_free, crate::proofs::Rested::unit_apart, crate::proofs::Rested::unit_given))]
fn unit_starts(t: &Target, f: &Func, g: &Func, u: u32, source: &Source) -> bool
    ensures { result ≡ known_at_start (given_of t.now f.now) (given_of t.now g.now) (FromLane (UnitLane u)) source.now }
{
    if !is_given(t, f, u) {
        return true;
    }
    if !is_given(t, g, u) {
        return false;
    }
    same_source(&Source::FromLane(Lane::UnitLane(u)), source)
}

/// Whether a fact holds at the start of both functions: units that are given have their own
/// values, all else of the first function is Undef.
fn starts(t: &Target, f: &Func, g: &Func, fact: &Fact) -> bool
    ensures { result ≡ known_at_start (given_of t.now f.now) (given_of t.now g.now) fact.now.0 fact.now.1 }
{
    match &fact.0 {
        Source::Undef => true,
        Source::FromLane(Lane::VirtualLane(_, _)) => true,
        Source::FromLane(Lane::SlotLane(_, _, _)) => true,
        Source::FromLane(Lane::UnitLane(u)) => unit_starts(t, f, g, *u, &fact.1),
        Source::Bits(_, _, _) => same_source(&fact.0, &fact.1),
    }
}

/// Whether facts hold at the start of both functions.
pub fn all_start(t: &Target, f: &Func, g: &Func, facts: &[Fact]) -> bool
    ensures { result ≡ all_known (known_at_start (given_of t.now f.now) (given_of t.now g.now)) facts.now }
{
    for fact in facts {
        if !starts(t, f, g, fact) {
            return false;
        }
    }
    true
}
