//! What `run` prints of a function: a line for each event, and one for the end.

ghost use Rattle.std.specs.Prelude.{◌≡◌, ◌++◌, ◌∷◌, [], OnOk, IfOk, map};
ghost use Rattle.std.specs.List.{flat_map};
ghost use Rattle.meaning.specs.Environment.{Environment};
ghost use Rattle.meaning.specs.Code.{run};
ghost use Rattle.mir_meaning.specs.Codes.{meaning_of};
ghost use Rattle.mir_interp.specs.Stands.{StandsFor, event_of, end_of};
ghost use Rattle.mir_interp.specs.Seeds.{of_seed};
ghost use Rattle.ra_top.specs.Report.Run.Printed.{lane_word, lane_words, event_line, event_lines, end_word, end_line, lines_of_run};

use crate::numbers::{put, put_number};
use mir_func::Func;
use mir_interp::{End, Env, Event, Outcome, run};
use std::alloc::{AllocError, Global};
use target_base::{Bytes, List, Target};

/// Appends a lane behind a space.
fn put_lane(out: &mut Bytes, lane: Option<u128>) -> Result<(), AllocError>
    ensures { OnOk result (out.new ≡ out.old ++ lane_word lane) }
{
    match lane {
        None => put(out, " undef"),
        Some(n) => {
            put(out, " ")?;
            put_number(out, n)
        }
    }
}

/// Appends lanes, and ends the line.
fn put_lanes(out: &mut Bytes, lanes: &[Option<u128>]) -> Result<(), AllocError>
    ensures { OnOk result (out.new ≡ out.old ++ lane_words lanes.now) }
{
    for lane in lanes {
        put_lane(out, *lane)?;
    }
    put(out, "\n")
}

/// Appends an event as a line.
fn put_event(out: &mut Bytes, event: &Event) -> Result<(), AllocError>
    ensures { OnOk result (out.new ≡ out.old ++ event_line (event_of event.now)) }
{
    match event {
        Event::Call(name, lanes) => {
            put(out, "call ")?;
            out.extend(name.as_slice())?;
            put_lanes(out, lanes.as_slice())
        }
        Event::Store(a, lanes) => {
            put(out, "store ")?;
            put_number(out, *a)?;
            put_lanes(out, lanes.as_slice())
        }
        Event::Return(lanes) => {
            put(out, "ret")?;
            put_lanes(out, lanes.as_slice())
        }
        Event::Opaque(name, lanes) => {
            put(out, "op ")?;
            out.extend(name.as_slice())?;
            put_lanes(out, lanes.as_slice())
        }
    }
}

/// Appends events as lines.
fn put_events(out: &mut Bytes, events: &[Event]) -> Result<(), AllocError>
    ensures { OnOk result (out.new ≡ out.old ++ event_lines (map event_of events.now)) }
{
    for event in events {
        put_event(out, event)?;
    }
    Ok(())
}

/// The word of an end.
fn end_word(end: End) -> &'static str
    ensures { result.now ≡ end_word (end_of end) }
{
    match end {
        End::Returned => "returned",
        End::Trapped => "trapped",
        End::Undefined => "undefined",
        End::Steps => "steps",
    }
}

/// Appends an end as a line.
fn put_end(out: &mut Bytes, end: End) -> Result<(), AllocError>
    ensures { OnOk result (out.new ≡ out.old ++ end_line (end_of end)) }
{
    put(out, "end ")?;
    put(out, end_word(end))?;
    put(out, "\n")
}

/// The lines of what a run gave.
pub fn text_of(alloc: Global, outcome: &Outcome) -> Result<Bytes, AllocError>
    ensures { IfOk result (λ made. made ≡ event_lines (map event_of outcome.now.events) ++ end_line (end_of outcome.now.end)) }
{
    let mut out = List::new(alloc);
    put_events(&mut out, outcome.events.as_slice())?;
    put_end(&mut out, outcome.end)?;
    Ok(out)
}

/// What is printed of the run of a function, valid in one of the two forms, through n counted
/// instructions in the environment of a number.
pub fn text_of_run(
    alloc: Global,
    target: &Target,
    f: &Func,
    n: u64,
    seed: u64,
) -> Result<Bytes, AllocError>
    ensures { IfOk result (λ made. (env : Environment) → StandsFor (of_seed seed) f.now n env → made ≡ lines_of_run (run (meaning_of target.now f.now) env n)) }
{
    let world = Env { seed };
    let outcome = run(alloc, target, f, &world, n)?;
    let made = text_of(alloc, &outcome)?;
    Ok(made)
}
