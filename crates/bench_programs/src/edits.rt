//! Random edits of functions with what is live in them. Behind each list of edits the table must be the one that is
//! computed anew of a copy, and the function the edited one, or where the list was taken back or refused the one
//! before.
//!
//! A line for each function: its name, `kept K rolled back R refused F`, of so many lists each, `edits E`, of so many
//! edits in all of them, and `same`; or `differs` and the first place that differs, behind which the
//! program ends with 1. A place is `function`, `bb.N:K` (an instruction), `bb.N start`, `I entry` or `I exit` with a
//! lane `%V:L`, a lane `slot S:L` or a unit, `I acts %V:L` (what the instruction of the id I does to the lane) or
//! `points %V`.

use crate::cuts::draw;
use crate::documents::{function_of, source_of, tell, text_of};
use crate::live_differences::{Difference, find_difference, tell_difference};
use crate::random_edits::{DrawnEdits, draw_edits};
use anyhow::{Context, Result, bail};
use live_edits::Edit;
use live_edits::live::{EditChanges, begin_edits, commit, roll_back};
use live_lanes::LiveFunc;
use mir_func::{Func, Valid};
use std::alloc::{AllocError, Global};
use std::rt::HostRuntime;
use target_base::Target;

/// How many lists of edits are done, and what they are drawn from.
#[derive(Clone, Copy)]
struct EditRounds {
    seed: u64,
    count: u64,
}

/// What becomes of a list of edits.
#[derive(Clone, Copy, PartialEq, Eq)]
enum EditEnding {
    Kept,
    RolledBack,
    Refused,
}

/// What became of lists of edits, and the first difference.
#[derive(Clone, Copy)]
struct EditReport {
    edits: usize,
    kept: u64,
    rolled_back: u64,
    refused: u64,
    difference: Option<Difference>,
}

impl EditReport {
    /// Nothing was done.
    fn new() -> EditReport {
        EditReport {
            edits: 0,
            kept: 0,
            rolled_back: 0,
            refused: 0,
            difference: None,
        }
    }

    /// Counts a list of edits.
    fn add(&mut self, ending: EditEnding) {
        match ending {
            EditEnding::Kept => self.kept = self.kept.saturating_add(1),
            EditEnding::RolledBack => self.rolled_back = self.rolled_back.saturating_add(1),
            EditEnding::Refused => self.refused = self.refused.saturating_add(1),
        }
    }
}

/// Keeps edits or takes them back.
fn end_edits(live: &mut LiveFunc, changes: EditChanges, is_kept: bool) -> EditEnding {
    if is_kept {
        commit(live, changes);
        EditEnding::Kept
    } else {
        roll_back(live, changes);
        EditEnding::RolledBack
    }
}

/// Does edits, and keeps them or takes them back.
fn do_edits(
    live: &mut LiveFunc,
    edits: Vec<Edit>,
    range: Option<u32>,
    is_kept: bool,
) -> EditEnding {
    match begin_edits(live, edits, range) {
        Ok(changes) => end_edits(live, changes, is_kept),
        Err(_) => EditEnding::Refused,
    }
}

/// Does drawn edits, and looks for a difference.
fn try_edits(
    alloc: Global,
    live: &mut LiveFunc,
    drawn: DrawnEdits,
    is_kept: bool,
    report: &mut EditReport,
) -> Result<(), AllocError> {
    let DrawnEdits {
        edits,
        range,
        before,
        after,
    } = drawn;
    report.edits = report.edits.saturating_add(edits.len());
    let ending = do_edits(live, edits, range, is_kept);
    report.add(ending);
    let wanted = match ending {
        EditEnding::Kept => &after,
        _ => &before,
    };
    report.difference = find_difference(alloc, live, wanted)?;
    Ok(())
}

/// Draws a list of edits, does them, and looks for a difference. Three lists of four are kept. One that
/// can't be drawn for want of memory is passed over.
fn edit_once(
    alloc: Global,
    live: &mut LiveFunc,
    state: &mut u64,
    report: &mut EditReport,
) -> Result<(), AllocError> {
    let is_kept = draw(state) % 4 != 0;
    match draw_edits(alloc, live.target(), live.func(), state) {
        Ok(drawn) => try_edits(alloc, live, drawn, is_kept, report),
        Err(_) => Ok(()),
    }
}

/// Does lists of edits until there is a difference.
fn edit_often(
    alloc: Global,
    live: &mut LiveFunc,
    rounds: EditRounds,
) -> Result<EditReport, AllocError> {
    let mut state = rounds.seed;
    let mut report = EditReport::new();
    for _ in 0..rounds.count {
        edit_once(alloc, live, &mut state, &mut report)?;
        if report.difference.is_some() {
            break;
        }
    }
    Ok(report)
}

/// Prints what became of edits.
fn tell_report(rt: &HostRuntime, live: &LiveFunc, report: EditReport) -> Result<()> {
    let name = text_of(live.func().name.as_slice());
    print!(rt;
        "{name} kept {} rolled back {}",
        report.kept, report.rolled_back
    )?;
    print!(rt; " refused {} edits {}", report.refused, report.edits)?;
    let Some(found) = report.difference else {
        return tell(rt, " same");
    };
    print!(rt; " differs ")?;
    tell_difference(rt, live.target(), found)?;
    println!(rt; "")?;
    bail!("what is live differs from what is computed anew")
}

/// Prints what became of edits, unless what they were compared with can't be computed.
fn tell_outcome(
    rt: &HostRuntime,
    live: &LiveFunc,
    outcome: Result<EditReport, AllocError>,
) -> Result<()> {
    let report = outcome?;
    tell_report(rt, live, report)
}

/// Edits a valid source.
fn edit_source(rt: &HostRuntime, target: &Target, rounds: EditRounds, source: Valid) -> Result<()> {
    let Valid { func } = source;
    let mut live = LiveFunc::compute(rt.alloc(), target, func)?;
    let outcome = edit_often(rt.alloc(), &mut live, rounds);
    let answer = tell_outcome(rt, &live, outcome);
    // what was computed of the function is given back by its own crate, which proves how
    live.into_func();
    answer
}

/// Edits a function that is a valid source.
fn edit_function(rt: &HostRuntime, target: &Target, rounds: EditRounds, f: Func) -> Result<()> {
    match source_of(rt, target, f)? {
        Some(source) => edit_source(rt, target, rounds, source),
        None => tell(rt, "no valid source"),
    }
}

/// Edits the function of each file.
fn edit_each(
    rt: &HostRuntime,
    target: &Target,
    rounds: EditRounds,
    paths: &[String],
) -> Result<()> {
    for path in paths {
        match function_of(rt, target, path.as_str())? {
            Some(f) => edit_function(rt, target, rounds, f)?,
            None => tell(rt, "no function")?,
        }
    }
    Ok(())
}

/// Answers `--edits`.
pub fn answer_edits(rt: &HostRuntime, target: &Target, words: &[String]) -> Result<()> {
    let [seed, count, paths @ ..] = words else {
        bail!("a seed and a number of lists are missing");
    };
    let seed = seed.as_str().parse::<u64>().context("reading a seed")?;
    let count = count
        .as_str()
        .parse::<u64>()
        .context("reading a number of lists")?;
    edit_each(rt, target, EditRounds { seed, count }, paths)
}
