//! What is asked of pairs of functions, a source and an allocated one.

use crate::documents::{function_of, source_of, tell};
use alloc_check::{Verdict, check_pair, check_reserved};
use anyhow::Result;
use mir_func::{Func, Valid};
use source_text::keeps_text;
use std::rt::HostRuntime;
use target_base::Target;

/// What is asked of a pair of functions.
#[derive(Clone, Copy)]
pub enum PairQuestion {
    /// Whether the text of the source is kept.
    Text,
    /// What is asked of a valid source.
    Valid(ValidQuestion),
}

/// What is asked of a valid source and a function.
#[derive(Clone, Copy)]
pub enum ValidQuestion {
    /// The verdict of the checker of allocations.
    Verdict,
    /// Whether reserved units hold what they hold in the source.
    Reserved,
}

/// Prints a verdict.
fn tell_verdict(rt: &HostRuntime, verdict: Verdict) -> Result<()> {
    match verdict {
        Verdict::Yes => println!(rt; "yes")?,
        Verdict::No(place) => println!(rt; "no bb.{}:{}", place.block, place.at)?,
    }
    Ok(())
}

/// Answers a question of a valid source and a function.
fn answer_valid(
    rt: &HostRuntime,
    question: ValidQuestion,
    target: &Target,
    source: &Valid,
    g: &Func,
) -> Result<()> {
    match question {
        ValidQuestion::Verdict => tell_verdict(rt, check_pair(rt.alloc(), target, source, g)?),
        ValidQuestion::Reserved => {
            let held = check_reserved(rt.alloc(), target, source, g)?;
            tell(rt, if held { "held" } else { "lost" })
        }
    }
}

/// Answers a question of a source, where it is valid, and a function.
fn answer_source(
    rt: &HostRuntime,
    question: ValidQuestion,
    target: &Target,
    f: Func,
    g: &Func,
) -> Result<()> {
    match source_of(rt, target, f)? {
        Some(source) => answer_valid(rt, question, target, &source, g),
        None => tell(rt, "no valid source"),
    }
}

/// Prints whether the second function keeps the text of the first.
fn tell_text(rt: &HostRuntime, target: &Target, f: &Func, g: &Func) -> Result<()> {
    let kept = keeps_text(rt.alloc(), target, f, g)?;
    tell(rt, if kept { "kept" } else { "lost" })
}

/// Answers a question of two functions, where two files hold them.
fn answer_functions(
    rt: &HostRuntime,
    question: PairQuestion,
    target: &Target,
    f: Option<Func>,
    g: Option<Func>,
) -> Result<()> {
    match (f, g) {
        (Some(f), Some(g)) => match question {
            PairQuestion::Text => tell_text(rt, target, &f, &g),
            PairQuestion::Valid(question) => answer_source(rt, question, target, f, &g),
        },
        _ => tell(rt, "no functions"),
    }
}

/// Answers a question of the functions of two files.
fn answer_pair(
    rt: &HostRuntime,
    question: PairQuestion,
    target: &Target,
    source: &str,
    allocated: &str,
) -> Result<()> {
    let f = function_of(rt, target, source)?;
    let g = function_of(rt, target, allocated)?;
    answer_functions(rt, question, target, f, g)
}

/// Answers a question of each two files in turn.
pub fn answer_pairs(
    rt: &HostRuntime,
    question: PairQuestion,
    target: &Target,
    paths: &[String],
) -> Result<()> {
    let mut source: Option<&String> = None;
    for path in paths {
        match source {
            Some(first) => {
                answer_pair(rt, question, target, first.as_str(), path.as_str())?;
                source = None;
            }
            None => source = Some(path),
        }
    }
    Ok(())
}
